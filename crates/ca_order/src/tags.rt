//! The first bytes of codes.

pub(crate) const ATOM: u8 = 0x30;

pub(crate) const TUPLE: u8 = 0x40;

pub(crate) const NIL: u8 = 0x60;

pub(crate) const CONS: u8 = 0x70;

pub(crate) const BINARY: u8 = 0x80;
