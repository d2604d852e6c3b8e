//! Commands of a client, replies to them, and where a client's batches stand.
use ca_order::CodeList;
use ca_term::{Term, Terms};

/// A call of one client on the table. Source: the ets manual's calls of these names.
#[derive(Drop)]
pub enum Cmd {
    /// The object. It replaces the object of an equal key.
    Insert(Term),
    /// The object. Where its key is in the table, nothing changes.
    InsertNew(Term),
    /// The key.
    Lookup(Term),
    /// The key.
    Member(Term),
    /// The key.
    Delete(Term),
    /// The key, whose object is the reply.
    Take(Term),
    /// The key and the operations.
    UpdateCounter(Term, Term),
    /// The key, and the position with its new element.
    UpdateElement(Term, Term),
    /// The least key is the reply.
    First,
    /// The greatest key is the reply.
    Last,
    /// The key, which need not be in the table. The least key above it is the reply.
    Next(Term),
    /// The key, which need not be in the table. The greatest key below it is the reply.
    Prev(Term),
    /// The match specification. The results of all objects are the reply.
    Select(Term),
    /// The least key, the greatest key, and the match specification. The results of the objects from the one to the other are the reply;
    /// this call is the project's own.
    SelectRange(Term, Term, Term),
    /// The match specification, and the number of results, at least 1. The first so many results are the reply; the manual's call is
    /// `select` with a limit.
    Batch(Term, Term),
    /// The next batch of the client's continuation is the reply; the manual's call is `select` of a continuation.
    More,
}

/// The reply to a command.
#[derive(Drop)]
pub enum Reply {
    /// `true` or `false`.
    Truth(bool),
    /// A key or a value.
    Value(Term),
    /// Objects or results, in key order.
    List(Terms),
    /// Results in key order, and whether there may be more.
    Batch(Terms, bool),
    /// As `List`, by the terms' codes: none of them was made a term.
    Coded(CodeList),
    /// As `Batch`, by the terms' codes.
    CodedBatch(CodeList, bool),
    /// The end of the table.
    End,
    /// An error: nothing was changed.
    Error(Fault),
}

/// An error that is the reply to a command.
#[derive(Clone, Copy, Debug, PartialEq, Eq)]
pub enum Fault {
    /// An argument isn't of the command's form, or the command has nothing to work on.
    BadArg,
    /// A number would leave 64 bits.
    Range,
    /// The byte code of an object or a key would have over 1,000 bytes.
    Size,
}

/// Where a client's batches stand.
#[derive(Drop)]
pub enum Cont {
    /// No batch was asked for yet.
    Never,
    /// Behind a key that fits, with the match specification and the number of results, at least 1, of the batch that began.
    At { spec: Term, limit: u64, key: Term },
    /// At the table's end.
    AtEnd,
}
