//! Parts of heads, compiled.

use crate::constant::Constant;
use std::marker::Model;

/// A part of a head. Contracts see it as the term that it was compiled from.
#[cycle(pattern)]
#[derive(Drop)]
pub(crate) struct Pattern {
    pub(crate) shape: Shape,
}

#[cycle(pattern)]
#[derive(Drop)]
pub(crate) enum Shape {
    // '_'
    Anything,
    // '$0' to '$99', by its number: at its first place it is bound, and later places want an equal term
    Variable(u8),
    // an integer, another atom, the empty list or a binary: it fits an equal term
    Equal(Constant),
    Tuple(Vec<Pattern>),
    // the heads of list cells, at least one, and what stands behind the last cell
    List(Vec<Pattern>, Box<Pattern>),
}

impl Model for Pattern {
    ghost use Rattle.ca_term.specs.Tree.{Tree, nodes};
    ghost use Rattle.ca_term.specs.Stored.{tree_stored};

    ghost Value = { Tree };

    ghost coded = { tree_stored };

    ghost use Rattle.ca_spec.specs.PatternView.{tree_of_shape, IsKept};

    ghost view = { λ pattern. tree_of_shape pattern.shape };

    ghost invariant = { IsKept };

    ghost size = { nodes };

    ghost use Rattle.ca_spec.specs.PatternFalls.{deep_le-nodes};

    ghost size_decreases = { λ pattern kept. deep_le-nodes pattern.shape kept };
}
