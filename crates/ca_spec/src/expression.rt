//! Expressions of guards and bodies, compiled.

use crate::constant::Constant;
use ca_match::Operator;
use std::marker::Model;

/// An expression. Contracts see it as the term that it was compiled from.
#[cycle(expression)]
#[derive(Drop)]
pub(crate) struct Expression {
    pub(crate) form: Form,
}

#[cycle(expression)]
#[derive(Drop)]
pub(crate) enum Form {
    // '$0' to '$99', by its number
    Variable(u8),
    // '$_'
    Whole,
    // '$$'
    AllBound,
    // an integer, another atom, the empty list or a binary: its own value
    Literal(Constant),
    // {const,T}
    Constant(Constant),
    // {{E1,..,En}}
    Tuple(Vec<Expression>),
    // the heads of list cells, at least one, and what stands behind the last cell
    List(Vec<Expression>, Box<Expression>),
    // {Op,E} with an operator of one argument, and {Op,E1,E2} with one of two
    One(Operator, Box<Expression>),
    Two(Operator, Box<Expression>, Box<Expression>),
}

impl Model for Expression {
    ghost use Rattle.ca_term.specs.Tree.{Tree, nodes};
    ghost use Rattle.ca_term.specs.Stored.{tree_stored};

    ghost Value = { Tree };

    ghost coded = { tree_stored };

    ghost use Rattle.ca_spec.specs.ExpressionView.{tree_of_form, IsKept};

    ghost view = { λ expression. tree_of_form expression.form };

    ghost invariant = { IsKept };

    ghost size = { nodes };

    ghost use Rattle.ca_spec.specs.ExpressionFalls.{deep_le-nodes};

    ghost size_decreases = { λ expression kept. deep_le-nodes expression.form kept };
}
