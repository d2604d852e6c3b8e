//! The operators of match specifications' guards, by their names.
ghost use Rattle.std.specs.Prelude.{◌≡◌, ◌≢◌, [], ◌∷◌, None, Some, ◌&&◌, ◌||◌, IfOk, IfSome};
ghost use Rattle.std.specs.Option.{option_map};
ghost use Rattle.ca_match.specs.declared.operator.Operator.TheVariants.{Element, Hd, Tl};
ghost use Rattle.ca_match.specs.Operators.{applied, count_of, element, exclusive, operator_of, truth};
ghost use Rattle.ca_match.specs.OperatorView.{meaning_of, name_of, named_in, stop_of};
ghost use Rattle.ca_match.specs.ValueView.{tree_of_value};
ghost use Rattle.ca_term.specs.Tree.{Integer};

use crate::number::{
    bits_of_both, bits_of_either, bits_of_one, magnitude, minus, other_bits, plus, quotient,
    remainder, times,
};
use crate::part::{
    Part, byte_size, is_atom, is_binary, is_integer, is_list, is_tuple, list_length, part_of_value,
    size, tuple_size,
};
use crate::value::{Value, value_order};
use std::alloc::{AllocError, Global};

/// An operator of a guard, by its name in the Erlang reference manual, "Expressions", or of the module erlang.
#[derive(Clone, Copy)]
pub enum Operator {
    IsAtom,
    IsInteger,
    IsNumber,
    IsTuple,
    IsList,
    IsBinary,
    Not,
    And,
    Or,
    Xor,
    AndAlso,
    OrElse,
    Greater,
    GreaterOrEqual,
    Less,
    LessOrEqual,
    Equal,
    ExactlyEqual,
    Unequal,
    ExactlyUnequal,
    Plus,
    Minus,
    Times,
    Div,
    Rem,
    Abs,
    Band,
    Bor,
    Bxor,
    Bnot,
    Element,
    Hd,
    Tl,
    Length,
    Size,
    TupleSize,
    ByteSize,
}

// The 37 operators in the order of the definition's table: name, number of arguments, variant, and how the value comes.
macro_rules! operators {
    ($arms:ident $($of:tt)*) => {
        $arms! {
            $($of)*;
            "is_atom" 1 IsAtom (test is_atom),
            "is_integer" 1 IsInteger (test is_integer),
            "is_number" 1 IsNumber (test is_integer),
            "is_tuple" 1 IsTuple (test is_tuple),
            "is_list" 1 IsList (test is_list),
            "is_binary" 1 IsBinary (test is_binary),
            "not" 1 Not (negation),
            "and" 2 And (connective and),
            "or" 2 Or (connective or),
            "xor" 2 Xor (connective xor),
            "andalso" 2 AndAlso (short false),
            "orelse" 2 OrElse (short true),
            ">" 2 Greater (order is_gt),
            ">=" 2 GreaterOrEqual (order is_ge),
            "<" 2 Less (order is_lt),
            "=<" 2 LessOrEqual (order is_le),
            "==" 2 Equal (order is_eq),
            "=:=" 2 ExactlyEqual (order is_eq),
            "/=" 2 Unequal (order is_ne),
            "=/=" 2 ExactlyUnequal (order is_ne),
            "+" 2 Plus (number plus),
            "-" 2 Minus (number minus),
            "*" 2 Times (number times),
            "div" 2 Div (number quotient),
            "rem" 2 Rem (number remainder),
            "abs" 1 Abs (number magnitude),
            "band" 2 Band (bits bits_of_both),
            "bor" 2 Bor (bits bits_of_either),
            "bxor" 2 Bxor (bits bits_of_one),
            "bnot" 1 Bnot (bits other_bits),
            "element" 2 Element (element),
            "hd" 1 Hd (part Head),
            "tl" 1 Tl (part Tail),
            "length" 1 Length (size list_length),
            "size" 1 Size (size size),
            "tuple_size" 1 TupleSize (size tuple_size),
            "byte_size" 1 ByteSize (size byte_size),
        }
    };
}

macro_rules! listed {
    (; $($name:literal $count:tt $variant:ident $value:tt,)*) => {
        [$(Operator::$variant),*]
    };
}

macro_rules! names {
    ($operator:ident; $($name:literal $count:tt $variant:ident $value:tt,)*) => {
        match $operator {
            $(Operator::$variant => $name,)*
        }
    };
}

macro_rules! counts {
    ($operator:ident; $($name:literal $count:tt $variant:ident $value:tt,)*) => {
        match $operator {
            $(Operator::$variant => $count,)*
        }
    };
}

// The values of operators of one argument that take no part of it.
macro_rules! values_of_one {
    ($operator:ident $a:ident; $($name:literal $count:tt $variant:ident $value:tt,)*) => {
        match $operator {
            $(Operator::$variant => value_of_one!($count $value $a),)*
        }
    };
}

macro_rules! value_of_one {
    (1 (test $test:ident) $a:ident) => {
        Some(Value::Truth($test($a)))
    };
    (1 (negation) $a:ident) => {
        match $a.truth() {
            Some(truth) => Some(Value::Truth(!truth)),
            None => None,
        }
    };
    (1 (number $number:ident) $a:ident) => {
        match $a.integer() {
            Some(n) => integer_value($number(n)),
            None => None,
        }
    };
    (1 (bits $bits:ident) $a:ident) => {
        match $a.integer() {
            Some(n) => Some(Value::Integer($bits(n))),
            None => None,
        }
    };
    (1 (part $part:ident) $a:ident) => {
        unreachable!()
    };
    (1 (size $size:ident) $a:ident) => {
        integer_value($size($a))
    };
    (2 $value:tt $a:ident) => {
        None
    };
}

// The values of operators of two arguments that are both evaluated, and of which no part is taken.
macro_rules! values_of_two {
    ($operator:ident $a:ident $b:ident; $($name:literal $count:tt $variant:ident $value:tt,)*) => {
        match $operator {
            $(Operator::$variant => value_of_two!($count $value $a $b),)*
        }
    };
}

macro_rules! value_of_two {
    (2 (connective $connective:ident) $a:ident $b:ident) => {
        match $a.truth() {
            Some(p) => match $b.truth() {
                Some(q) => Some(Value::Truth($connective(p, q))),
                None => None,
            },
            None => None,
        }
    };
    (2 (order $holds:ident) $a:ident $b:ident) => {
        Some(Value::Truth(value_order($a, $b).$holds()))
    };
    (2 (number $number:ident) $a:ident $b:ident) => {
        match $a.integer() {
            Some(m) => match $b.integer() {
                Some(n) => integer_value($number(m, n)),
                None => None,
            },
            None => None,
        }
    };
    (2 (bits $bits:ident) $a:ident $b:ident) => {
        match $a.integer() {
            Some(m) => match $b.integer() {
                Some(n) => Some(Value::Integer($bits(m, n))),
                None => None,
            },
            None => None,
        }
    };
    (2 (element) $a:ident $b:ident) => {
        unreachable!()
    };
    (2 (short $stop:literal) $a:ident $b:ident) => {
        unreachable!()
    };
    (1 $value:tt $a:ident $b:ident) => {
        None
    };
}

macro_rules! stops {
    ($operator:ident; $($name:literal $count:tt $variant:ident $value:tt,)*) => {
        match $operator {
            $(Operator::$variant => stop!($value),)*
        }
    };
}

macro_rules! stop {
    ((short $stop:literal)) => { Some($stop) };
    ($value:tt) => { None };
}

// In the order of the definition's table.
const OPERATORS: [Operator; 37] = operators!(listed);

impl Operator {
    /// The operator of this name.
    #[tactic(auto, using(crate::proofs::OperatorRows::table_is))]
    pub fn of(name: &str) -> Option<Operator>
        ensures value { option_map meaning_of result ≡ operator_of name.now }
        ensures named { IfSome result (λ operator. name_of operator ≡ name.now) }
    {
        first_named(&OPERATORS, name)
    }

    /// The operator's name.
    pub fn name(self) -> &'static str
        ensures { result.now ≡ name_of self }
    {
        let operator = self;
        operators!(names operator)
    }

    /// How many arguments it has.
    pub fn count(self) -> usize
        ensures { result ≡ count_of (meaning_of self) }
    {
        let operator = self;
        operators!(counts operator)
    }

    /// Of `andalso` and `orelse`: the truth value of the first argument at which the second one is not evaluated.
    pub fn stop(self) -> Option<bool>
        ensures { result ≡ stop_of (meaning_of self) }
    {
        let operator = self;
        operators!(stops operator)
    }

    /// The value at the value of one argument, where it is defined. Memory is taken only for a part of a value that is owned.
    pub fn value_of_one<'a>(
        self,
        alloc: Global,
        a: Value<'a>,
    ) -> Result<Option<Value<'a>>, AllocError>
        ensures { IfOk result (λ v. option_map tree_of_value v ≡ applied (meaning_of self) (Some (tree_of_value a.entry) ∷ [])) }
    {
        match self {
            Operator::Hd => part_of_value(alloc, Part::Head, a),
            Operator::Tl => part_of_value(alloc, Part::Tail, a),
            _ => Ok(self.value_of_whole(&a)),
        }
    }

    // Apart from the parts: what owns no value is proved sooner, for so many operators.
    fn value_of_whole<'a>(self, a: &Value<'_>) -> Option<Value<'a>>
        requires no_head { self ≢ Hd }
        requires no_tail { self ≢ Tl }
        ensures { option_map tree_of_value result ≡ applied (meaning_of self) (Some (tree_of_value a.now) ∷ []) }
    {
        let operator = self;
        operators!(values_of_one operator a)
    }

    /// The value at the values of two arguments, where it is defined. Memory is taken only for a part of a value that is owned.
    pub fn value_of_two<'a>(
        self,
        alloc: Global,
        a: Value<'a>,
        b: Value<'a>,
    ) -> Result<Option<Value<'a>>, AllocError>
        requires { stop_of (meaning_of self) ≡ None }
        ensures { IfOk result (λ v. option_map tree_of_value v ≡ applied (meaning_of self) (Some (tree_of_value a.entry) ∷ Some (tree_of_value b.entry) ∷ [])) }
    {
        // Comparisons are frequent, and apart from the others they need little room on the stack, which is cleared at each call.
        if let Some(holds) = self.compared(&a, &b) {
            return Ok(Some(Value::Truth(holds)));
        }
        match self {
            Operator::Element => element_value(alloc, &a, b),
            _ => Ok(self.combined(&a, &b)),
        }
    }

    // Whether a comparison holds, or None for other operators.
    fn compared(self, a: &Value<'_>, b: &Value<'_>) -> Option<bool>
        ensures { IfSome result (λ holds. Some (truth holds) ≡ applied (meaning_of self) (Some (tree_of_value a.now) ∷ Some (tree_of_value b.now) ∷ [])) }
    {
        match self {
            Operator::Greater => Some(value_order(a, b).is_gt()),
            Operator::GreaterOrEqual => Some(value_order(a, b).is_ge()),
            Operator::Less => Some(value_order(a, b).is_lt()),
            Operator::LessOrEqual => Some(value_order(a, b).is_le()),
            Operator::Equal => Some(value_order(a, b).is_eq()),
            Operator::ExactlyEqual => Some(value_order(a, b).is_eq()),
            Operator::Unequal => Some(value_order(a, b).is_ne()),
            Operator::ExactlyUnequal => Some(value_order(a, b).is_ne()),
            _ => None,
        }
    }

    fn combined<'a>(self, a: &Value<'_>, b: &Value<'_>) -> Option<Value<'a>>
        requires no_stop { stop_of (meaning_of self) ≡ None }
        requires no_element { self ≢ Element }
        ensures { option_map tree_of_value result ≡ applied (meaning_of self) (Some (tree_of_value a.now) ∷ Some (tree_of_value b.now) ∷ []) }
    {
        let operator = self;
        operators!(values_of_two operator a b)
    }
}

// The element of the second value whose place is the first one.
#[tactic(auto, using(crate::proofs::Pieces::element_of, crate::proofs::Pieces::no_element))]
fn element_value<'a>(
    alloc: Global,
    place: &Value<'_>,
    tuple: Value<'a>,
) -> Result<Option<Value<'a>>, AllocError>
    ensures { IfOk result (λ v. option_map tree_of_value v ≡ element (tree_of_value place.now) (tree_of_value tuple.entry)) }
{
    match place.integer() {
        Some(n) => part_of_value(alloc, Part::Element(n), tuple),
        None => Ok(None),
    }
}

// The first one of these with this name.
#[tactic(auto, using(crate::proofs::OperatorRows::row_found, crate::proofs::OperatorRows::row_passed))]
fn first_named(operators: &[Operator], name: &str) -> Option<Operator>
    ensures value { option_map meaning_of result ≡ named_in operators.now name.now }
    ensures named { IfSome result (λ operator. name_of operator ≡ name.now) }
{
    for operator in operators {
        if name == operator.name() {
            return Some(*operator);
        }
    }
    None
}

fn integer_value<'a>(n: Option<i64>) -> Option<Value<'a>>
    ensures { option_map tree_of_value result ≡ option_map Integer n }
{
    match n {
        Some(n) => Some(Value::Integer(n)),
        None => None,
    }
}

fn and(p: bool, q: bool) -> bool
    ensures { result ≡ (p && q) }
{
    p && q
}

fn or(p: bool, q: bool) -> bool
    ensures { result ≡ (p || q) }
{
    p || q
}

fn xor(p: bool, q: bool) -> bool
    ensures { result ≡ exclusive p q }
{
    p != q
}
