//! Arithmetic of guards: of integers of 64 bits, where a value outside them fails. Source: the Erlang reference manual, "Arithmetic Expressions".
ghost use Rattle.std.specs.Prelude.{◌≡◌, ℤ, pos, ◌-ℤ◌, neg_ℤ, ◌+ℤ◌, ◌*ℤ◌, int_div, int_rem, unsigned_abs};
ghost use Rattle.std.specs.Int.{w64, int_bit_and, int_bit_or, int_bit_xor};
ghost use Rattle.std.specs.Option.{option_map};
ghost use Rattle.ca_term.specs.Tree.{Integer};
ghost use Rattle.ca_match.specs.Operators.{on_divisor, word};

#[tactic(auto, using(crate::proofs::Words::word_where_fits))]
pub(crate) fn plus(m: i64, n: i64) -> Option<i64>
    ensures { option_map Integer result ≡ word (m +ℤ n) }
{
    m.checked_add(n)
}

#[tactic(auto, using(crate::proofs::Words::word_where_fits))]
pub(crate) fn minus(m: i64, n: i64) -> Option<i64>
    ensures { option_map Integer result ≡ word (m -ℤ n) }
{
    m.checked_sub(n)
}

#[tactic(auto, using(crate::proofs::Words::word_where_fits))]
pub(crate) fn times(m: i64, n: i64) -> Option<i64>
    ensures { option_map Integer result ≡ word (m *ℤ n) }
{
    m.checked_mul(n)
}

// Rounded toward 0.
#[tactic(auto, using(crate::proofs::Words::quotient_where_fits))]
pub(crate) fn quotient(m: i64, n: i64) -> Option<i64>
    ensures { option_map Integer result ≡ on_divisor int_div m n }
{
    m.checked_div(n)
}

// With the sign of `m`. By -1 it is 0, also where the quotient is outside 64 bits.
#[tactic(auto, using(crate::proofs::Words::remainder_where_fits, crate::proofs::Words::remainder_of_one))]
pub(crate) fn remainder(m: i64, n: i64) -> Option<i64>
    ensures { option_map Integer result ≡ on_divisor int_rem m n }
{
    if n == -1 {
        return Some(0);
    }
    m.checked_rem(n)
}

#[tactic(auto, using(crate::proofs::Words::size_where_fits))]
pub(crate) fn magnitude(n: i64) -> Option<i64>
    ensures { option_map Integer result ≡ word (pos (unsigned_abs n)) }
{
    n.checked_abs()
}

#[tactic(auto, using(crate::proofs::Words::word_of_word))]
pub(crate) fn bits_of_both(m: i64, n: i64) -> i64
    ensures { word (int_bit_and w64 m n) ≡ Some (Integer result) }
{
    m & n
}

#[tactic(auto, using(crate::proofs::Words::word_of_word))]
pub(crate) fn bits_of_either(m: i64, n: i64) -> i64
    ensures { word (int_bit_or w64 m n) ≡ Some (Integer result) }
{
    m | n
}

#[tactic(auto, using(crate::proofs::Words::word_of_word))]
pub(crate) fn bits_of_one(m: i64, n: i64) -> i64
    ensures { word (int_bit_xor w64 m n) ≡ Some (Integer result) }
{
    m ^ n
}

#[tactic(auto, using(crate::proofs::Words::word_of_word))]
pub(crate) fn other_bits(n: i64) -> i64
    ensures { word (neg_ℤ n -ℤ pos 1) ≡ Some (Integer result) }
{
    -1 - n
}
