//! The variables of match specifications.
ghost use Rattle.std.specs.Prelude.{◌≡◌, ◌<◌, IfSome};
ghost use Rattle.ca_match.specs.Spelling.{variable_name};
ghost use Rattle.ca_match.specs.Variable.{variable_of};

/// The number of a variable, `'$0'` to `'$99'` without leading zeros. Other texts are no variables.
/// Source: the ERTS user's guide, "Match Specifications in Erlang"; that variables end at `'$99'` is this project's own.
pub fn variable_number(text: &str) -> Option<u8>
    ensures value { result ≡ variable_of text.now }
    ensures below { IfSome result (λ number. number < 100) }
    ensures spelled { IfSome result (λ number. text.now ≡ variable_name number) }
{
    match text.as_bytes() {
        [b'$', d @ b'0'..=b'9'] => Some(*d - b'0'),
        [b'$', d @ b'1'..=b'9', e @ b'0'..=b'9'] => Some((*d - b'0') * 10 + (*e - b'0')),
        _ => None,
    }
}
