//! Lines cut off.
ghost use Rattle.std.specs.Prelude.{◌≡◌, ◌<◌, ◌∷◌, length};
ghost use Rattle.ca_cmd.specs.File.{without_cr, lines_of};
ghost use Rattle.ca_cmd.specs.Kept.{IsEndOf};

use memchr::memchr;

// The line without a CR at its end.
fn without_cr(line: &[u8]) -> &[u8]
    ensures { result.now ≡ without_cr line.now }
{
    match line.strip_suffix(b"\r") {
        Some(front) => front,
        None => line,
    }
}

// The first line, and the bytes behind its end.
pub(crate) fn cut_line(bytes: &[u8]) -> (&[u8], &[u8])
    requires { 0 < length bytes.now }
    ensures line { lines_of bytes.now ≡ result.0.now ∷ lines_of result.1.now }
    ensures shorter { length result.1.now < length bytes.now }
    ensures behind { IsEndOf result.1.now bytes.now }
{
    match memchr(b'\n', bytes) {
        Some(end) => (without_cr(&bytes[..end]), &bytes[end + 1..]),
        None => (without_cr(bytes), &[]),
    }
}
