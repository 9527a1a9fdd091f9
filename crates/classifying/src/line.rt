ghost use Rattle.std.specs.Prelude.{◌≡◌, Some, None};
ghost use Rattle.classifying.specs.Lines.{number, spaced, echo_in};

use super::echo::Echo;

// The largest number of a line.
const MOST: u32 = 9999;

// The number that the text begins with, and the text after it.
fn number(text: &[u8]) -> Option<(u32, &[u8])>
    ensures { elim result [
      | Some p ↦ number text.now ≡ Some (p.0, p.1.now)
      | None ↦ number text.now ≡ None
    ] }
{
    let [b'0'..=b'9', ..] = text else {
        return None;
    };
    // digit by digit, as its definition goes; `position`, `from_utf8` and `parse` would each go through the digits again
    let (mut n, mut rest) = (0, text);
    while let [digit @ b'0'..=b'9', after @ ..] = rest {
        n = 10 * n + (*digit - b'0') as u32;
        if n > MOST {
            return None;
        }
        rest = after;
    }
    Some((n, rest))
}

// The number that the text begins with, and the text after the space that follows it.
fn spaced(text: &[u8]) -> Option<(u32, &[u8])>
    ensures { elim result [
      | Some p ↦ spaced text.now ≡ Some (p.0, p.1.now)
      | None ↦ spaced text.now ≡ None
    ] }
{
    let (n, rest) = number(text)?;
    Some((n, rest.strip_prefix(b" ")?))
}

// The echo that a line lists: offset, depth and amplitude with single spaces between them.
// No TryFrom: an error would have nothing to say.
pub fn echo_in(line: &[u8]) -> Option<Echo>
    ensures { result ≡ echo_in line.now }
{
    let (offset, rest) = spaced(line)?;
    let (depth, rest) = spaced(rest)?;
    let (amplitude, rest) = number(rest)?;
    if !rest.is_empty() || depth > 100 {
        return None;
    }
    Some(Echo {
        offset,
        depth,
        amplitude,
    })
}
