ghost use Rattle.std.specs.Prelude.{◌≡◌, Some};
ghost use Rattle.lines.specs.Words.{natural64, integer64};
ghost use Rattle.lines.specs.Lines.{words_of};
ghost use Rattle.replaying.specs.Entries.{is_note, bare, one_of, with_one, pair_of, with_two, with_three, entry_in, entry_of};
ghost use Rattle.replaying.specs.Texts.{RequestIsText, LoadIsText};

use super::request::{Entry, Request};
use lines::{cut, integer, natural};

fn is_note(line: &[u8]) -> bool
    ensures { result ≡ is_note line.now }
{
    matches!(line, [] | [b'#', ..])
}

// A line of one word.
fn bare_request(verb: &[u8]) -> Option<Request>
    ensures { result ≡ bare verb.now }
{
    match verb {
        b"open" => Some(Request::Open),
        b"retry" => Some(Request::Retry),
        b"last" => Some(Request::Last),
        b"hole" => Some(Request::Hole),
        b"void" => Some(Request::Void),
        b"usage" => Some(Request::Usage),
        _ => None,
    }
}

// A name and one natural number.
fn request_of_one(verb: &[u8], n: u64) -> Option<Request>
    ensures { result ≡ one_of verb.now n }
{
    match verb {
        b"var" => Some(Request::Var { d: n }),
        b"look" => Some(Request::Look { s: n }),
        b"cut" => Some(Request::Cut { k: n }),
        b"put" => Some(Request::Put { s: n }),
        b"done" => Some(Request::Done { d: n }),
        _ => None,
    }
}

// A name and one number: a request, or the lines of an image.
fn entry_of_one(verb: &[u8], a: &[u8]) -> Option<Entry>
    ensures { result ≡ with_one verb.now (natural64 a.now) }
{
    let n = natural(a)?;
    match verb {
        b"load" => Some(Entry::Load { lines: n }),
        _ => request_of_one(verb, n).map(Entry::Request),
    }
}

// A name and two natural numbers.
fn request_of_pair(verb: &[u8], m: u64, n: u64) -> Option<Request>
    ensures { result ≡ pair_of verb.now m n }
{
    match verb {
        b"atom" => Some(Request::Atom { d: m, n }),
        b"move" => Some(Request::Move { d: m, s: n }),
        b"same" => Some(Request::Same { s: m, t: n }),
        b"unify" => Some(Request::Unify { s: m, t: n }),
        b"start" => Some(Request::Start { name: m, arity: n }),
        _ => None,
    }
}

// A name and two numbers.
fn request_of_two(verb: &[u8], a: &[u8], b: &[u8]) -> Option<Request>
    ensures { result ≡ with_two verb.now (natural64 a.now) (natural64 b.now) (integer64 b.now) }
{
    let m = natural(a)?;
    match verb {
        b"int" => Some(Request::Int {
            d: m,
            z: integer(b)?,
        }),
        _ => request_of_pair(verb, m, natural(b)?),
    }
}

// A name and three numbers.
fn request_of_three(verb: &[u8], a: &[u8], b: &[u8], c: &[u8]) -> Option<Request>
    ensures { result ≡ with_three verb.now (natural64 a.now) (natural64 b.now) (natural64 c.now) }
{
    let (d, s, i) = (natural(a)?, natural(b)?, natural(c)?);
    match verb {
        b"arg" => Some(Request::Arg { d, s, i }),
        _ => None,
    }
}

// What the words of a line say.
fn entry_in(line: &[u8]) -> Option<Entry>
    ensures { result ≡ entry_in (words_of line.now) }
{
    let Some((verb, rest)) = cut(line, b' ') else {
        return bare_request(line).map(Entry::Request);
    };
    let Some((a, rest)) = cut(rest, b' ') else {
        return entry_of_one(verb, rest);
    };
    let Some((b, rest)) = cut(rest, b' ') else {
        return request_of_two(verb, a, rest).map(Entry::Request);
    };
    match cut(rest, b' ') {
        None => request_of_three(verb, a, b, rest).map(Entry::Request),
        Some(_) => None,
    }
}

// What a line, without its byte 10, asks for, or none where it is no call. It is a request exactly where it is that
// request's text. No TryFrom: an error would have nothing to say.
pub fn parse(line: &[u8]) -> Option<Entry>
    ensures entry { result ≡ entry_of line.now }
    ensures text { RequestIsText }
    ensures load { LoadIsText }
{
    if is_note(line) {
        Some(Entry::Note)
    } else {
        entry_in(line)
    }
}
