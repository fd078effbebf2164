ghost use Rattle.std.specs.Prelude.{◌≡◌, ◌≤◌, length, IfSome, MatchResult};
ghost use Rattle.dot_text.specs.Blanks.{SkipsTo, SkipFails};
ghost use Rattle.dot_text.specs.Skip.{BeginsAs, block_len_of};

use crate::lexical::{begins_line, is_blank, line_len};

/// What bytes begin with, as far as blanks and comments go.
enum Skip {
    /// A blank or a comment of so many bytes.
    Bytes(usize),
    /// A comment that is not closed.
    Unclosed,
    /// Neither.
    Nothing,
}

/// The place of the first byte from `from` on that is in no blank and no comment, or the length where there is none.
/// `Err(place)` comes exactly where before such a byte a comment begins at this place and is not closed.
pub fn skip_blank(bytes: &[u8], from: usize) -> Result<usize, usize>
    requires { from ≤ length bytes.now }
    ensures { MatchResult result (λ to. SkipsTo bytes.now from to) (λ place. SkipFails bytes.now from place) }
{
    let mut place = from;
    loop {
        match skip_of(&bytes[place..], begins_line(bytes, place)) {
            Skip::Bytes(count) => place += count,
            Skip::Unclosed => return Err(place),
            Skip::Nothing => return Ok(place),
        }
    }
}

/// What the bytes begin with, where `line` says that a line begins at them.
fn skip_of(bytes: &[u8], line: bool) -> Skip
    ensures { BeginsAs line bytes.now result }
{
    match bytes.first() {
        Some(byte) if is_blank(*byte) => Skip::Bytes(1),
        Some(b'#') if line => Skip::Bytes(line_len(bytes)),
        Some(b'/') if bytes.starts_with(b"//") => Skip::Bytes(line_len(bytes)),
        Some(b'/') if bytes.starts_with(b"/*") => match block_len(&bytes[2..]) {
            Some(count) => Skip::Bytes(2 + count),
            None => Skip::Unclosed,
        },
        _ => Skip::Nothing,
    }
}

/// How many bytes there are up to the first `*/` and with it, if there is one.
fn block_len(bytes: &[u8]) -> Option<usize>
    ensures len { result ≡ block_len_of bytes.now }
    ensures within { IfSome result (λ len. len ≤ length bytes.now) }
{
    let mut star = false;
    for (index, byte) in bytes.iter().enumerate() {
        if star && *byte == b'/' {
            return Some(index + 1);
        }
        star = *byte == b'*';
    }
    None
}
