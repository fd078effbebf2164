//! Lines in pieces, and how they are written.
ghost use Rattle.std.specs.Prelude.{◌≡◌, ℕ, ◌<◌, List, ◌++◌, drop, OnOk, OnErr};
ghost use Rattle.std.specs.Fmt.{decimal};
ghost use Rattle.gx_base.specs.Stream.{NeverFell, CountRose, Took};
ghost use Rattle.commands.specs.Status.{TookFront, bytes_of, piece_bytes};

use gx_base::{Failed, Sink, write_all};

/// The most pieces of a line.
pub(crate) const PIECES: usize = 8;

/// The most digits of a number.
const MAX_DIGITS: usize = 20;

/// A piece of a line.
#[derive(Clone, Copy)]
pub(crate) enum Piece {
    Text(&'static str),
    /// The name that the line tells.
    Name,
    /// A number, which is written in decimal.
    Number(usize),
}

/// A line of one text.
pub(crate) fn text_line(text: &'static str) -> [Piece; PIECES]
    ensures { (name : List ℕ) → bytes_of name result ≡ text.now }
{
    let end = Piece::Text("");
    let text = Piece::Text(text);
    [text, end, end, end, end, end, end, end]
}

/// A line of a number between two texts.
pub(crate) fn number_line(
    before: &'static str,
    number: usize,
    behind: &'static str,
) -> [Piece; PIECES]
    ensures { (name : List ℕ) → bytes_of name result ≡ before.now ++ decimal number ++ behind.now }
{
    let end = Piece::Text("");
    let before = Piece::Text(before);
    let behind = Piece::Text(behind);
    [
        before,
        Piece::Number(number),
        behind,
        end,
        end,
        end,
        end,
        end,
    ]
}

/// Writes the pieces one behind the other, with this name. After a write that fails nothing more is written.
pub(crate) fn write_pieces<E: Sink>(
    err: &mut E,
    pieces: &[Piece],
    name: &[u8],
) -> Result<(), Failed>
    ensures front { TookFront (bytes_of name.now pieces.now) (E.told err.old) (E.told err.new) }
    ensures whole { OnOk result (Took (bytes_of name.now pieces.now) (E.told err.old) (E.told err.new)) }
    ensures fault { OnErr result (CountRose (E.told err.old) (E.told err.new)) }
    ensures never_falls { NeverFell (E.told err.old) (E.told err.new) }
{
    for piece in pieces {
        write_piece(err, piece, name)?;
    }
    Ok(())
}

fn write_piece<E: Sink>(err: &mut E, piece: &Piece, name: &[u8]) -> Result<(), Failed>
    ensures front { TookFront (piece_bytes name.now piece.now) (E.told err.old) (E.told err.new) }
    ensures whole { OnOk result (Took (piece_bytes name.now piece.now) (E.told err.old) (E.told err.new)) }
    ensures fault { OnErr result (CountRose (E.told err.old) (E.told err.new)) }
    ensures never_falls { NeverFell (E.told err.old) (E.told err.new) }
{
    match piece {
        Piece::Text(text) => write_text(err, text.as_bytes()),
        Piece::Name => write_text(err, name),
        Piece::Number(number) => write_number(err, *number),
    }
}

fn write_number<E: Sink>(err: &mut E, number: usize) -> Result<(), Failed>
    ensures front { TookFront (decimal number) (E.told err.old) (E.told err.new) }
    ensures whole { OnOk result (Took (decimal number) (E.told err.old) (E.told err.new)) }
    ensures fault { OnErr result (CountRose (E.told err.old) (E.told err.new)) }
    ensures never_falls { NeverFell (E.told err.old) (E.told err.new) }
{
    let mut digits = [0; MAX_DIGITS];
    let first = put_digits(&mut digits, number);
    write_text(err, &digits[first..])
}

/// Puts the decimal digits of a number at the end of the array, and answers where they begin.
fn put_digits(digits: &mut [u8; MAX_DIGITS], number: usize) -> usize
    ensures within { result < 20 }
    ensures digits { drop result digits.new ≡ decimal number }
{
    let mut first = MAX_DIGITS - 1;
    let mut rest = number;
    while rest >= 10 {
        digits[first] = b'0' + (rest % 10) as u8;
        rest /= 10;
        first -= 1;
    }
    digits[first] = b'0' + rest as u8;
    first
}

fn write_text<E: Sink>(err: &mut E, text: &[u8]) -> Result<(), Failed>
    ensures front { TookFront text.now (E.told err.old) (E.told err.new) }
    ensures whole { OnOk result (Took text.now (E.told err.old) (E.told err.new)) }
    ensures fault { OnErr result (CountRose (E.told err.old) (E.told err.new)) }
    ensures never_falls { NeverFell (E.told err.old) (E.told err.new) }
{
    match write_all(err, text) {
        Ok(()) => Ok(()),
        Err(_) => Err(Failed),
    }
}
