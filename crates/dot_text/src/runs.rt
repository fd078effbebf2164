//! Runs of bytes that leave the machine within the same item.
#![tactic(auto, using(crate::proofs::Prefixes::prefix_within, crate::proofs::Prefixes::prefix_never))]

ghost use Rattle.std.specs.Prelude.{◌≡◌, ◌+◌, ◌≤◌, ℕ, List, ◌++◌, true, false, IfOk, length, drop, slice_range};
ghost use Rattle.std.specs.List.{prefix_len};
ghost use Rattle.dot_text.specs.Lexical.{is_in_name, is_by_numeral, is_plain};
ghost use Rattle.dot_text.specs.Scans.{Keeps, mode_of};
ghost use Rattle.dot_text.specs.Runs.{is_no_star, stays, stayed};

use crate::lexical::{is_by_numeral, is_in_name, line_len};
use crate::scan::Mode;
use port_types::NoMemory;

/// How many bytes from the first on may stand in a name.
fn name_len(bytes: &[u8]) -> usize
    ensures { result ≡ prefix_len is_in_name bytes.now }
{
    bytes.iter().take_while(|byte| is_in_name(**byte)).count()
}

/// How many bytes from the first on may not follow a numeral at once.
fn numeral_len(bytes: &[u8]) -> usize
    ensures { result ≡ prefix_len is_by_numeral bytes.now }
{
    bytes
        .iter()
        .take_while(|byte| is_by_numeral(**byte))
        .count()
}

/// How many bytes stand before the first `*`, or how many there are.
fn starless_len(bytes: &[u8]) -> usize
    ensures { result ≡ prefix_len is_no_star bytes.now }
{
    bytes.iter().take_while(|byte| **byte != b'*').count()
}

/// How many bytes stand before the first double quote or backslash, or how many there are.
fn plain_len(bytes: &[u8]) -> usize
    ensures { result ≡ prefix_len is_plain bytes.now }
{
    bytes
        .iter()
        .take_while(|byte| !(**byte == b'"' || **byte == b'\\'))
        .count()
}

/// Within quotes: the value with the bytes up to the next double quote or backslash, and their end.
fn run_in_quotes(mut value: Vec<u8>, bytes: &[u8], at: usize) -> Result<(Vec<u8>, usize), NoMemory>
    requires { at ≤ length bytes.now }
    ensures to { IfOk result (λ run. run.1 ≡ at + prefix_len is_plain (drop at bytes.now)) }
    ensures within { IfOk result (λ run. run.1 ≤ length bytes.now) }
    ensures value { IfOk result (λ run. run.0.items ≡ value.items ++ slice_range bytes.now at run.1) }
{
    let to = at + plain_len(&bytes[at..]);
    value.extend_from_slice(&bytes[at..to])?;
    Ok((value, to))
}

/// Takes the bytes from `at` on that leave the mode as it is, those of a quoted text into its value. Gives the mode and their end.
pub(crate) fn run_on(mode: Mode, bytes: &[u8], at: usize) -> Result<(Mode, usize), NoMemory>
    requires { at ≤ length bytes.now }
    ensures to { IfOk result (λ run. run.1 ≡ at + prefix_len (stays (mode_of mode)) (drop at bytes.now)) }
    ensures within { IfOk result (λ run. run.1 ≤ length bytes.now) }
    ensures mode { IfOk result (λ run. mode_of run.0 ≡ stayed (mode_of mode) (slice_range bytes.now at run.1)) }
    ensures keeps { (text : List ℕ) → Keeps text mode → IfOk result (λ run. Keeps (text ++ slice_range bytes.now at run.1) run.0) }
{
    match mode {
        Mode::InName => Ok((Mode::InName, at + name_len(&bytes[at..]))),
        Mode::InNumber => Ok((Mode::InNumber, at + numeral_len(&bytes[at..]))),
        Mode::InLine => Ok((Mode::InLine, at + line_len(&bytes[at..]))),
        Mode::InBlock(false) => Ok((Mode::InBlock(false), at + starless_len(&bytes[at..]))),
        Mode::InQuotes(false, value) => {
            let (value, to) = run_in_quotes(value, bytes, at)?;
            Ok((Mode::InQuotes(false, value), to))
        }
        Mode::InBlock(true) => Ok((Mode::InBlock(true), at)),
        Mode::InQuotes(true, value) => Ok((Mode::InQuotes(true, value), at)),
        Mode::Minus => Ok((Mode::Minus, at)),
        Mode::Slash => Ok((Mode::Slash, at)),
    }
}
