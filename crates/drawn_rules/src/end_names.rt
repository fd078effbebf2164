//! Names for the Entry and the Exit of a rule, which none of its listed nodes has.
ghost use Rattle.std.specs.Prelude.{◌≡◌, ◌<◌, ◌^◌, ◌++◌, ◌∷◌, [], length, OnOk, IfOk, string_bytes};
ghost use Rattle.drawn_rules.specs.EndNames.{entry_name, exit_name, letters_from, other_letter};

use port_types::{NoMemory, Text};
use std::alloc::Global;

/// The name of the Entry. The only error is want of memory.
pub fn entry_name(alloc: Global, names: &[Text]) -> Result<Text, NoMemory>
    ensures { IfOk result (λ name. name ≡ entry_name names.now) }
{
    with_letters(alloc, "e", names)
}

/// The name of the Exit. The only error is want of memory.
pub fn exit_name(alloc: Global, names: &[Text]) -> Result<Text, NoMemory>
    ensures { IfOk result (λ name. name ≡ exit_name names.now) }
{
    with_letters(alloc, "x", names)
}

/// The text with a letter for each of the names behind it.
fn with_letters(alloc: Global, front: &str, names: &[Text]) -> Result<Text, NoMemory>
    ensures { IfOk result (λ name. name ≡ front.now ++ letters_from 1 names.now) }
{
    let mut text = String::from_str(alloc, front)?;
    push_letters(&mut text, names)?;
    Ok(Text::from_string(text))
}

/// Appends a letter for each of the names.
fn push_letters(text: &mut String, names: &[Text]) -> Result<(), NoMemory>
    ensures { OnOk result (string_bytes text.new ≡ string_bytes text.old ++ letters_from 1 names.now) }
{
    for place in 0..names.len() {
        text.push_str(other_letter(names[place].bytes(), place + 1))?;
    }
    Ok(())
}

/// A letter that does not stand at this place of the name.
fn other_letter(name: &[u8], place: usize) -> &'static str
    ensures { result.now ≡ other_letter name.now place ∷ [] }
{
    match name.get(place) {
        Some(b'a') => "b",
        _ => "a",
    }
}
