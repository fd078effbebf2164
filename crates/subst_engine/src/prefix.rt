//! Fronts for the names of new nodes.
ghost use Rattle.std.specs.Prelude.{◌≡◌, ◌≢◌, ◌+◌, ◌<◌, ◌==◌, ◌↔◌, ℕ, Some, true, not, MatchOption, length, position, slice_get};
ghost use Rattle.subst_engine.specs.Prefix.{IsFreshPrefix};
ghost use Rattle.subst_engine.specs.PrefixNumber.{HasNumber, IsFirstFree, number_at, number_in, number_before_bar};

use graph_core::Graph;
use port_types::{numerals_tell_numbers, read_numeral, text_behind};

/// How many numbers one walk over the names judges.
const WINDOW: usize = 1024;

/// The least number `k` such that no node has a name that begins with `ooo_k_`. Takes no memory.
pub fn fresh_prefix(g: &Graph) -> u64
    ensures { IsFreshPrefix g.now.graph result }
{
    g.is_graph();
    numerals_tell_numbers();
    let mut base = 0;
    while base < g.slots() as u64 {
        if let Some(place) = free_place(g, base) {
            return base + place as u64;
        }
        base += WINDOW as u64;
    }
    base
}

/// The first place from `base` on, within the window, whose number is in no name.
fn free_place(g: &Graph, base: u64) -> Option<usize>
    ensures { MatchOption result
        ((place : ℕ) → place < WINDOW → HasNumber g.now (base + place))
        (IsFirstFree g.now base) }
{
    let taken = taken_from(g, base);
    first_free(&taken)
}

/// The first place that is not marked.
fn first_free(taken: &[bool]) -> Option<usize>
    ensures { result ≡ position not taken.now }
{
    taken.iter().position(|is_taken| !*is_taken)
}

/// Which of the numbers from `base` on are taken.
fn taken_from(g: &Graph, base: u64) -> [bool; WINDOW]
    ensures size { length result ≡ WINDOW }
    ensures taken { (place : ℕ) → place < WINDOW → (slice_get result place ≡ Some true) ↔ HasNumber g.now (base + place) }
{
    g.is_graph();
    let mut taken = [false; WINDOW];
    for index in 0..g.slots() {
        if let Some(place) = place_of(g, index, base) {
            taken[place] = true;
        }
    }
    taken
}

/// The place from `base` on of the number in the name of the node with this index, where it has one within the window.
fn place_of(g: &Graph, index: usize, base: u64) -> Option<usize>
    ensures { MatchOption result
        ((place : ℕ) → place < WINDOW → number_at g.now index ≢ Some (base + place))
        (λ place. (place < WINDOW) × (number_at g.now index ≡ Some (base + place))) }
{
    let ahead = number_at(g, index)?.checked_sub(base)?;
    if ahead < WINDOW as u64 {
        Some(ahead as usize)
    } else {
        None
    }
}

/// The number in the name of the node with this index.
fn number_at(g: &Graph, index: usize) -> Option<u64>
    ensures { result ≡ number_at g.now index }
{
    let node = g.node(g.id_at(index)?)?;
    prefix_number(node.name.bytes())
}

/// The number `k` of a name that begins with `ooo_k_`.
fn prefix_number(name: &[u8]) -> Option<u64>
    ensures { result ≡ number_in name.now }
{
    number_before_bar(text_behind(b"ooo_", name)?)
}

/// The number that the bytes before the first `_` write.
fn number_before_bar(text: &[u8]) -> Option<u64>
    ensures { result ≡ number_before_bar text.now }
{
    let end = first_bar(text)?;
    read_numeral(&text[..end])
}

/// Where the first `_` stands.
fn first_bar(text: &[u8]) -> Option<usize>
    ensures { result ≡ position (λ byte. byte == 95) text.now }
{
    text.iter().position(|byte| *byte == b'_')
}
