ghost use Rattle.std.specs.Prelude.{◌≡◌, ◌^◌, ◌<◌, ◌≤◌, ◌↔◌, IsTrue, nat_eq};
ghost use Rattle.std.specs.Cmp.{partial_equiv_from_equiv};
ghost use Rattle.std.specs.Cmp.Lexicographic.{pointwise, nat_list_eq_equiv};
ghost use Rattle.port_types.specs.Shape.{IsShape};
ghost use Rattle.port_types.specs.Token.{Fits};

use crate::shape::Shape;
use std::marker::Model;

/// A token: a list of numbers. Contracts see the list.
#[derive(Clone, Debug, Drop)]
pub struct Token {
    fields: Vec<u64>,
}

impl Model for Token {
    ghost use Rattle.std.specs.Prelude.{List, ℕ};

    ghost Value = { List ℕ };

    ghost view = { λ t. t.fields.items };
}

impl PartialEq for Token {
    ghost eq = { pointwise nat_eq };

    ghost laws = { partial_equiv_from_equiv nat_list_eq_equiv };

    fn eq(&self, other: &Token) -> bool {
        self.fields == other.fields
    }
}

impl Eq for Token {
    ghost laws = { nat_list_eq_equiv };
}

impl Token {
    /// The token with these fields. Takes no memory.
    pub fn new(fields: Vec<u64>) -> Token
        ensures { result ≡ fields.items }
    {
        Token { fields }
    }

    /// The fields in order.
    pub fn fields(&self) -> &[u64]
        ensures { result.now ≡ self.now }
    {
        self.fields.as_slice()
    }
}

/// Whether the token has as many numbers as the shape has widths, each below 2 to the power of its width.
pub fn fits(shape: &Shape, token: &Token) -> bool
    ensures { IsTrue result ↔ Fits shape.now token.now }
{
    fields_fit(shape.widths(), token.fields())
}

fn fields_fit(widths: &[u8], numbers: &[u64]) -> bool
    requires { IsShape widths.now }
    ensures { IsTrue result ↔ Fits widths.now numbers.now }
{
    widths.len() == numbers.len()
        && widths
            .iter()
            .zip(numbers)
            .all(|(width, number)| field_fits(*width, *number))
}

/// Whether the number is below 2 to the power of the width.
#[tactic(auto, using(crate::proofs::Widths::shifted_out))]
fn field_fits(width: u8, number: u64) -> bool
    requires { width ≤ 64 }
    ensures { IsTrue result ↔ (number < 2 ^ width) }
{
    width == 64 || number >> width == 0
}
