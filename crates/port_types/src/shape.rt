ghost use Rattle.std.specs.Prelude.{◌≡◌, ◌↔◌, IsTrue, IsSome, IfSome, nat_eq};
ghost use Rattle.std.specs.Cmp.{partial_equiv_from_equiv};
ghost use Rattle.std.specs.Cmp.Lexicographic.{pointwise, nat_list_eq_equiv};
ghost use Rattle.port_types.specs.Shape.{IsShape};

use op_table::MAX_WIDTH;
use std::marker::Model;

/// The greatest number of fields of a shape.
pub const MAX_FIELDS: usize = 128;

/// A shape: the widths of its fields in bits, 1 to 128 of them, each from 0 to 64. Contracts see the list of widths.
#[derive(Clone, Debug, Drop)]
pub struct Shape {
    widths: Vec<u8>,
}

impl Model for Shape {
    ghost use Rattle.std.specs.Prelude.{List, ℕ};
    ghost use Rattle.port_types.specs.Shape.{IsShape};

    ghost Value = { List ℕ };

    ghost view = { λ s. s.widths.items };

    ghost invariant = { λ s. IsShape s.widths.items };
}

impl PartialEq for Shape {
    ghost eq = { pointwise nat_eq };

    ghost laws = { partial_equiv_from_equiv nat_list_eq_equiv };

    fn eq(&self, other: &Shape) -> bool {
        self.widths == other.widths
    }
}

impl Eq for Shape {
    ghost laws = { nat_list_eq_equiv };
}

/// Whether there are 1 to 128 widths, each from 0 to 64.
pub fn is_shape(widths: &[u8]) -> bool
    ensures { IsTrue result ↔ IsShape widths.now }
{
    !widths.is_empty()
        && widths.len() <= MAX_FIELDS
        && widths.iter().all(|width| *width <= MAX_WIDTH)
}

impl Shape {
    /// The shape with these widths, or `None` exactly where they are no shape's. Takes no memory.
    pub fn new(widths: Vec<u8>) -> Option<Shape>
        ensures shape { IsSome result ↔ IsShape widths.items }
        ensures widths { IfSome result (λ shape. shape ≡ widths.items) }
    {
        if is_shape(&widths) {
            Some(Shape { widths })
        } else {
            None
        }
    }

    /// The widths in order.
    pub fn widths(&self) -> &[u8]
        ensures same { result.now ≡ self.now }
        ensures shape { IsShape result.now }
    {
        self.widths.as_slice()
    }
}

/// Whether two shapes have the same widths.
pub fn same_shape(a: &Shape, b: &Shape) -> bool
    ensures { IsTrue result ↔ (a.now ≡ b.now) }
{
    a == b
}
