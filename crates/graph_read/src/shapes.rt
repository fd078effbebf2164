//! The shapes of ports, compared and copied.
ghost use Rattle.std.specs.Prelude.{◌≡◌, ◌≤◌, ◌^◌, nat_le, bytes_eq, MatchResult};
ghost use Rattle.std.specs.List.{concat};
ghost use Rattle.components.specs.Kind.{field};
ghost use Rattle.graph_read.specs.Rows.{all_are, are_fields};

use crate::fault::StatementFault;
use port_types::{Items, Shape};
use std::alloc::Global;

/// Whether two shapes have the same widths.
pub(crate) fn is_same(a: &Shape, b: &Shape) -> bool
    ensures { result ≡ bytes_eq a.now b.now }
{
    a == b
}

/// Whether each of the shapes is this one.
pub(crate) fn all_are(shape: &Shape, shapes: &[Shape]) -> bool
    ensures { result ≡ all_are shape.now shapes.now }
{
    shapes.iter().all(|other| is_same(other, shape))
}

/// Whether each of the shapes has one field.
pub(crate) fn are_fields(shapes: &[Shape]) -> bool
    ensures { result ≡ are_fields shapes.now }
{
    shapes.iter().all(|shape| shape.widths().len() == 1)
}

/// An equal shape of its own. The only error is want of memory.
pub(crate) fn copy_of(shape: &Shape) -> Result<Shape, StatementFault>
    ensures { MatchResult result (λ copy. copy ≡ shape.now) (λ fault. fault ≡ StatementFault.NoMemory) }
{
    Ok(shape.clone()?)
}

/// Equal shapes of their own. The only error is want of memory.
pub(crate) fn copies_of(alloc: Global, shapes: &[Shape]) -> Result<Items<Shape>, StatementFault>
    ensures { MatchResult result (λ copies. copies ≡ shapes.now) (λ fault. fault ≡ StatementFault.NoMemory) }
{
    let mut copies = Vec::new(alloc);
    for shape in shapes {
        copies.push(copy_of(shape)?)?;
    }
    Ok(Items::new(copies))
}

/// The widths of the shapes, one after another. The only error is want of memory.
pub(crate) fn joined(alloc: Global, shapes: &[Shape]) -> Result<Vec<u8>, StatementFault>
    ensures { MatchResult result (λ widths. widths.items ≡ concat shapes.now) (λ fault. fault ≡ StatementFault.NoMemory) }
{
    let mut widths = Vec::new(alloc);
    for shape in shapes {
        widths.extend_from_slice(shape.widths())?;
    }
    Ok(widths)
}

/// Whether the shape is one field of one bit.
pub(crate) fn is_bit(shape: &Shape) -> bool
    ensures { result ≡ bytes_eq shape.now (field 1) }
{
    shape.widths() == [1u8].as_slice()
}

/// Whether numbers below the count differ in a field of this width.
pub(crate) fn tells_apart(width: u8, count: u8) -> bool
    requires { count ≤ 64 }
    ensures { result ≡ nat_le count (2 ^ width) }
{
    width >= 6 || count <= 1 << width
}
