//! Shapes of the nodes of a rule.
ghost use Rattle.std.specs.Prelude.{◌≡◌, ◌++◌, IfOk, OnOk, replicate};
ghost use Rattle.std.specs.List.{concat};
ghost use Rattle.components.specs.Kind.{field};
ghost use Rattle.port_types.specs.Shape.{IsShape};

use port_types::{NoMemory, Shape};
use std::alloc::Global;

/// The shape so many times. The only error is want of memory.
pub fn copies(alloc: Global, shape: &Shape, count: usize) -> Result<Vec<Shape>, NoMemory>
    ensures { IfOk result (λ shapes. shapes.items ≡ replicate count shape.now) }
{
    let mut shapes = Vec::new(alloc);
    for _ in 0..count {
        shapes.push(copy_shape(shape)?)?;
    }
    Ok(shapes)
}

fn copy_shape(shape: &Shape) -> Result<Shape, NoMemory>
    ensures { IfOk result (λ copy. copy ≡ shape.now) }
{
    Ok(shape.clone()?)
}

/// The shape of all fields of these shapes, in order. The only error is want of memory.
pub fn joined_shape(alloc: Global, parts: &[Shape]) -> Result<Shape, NoMemory>
    requires { IsShape (concat parts.now) }
    ensures { IfOk result (λ shape. shape ≡ concat parts.now) }
{
    let widths = joined_widths(alloc, parts)?;
    match Shape::new(widths) {
        Some(shape) => Ok(shape),
        None => unreachable!(),
    }
}

fn joined_widths(alloc: Global, parts: &[Shape]) -> Result<Vec<u8>, NoMemory>
    ensures { IfOk result (λ widths. widths.items ≡ concat parts.now) }
{
    let mut widths = Vec::new(alloc);
    for index in 0..parts.len() {
        push_widths(&mut widths, &parts[index])?;
    }
    Ok(widths)
}

fn push_widths(widths: &mut Vec<u8>, part: &Shape) -> Result<(), NoMemory>
    ensures { OnOk result (widths.new.items ≡ widths.old.items ++ part.now) }
{
    widths.extend_from_slice(part.widths())?;
    Ok(())
}

/// The shape of a bit. The only error is want of memory.
pub fn bit_shape(alloc: Global) -> Result<Shape, NoMemory>
    ensures { IfOk result (λ shape. shape ≡ field 1) }
{
    match Shape::new(vec![in alloc; 1]?) {
        Some(shape) => Ok(shape),
        None => unreachable!(),
    }
}
