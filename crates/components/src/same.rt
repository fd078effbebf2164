//! Whether two kinds are equal, and whether two nodes are the same apart from their names, whatever the order of kept attributes.
ghost use Rattle.std.specs.Prelude.{◌≡◌, ◌≢◌, ◌↔◌, IsTrue, All, AllPairs, Contains};
ghost use Rattle.std.specs.FinMap as map_of;
ghost use Rattle.components.specs.Name.{name_cmp};
ghost use Rattle.components.specs.Node.{NodeOk, body_of};

use crate::kind::Kind;
use crate::node::Node;
use fun_expr::same_fun;
use port_types::{Items, Shape, Text};

/// Whether two nodes are of one kind, with the same kept attributes in any order. Takes no memory.
pub fn same_body(a: &Node, b: &Node) -> bool
    requires first { NodeOk a.now }
    requires second { NodeOk b.now }
    ensures { IsTrue result ↔ (body_of a.now ≡ body_of b.now) }
{
    same_kind(&a.kind, &b.kind) && same_kept(a.kept.as_slice(), b.kept.as_slice())
}

/// Whether two kinds are equal, with the same shapes, counts, widths, values and functions. Takes no memory.
pub fn same_kind(a: &Kind, b: &Kind) -> bool
    ensures { IsTrue result ↔ (a.now ≡ b.now) }
{
    match (a, b) {
        (Kind::Entry(shape), Kind::Entry(other))
        | (Kind::Exit(shape), Kind::Exit(other))
        | (Kind::Buffer(shape), Kind::Buffer(other))
        | (Kind::Source0(shape), Kind::Source0(other))
        | (Kind::Sink0(shape), Kind::Sink0(other))
        | (Kind::Mux(shape), Kind::Mux(other))
        | (Kind::Branch(shape), Kind::Branch(other)) => shape == other,
        (Kind::Fork(shape, count), Kind::Fork(other, other_count))
        | (Kind::Merge(shape, count), Kind::Merge(other, other_count)) => {
            shape == other && count == other_count
        }
        (Kind::Join(shapes), Kind::Join(others)) | (Kind::Split(shapes), Kind::Split(others)) => {
            same_shapes(shapes, others)
        }
        (Kind::Operator(op, widths, width), Kind::Operator(other, others, other_width)) => {
            op == other && widths.as_slice() == others.as_slice() && width == other_width
        }
        (Kind::Constant(shape, width, value), Kind::Constant(other, other_width, other_value)) => {
            shape == other && width == other_width && value == other_value
        }
        (Kind::Pure(fun, shape), Kind::Pure(other_fun, other)) => {
            same_fun(fun, other_fun) && shape == other
        }
        (Kind::CtrlMerge(shape, count, width), Kind::CtrlMerge(other, others, other_width)) => {
            shape == other && count == others && width == other_width
        }
        (Kind::Init(value, mark), Kind::Init(other, other_mark)) => {
            value == other && mark == other_mark
        }
        (Kind::Tagger(shape, tags), Kind::Tagger(other, other_tags)) => {
            shape == other && tags == other_tags
        }
        _ => false,
    }
}

/// Whether two lists have the same shapes in order.
#[tactic(auto, using(crate::proofs::Alike::each_one))]
fn same_shapes(a: &Items<Shape>, b: &Items<Shape>) -> bool
    ensures { IsTrue result ↔ (a.now ≡ b.now) }
{
    a == b
}

/// Whether two lists of attributes with different keys have the same attributes, in any order.
fn same_kept(a: &[(Text, Text)], b: &[(Text, Text)]) -> bool
    requires first { AllPairs (λ x y. x.0 ≢ y.0) a.now }
    requires second { AllPairs (λ x y. x.0 ≢ y.0) b.now }
    ensures { IsTrue result ↔ (map_of.from_entries {R = name_cmp} a.now ≡ map_of.from_entries b.now) }
{
    are_among(a, b) && are_among(b, a)
}

/// Whether each of the attributes stands in the list.
fn are_among(kept: &[(Text, Text)], list: &[(Text, Text)]) -> bool
    ensures { IsTrue result ↔ All (Contains list.now) kept.now }
{
    for pair in kept {
        if !is_among(pair, list) {
            return false;
        }
    }
    true
}

fn is_among(pair: &(Text, Text), list: &[(Text, Text)]) -> bool
    ensures { IsTrue result ↔ Contains list.now pair.now }
{
    list.iter().any(|other| same_pair(pair, other))
}

fn same_pair(a: &(Text, Text), b: &(Text, Text)) -> bool
    ensures { IsTrue result ↔ (a.now ≡ b.now) }
{
    a == b
}
