//! What is read of the nodes that a use of the rule lists.
ghost use Rattle.std.specs.Prelude.{◌≡◌, ◌≢◌, ◌↔◌, ◌++◌, ℕ, Some, IsTrue, MatchOption, length};
ghost use Rattle.std.specs.List.{AllByRecursion};
ghost use Rattle.std.specs.Option.{option_copied};
ghost use Rattle.components.specs.declared.kind.Kind.TheVariants.{Init, Mux, Pure};
ghost use Rattle.components.specs.Kind.{KindOk, field};
ghost use Rattle.circuits.specs.Circuit.{circuit_of};
ghost use Rattle.circuits.specs.Replacing.{NoneTwice};
ghost use Rattle.tagged_loop.specs.InOrderLoop.{LoopParts};
ghost use Rattle.loop_laws.specs.Polarity.{exit_bit};
ghost use Rattle.tagged_loop.specs.LoopFunction.{with_bit};
ghost use Rattle.loop_rule.specs.Listed.{AreListed, IsNodeOf, ReadsLoop};

use components::Kind;
use fun_expr::Fun;
use graph_core::Graph;
use port_types::{Shape, Text, same_shape};

/// What a loop is made of: the shape of its tuples, its function and what that gives, whether it goes back on condition 1, and its mark.
#[derive(Clone, Copy)]
pub(crate) struct Parts<'a> {
    pub(crate) shape: &'a Shape,
    pub(crate) fun: &'a Fun,
    pub(crate) output: &'a Shape,
    pub(crate) goes_back: bool,
    pub(crate) mark: u16,
}

/// Whether there are 1 to 256 tags and six different names of nodes.
pub(crate) fn are_listed(g: &Graph, tags: u16, names: &[Text]) -> bool
    ensures { IsTrue result ↔ AreListed g.now.graph tags names.now }
{
    1 <= tags && tags <= 256 && names.len() == 6 && all_differ(names) && are_nodes(g, names)
}

/// Whether no two names are equal.
fn all_differ(names: &[Text]) -> bool
    ensures { IsTrue result ↔ NoneTwice names.now }
{
    match names {
        [] => true,
        [first, rest @ ..] => are_other(rest, first) && all_differ(rest),
    }
}

/// Whether none of them is this name.
fn are_other(names: &[Text], name: &Text) -> bool
    ensures { IsTrue result ↔ AllByRecursion (λ n. name.now ≢ n) names.now }
{
    match names {
        [] => true,
        [first, rest @ ..] => !same_name(first, name) && are_other(rest, name),
    }
}

fn same_name(a: &Text, b: &Text) -> bool
    ensures { IsTrue result ↔ (a.now ≡ b.now) }
{
    a.bytes() == b.bytes()
}

/// Whether each of them is the name of a node.
fn are_nodes(g: &Graph, names: &[Text]) -> bool
    ensures { IsTrue result ↔ AllByRecursion (IsNodeOf g.now.graph) names.now }
{
    names.iter().all(|name| is_node(g, name))
}

fn is_node(g: &Graph, name: &Text) -> bool
    ensures { IsTrue result ↔ IsNodeOf g.now.graph name.now }
{
    kind_at(g, name).is_some()
}

/// The kind of the node of this name.
fn kind_at<'a>(g: &'a Graph, name: &Text) -> Option<&'a Kind>
    ensures { option_copied result ≡ (circuit_of g.now.graph).kind_at name.now }
{
    Some(&g.node(g.find(name.bytes())?)?.kind)
}

/// What the loop of these nodes is made of, as its Init, its Mux and its Pure tell it.
pub(crate) fn loop_at<'a>(g: &'a Graph, names: &[Text]) -> Option<Parts<'a>>
    requires { length names.now ≡ 6 }
    ensures { MatchOption result
        ((loop : LoopParts) → ¬ (ReadsLoop g.now.graph names.now loop))
        (λ parts. ReadsLoop g.now.graph names.now (record { shape = parts.shape.now; fun = parts.fun.now; goes_back = parts.goes_back; mark = parts.mark }) × (parts.output.now ≡ with_bit parts.shape.now)) }
{
    let (goes_back, mark) = init_at(g, &names[0])?;
    let shape = mux_at(g, &names[1])?;
    let (fun, output) = pure_at(g, &names[2])?;
    if same_shape(&fun.input, shape) && adds_bit(shape, output) {
        Some(Parts {
            shape,
            fun,
            output,
            goes_back,
            mark,
        })
    } else {
        None
    }
}

/// Whether the loop of the Init of this name goes back on condition 1, and its mark.
fn init_at(g: &Graph, name: &Text) -> Option<(bool, u16)>
    ensures { MatchOption result
        ((goes_back : _) (mark : ℕ) → (circuit_of g.now.graph).kind_at name.now ≢ Some (Init (exit_bit goes_back) mark))
        (λ found. (circuit_of g.now.graph).kind_at name.now ≡ Some (Init (exit_bit found.0) found.1)) }
{
    match kind_at(g, name)? {
        Kind::Init(0, mark) => Some((true, *mark)),
        Kind::Init(1, mark) => Some((false, *mark)),
        _ => None,
    }
}

/// The shape of the Mux of this name.
fn mux_at<'a>(g: &'a Graph, name: &Text) -> Option<&'a Shape>
    ensures { MatchOption (option_copied result)
        ((shape : _) → (circuit_of g.now.graph).kind_at name.now ≢ Some (Mux shape))
        (λ shape. (circuit_of g.now.graph).kind_at name.now ≡ Some (Mux shape)) }
{
    match kind_at(g, name)? {
        Kind::Mux(shape) => Some(shape),
        _ => None,
    }
}

/// The function of the Pure of this name, and the shape of what it gives.
fn pure_at<'a>(g: &'a Graph, name: &Text) -> Option<(&'a Fun, &'a Shape)>
    ensures { MatchOption result
        ((fun : _) (shape : _) → (circuit_of g.now.graph).kind_at name.now ≢ Some (Pure fun shape))
        (λ found. (circuit_of g.now.graph).kind_at name.now ≡ Some (Pure found.0.now found.1.now)) }
{
    match kind_at(g, name)? {
        Kind::Pure(fun, shape) => Some((fun, shape)),
        _ => None,
    }
}

/// Whether the second shape is the first with a bit behind it.
fn adds_bit(shape: &Shape, output: &Shape) -> bool
    ensures { IsTrue result ↔ (output.now ≡ with_bit shape.now) }
{
    match output.widths().split_last() {
        Some((1, widths)) => same_widths(widths, shape.widths()),
        _ => false,
    }
}

fn same_widths(a: &[u8], b: &[u8]) -> bool
    ensures { IsTrue result ↔ (a.now ≡ b.now) }
{
    a == b
}
