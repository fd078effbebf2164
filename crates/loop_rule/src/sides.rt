//! The two graphs of the rule.
ghost use Rattle.std.specs.Prelude.{◌≡◌, ◌≤◌, ◌++◌, ◌∷◌, [], ◌<◌, ℕ, IfOk, OnOk, length};
ghost use Rattle.components.specs.Kind.{field, tagged};
ghost use Rattle.components.specs.declared.kind.Kind.TheVariants.{Branch, Entry, Exit, Fork, Init, Join, Merge, Mux, Pure, Split, Tagger};
ghost use Rattle.port_types.specs.Shape.{IsShape};
ghost use Rattle.port_types.specs.Tag.{tag_width};
ghost use Rattle.subst_engine.specs.Making.{bare_node};
ghost use Rattle.subst_engine.specs.Prefix.{prefix_text};
ghost use Rattle.tagged_loop.specs.InOrderLoop.{LoopParts, in_order, in_order_loop};
ghost use Rattle.loop_laws.specs.Polarity.{back_in, back_out, exit_bit, exit_out, fresh_in};
ghost use Rattle.tagged_loop.specs.TaggedLoop.{tagged_drawing, tagged_loop};
ghost use Rattle.tagged_loop.specs.LoopFunction.{with_bit};
ghost use Rattle.drawn_rules.specs.EndNames.{entry_name, exit_name};
ghost use Rattle.loop_rule.specs.Listed.{CanMakeSides};
ghost use Rattle.drawn_rules.specs.Sides.{nodes_of};
ghost use Rattle.loop_rule.specs.Sides.{new_ends, old_ends};
ghost use Rattle.loop_rule.specs.TagLoop.{new_name, nth, old_name};

use crate::listed::Parts;
use components::{Kind, Node};
use drawn_rules::{entry_name, exit_name, new_name};
use fun_expr::Fun;
use graph_core::{End, Graph};
use port_types::{Items, NoMemory, Shape, Text, tag_width};
use std::alloc::Global;
use subst_engine::{bare_node, rule_graph};
use tagged_loop::tagged_loop_refines;

/// The in-order loop of the listed nodes. The only error is want of memory.
pub(crate) fn left_graph(alloc: Global, names: &[Text], parts: Parts<'_>) -> Result<Graph, NoMemory>
    requires can { (prefix tags : ℕ) × CanMakeSides prefix tags names.now (record { shape = parts.shape.now; fun = parts.fun.now; goes_back = parts.goes_back; mark = parts.mark }) }
    requires output { parts.output.now ≡ with_bit parts.shape.now }
    ensures { IfOk result (λ left. left.graph ≡ in_order_loop (record { shape = parts.entry.shape.now; fun = parts.entry.fun.now; goes_back = parts.entry.goes_back; mark = parts.entry.mark }) (old_name names.now)) }
{
    tagged_loop_refines();
    let nodes = left_nodes(alloc, names, parts)?;
    rule_graph(alloc, nodes, left_wires(parts.goes_back).as_slice())
}

/// The tagged loop in its place. The only error is want of memory.
pub(crate) fn right_graph(
    alloc: Global,
    prefix: u64,
    tags: u16,
    names: &[Text],
    parts: Parts<'_>,
) -> Result<Graph, NoMemory>
    requires can { CanMakeSides prefix tags names.now (record { shape = parts.shape.now; fun = parts.fun.now; goes_back = parts.goes_back; mark = parts.mark }) }
    requires output { parts.output.now ≡ with_bit parts.shape.now }
    ensures { IfOk result (λ right. right.graph ≡ tagged_loop (record { shape = parts.entry.shape.now; fun = parts.entry.fun.now; goes_back = parts.entry.goes_back; mark = parts.entry.mark }) tags (new_name prefix names.now)) }
{
    tagged_loop_refines();
    let nodes = right_nodes(alloc, prefix, tags, names, parts)?;
    rule_graph(alloc, nodes, right_wires(parts.goes_back).as_slice())
}

/// The nodes of the in-order loop.
fn left_nodes(alloc: Global, names: &[Text], parts: Parts<'_>) -> Result<Vec<Node>, NoMemory>
    requires six { length names.now ≡ 6 }
    requires output { parts.output.now ≡ with_bit parts.shape.now }
    ensures { IfOk result (λ nodes. nodes.items ≡ nodes_of (in_order (record { shape = parts.entry.shape.now; fun = parts.entry.fun.now; goes_back = parts.entry.goes_back; mark = parts.entry.mark })) (old_name names.now)) }
{
    let Parts {
        shape,
        fun,
        output,
        goes_back,
        mark,
    } = parts;
    let mut nodes = Vec::new(alloc);
    push_entry(&mut nodes, alloc, names, shape)?;
    push_listed(&mut nodes, alloc, names, 0, init_kind(goes_back, mark))?;
    push_listed(&mut nodes, alloc, names, 1, mux_kind(shape)?)?;
    push_listed(&mut nodes, alloc, names, 2, pure_kind(fun, output)?)?;
    push_listed(&mut nodes, alloc, names, 3, pair_kind(alloc, shape)?)?;
    push_listed(&mut nodes, alloc, names, 4, bit_fork(alloc)?)?;
    push_listed(&mut nodes, alloc, names, 5, branch_kind(shape)?)?;
    push_exit(&mut nodes, alloc, names, shape)?;
    Ok(nodes)
}

/// The nodes of the tagged loop.
fn right_nodes(
    alloc: Global,
    prefix: u64,
    tags: u16,
    names: &[Text],
    parts: Parts<'_>,
) -> Result<Vec<Node>, NoMemory>
    requires some { 1 ≤ tags }
    requires few { tags ≤ 256 }
    requires tagged { IsShape (tagged tags parts.shape.now) }
    requires output { parts.output.now ≡ with_bit parts.shape.now }
    ensures { IfOk result (λ nodes. nodes.items ≡ nodes_of (tagged_drawing (record { shape = parts.entry.shape.now; fun = parts.entry.fun.now; goes_back = parts.entry.goes_back; mark = parts.entry.mark }) tags) (new_name prefix names.now)) }
{
    let Parts {
        shape,
        fun,
        output,
        ..
    } = parts;
    let mut nodes = Vec::new(alloc);
    push_entry(&mut nodes, alloc, names, shape)?;
    push_new(
        &mut nodes,
        alloc,
        prefix,
        "tagger",
        tagger_kind(shape, tags)?,
    )?;
    push_new(
        &mut nodes,
        alloc,
        prefix,
        "merge",
        merge_kind(alloc, tags, shape)?,
    )?;
    push_new(
        &mut nodes,
        alloc,
        prefix,
        "tag",
        tag_kind(alloc, tags, shape)?,
    )?;
    push_new(&mut nodes, alloc, prefix, "pure", pure_kind(fun, output)?)?;
    push_new(&mut nodes, alloc, prefix, "pair", pair_kind(alloc, shape)?)?;
    push_new(
        &mut nodes,
        alloc,
        prefix,
        "retag",
        retag_kind(alloc, tags, shape)?,
    )?;
    push_new(
        &mut nodes,
        alloc,
        prefix,
        "branch",
        tagged_branch(alloc, tags, shape)?,
    )?;
    push_exit(&mut nodes, alloc, names, shape)?;
    Ok(nodes)
}

/// The wires of the in-order loop.
fn left_wires(goes_back: bool) -> [(End, End); 10]
    ensures { result ≡ old_ends goes_back }
{
    [
        (End::Fresh(1, 1), End::Fresh(2, 1)),
        (End::Fresh(0, 1), End::Fresh(2, fresh_in(goes_back))),
        (
            End::Fresh(6, back_out(goes_back)),
            End::Fresh(2, back_in(goes_back)),
        ),
        (End::Fresh(2, 1), End::Fresh(3, 1)),
        (End::Fresh(3, 1), End::Fresh(4, 1)),
        (End::Fresh(4, 1), End::Fresh(6, 1)),
        (End::Fresh(4, 2), End::Fresh(5, 1)),
        (End::Fresh(5, 1), End::Fresh(6, 2)),
        (End::Fresh(5, 2), End::Fresh(1, 1)),
        (End::Fresh(6, exit_out(goes_back)), End::Fresh(7, 1)),
    ]
}

/// The wires of the tagged loop.
fn right_wires(goes_back: bool) -> [(End, End); 12]
    ensures { result ≡ new_ends goes_back }
{
    [
        (End::Fresh(0, 1), End::Fresh(1, 1)),
        (End::Fresh(1, 1), End::Fresh(2, 1)),
        (End::Fresh(2, 1), End::Fresh(3, 1)),
        (End::Fresh(3, 1), End::Fresh(6, 1)),
        (End::Fresh(3, 2), End::Fresh(4, 1)),
        (End::Fresh(4, 1), End::Fresh(5, 1)),
        (End::Fresh(5, 1), End::Fresh(6, 2)),
        (End::Fresh(5, 2), End::Fresh(7, 2)),
        (End::Fresh(6, 1), End::Fresh(7, 1)),
        (End::Fresh(7, back_out(goes_back)), End::Fresh(2, 2)),
        (End::Fresh(7, exit_out(goes_back)), End::Fresh(1, 2)),
        (End::Fresh(1, 2), End::Fresh(8, 1)),
    ]
}

/// The condition on which the loop ends, which its Init holds.
fn exit_bit(goes_back: bool) -> u8
    ensures { result ≡ exit_bit goes_back }
{
    if goes_back { 0 } else { 1 }
}

/// The output of a Branch that leads back.
fn back_out(goes_back: bool) -> u8
    ensures { result ≡ back_out goes_back }
{
    if goes_back { 1 } else { 2 }
}

/// The output of a Branch that leads out.
fn exit_out(goes_back: bool) -> u8
    ensures { result ≡ exit_out goes_back }
{
    if goes_back { 2 } else { 1 }
}

/// The input of a Mux for what comes back.
fn back_in(goes_back: bool) -> u8
    ensures { result ≡ back_in goes_back }
{
    if goes_back { 3 } else { 2 }
}

/// The input of a Mux for what is new.
fn fresh_in(goes_back: bool) -> u8
    ensures { result ≡ fresh_in goes_back }
{
    if goes_back { 2 } else { 3 }
}

/// Appends the Entry.
fn push_entry(
    nodes: &mut Vec<Node>,
    alloc: Global,
    names: &[Text],
    shape: &Shape,
) -> Result<(), NoMemory>
    ensures { OnOk result (nodes.new.items ≡ nodes.old.items ++ bare_node (entry_name names.now) (Entry shape.now) ∷ []) }
{
    let kind = Kind::Entry(shape.clone()?);
    nodes.push(bare_node(alloc, entry_name(alloc, names)?, kind))?;
    Ok(())
}

/// Appends the Exit.
fn push_exit(
    nodes: &mut Vec<Node>,
    alloc: Global,
    names: &[Text],
    shape: &Shape,
) -> Result<(), NoMemory>
    ensures { OnOk result (nodes.new.items ≡ nodes.old.items ++ bare_node (exit_name names.now) (Exit shape.now) ∷ []) }
{
    let kind = Kind::Exit(shape.clone()?);
    nodes.push(bare_node(alloc, exit_name(alloc, names)?, kind))?;
    Ok(())
}

/// Appends a node with one of the names.
fn push_listed(
    nodes: &mut Vec<Node>,
    alloc: Global,
    names: &[Text],
    place: usize,
    kind: Kind,
) -> Result<(), NoMemory>
    requires { place < length names.now }
    ensures { OnOk result (nodes.new.items ≡ nodes.old.items ++ bare_node (nth names.now place) kind ∷ []) }
{
    let name = names[place].clone()?;
    nodes.push(bare_node(alloc, name, kind))?;
    Ok(())
}

/// Appends a node whose name is the prefix and a word.
fn push_new(
    nodes: &mut Vec<Node>,
    alloc: Global,
    prefix: u64,
    word: &str,
    kind: Kind,
) -> Result<(), NoMemory>
    ensures { OnOk result (nodes.new.items ≡ nodes.old.items ++ bare_node (prefix_text prefix ++ word.now) kind ∷ []) }
{
    let name = new_name(alloc, prefix, word)?;
    nodes.push(bare_node(alloc, name, kind))?;
    Ok(())
}

fn init_kind(goes_back: bool, mark: u16) -> Kind
    ensures { result ≡ Init (exit_bit goes_back) mark }
{
    Kind::Init(exit_bit(goes_back), mark)
}

fn mux_kind(shape: &Shape) -> Result<Kind, NoMemory>
    ensures { IfOk result (λ kind. kind ≡ Mux shape.now) }
{
    let shape = shape.clone()?;
    Ok(Kind::Mux(shape))
}

fn branch_kind(shape: &Shape) -> Result<Kind, NoMemory>
    ensures { IfOk result (λ kind. kind ≡ Branch shape.now) }
{
    let shape = shape.clone()?;
    Ok(Kind::Branch(shape))
}

fn pure_kind(fun: &Fun, output: &Shape) -> Result<Kind, NoMemory>
    ensures { IfOk result (λ kind. kind ≡ Pure fun.now output.now) }
{
    let output = output.clone()?;
    Ok(Kind::Pure(fun.clone()?, output))
}

/// A Split into a tuple and a bit.
fn pair_kind(alloc: Global, shape: &Shape) -> Result<Kind, NoMemory>
    ensures { IfOk result (λ kind. kind ≡ Split (shape.now ∷ field 1 ∷ [])) }
{
    Ok(Kind::Split(pair_parts(alloc, shape)?))
}

/// A Fork that gives a bit twice.
fn bit_fork(alloc: Global) -> Result<Kind, NoMemory>
    ensures { IfOk result (λ kind. kind ≡ Fork (field 1) 2) }
{
    Ok(Kind::Fork(one_field(alloc, 1)?, 2))
}

fn tagger_kind(shape: &Shape, tags: u16) -> Result<Kind, NoMemory>
    ensures { IfOk result (λ kind. kind ≡ Tagger shape.now tags) }
{
    let shape = shape.clone()?;
    Ok(Kind::Tagger(shape, tags))
}

/// A Merge of what is new and what comes back.
fn merge_kind(alloc: Global, tags: u16, shape: &Shape) -> Result<Kind, NoMemory>
    requires some { 1 ≤ tags }
    requires few { tags ≤ 256 }
    requires shape { IsShape (tagged tags shape.now) }
    ensures { IfOk result (λ kind. kind ≡ Merge (tagged tags shape.now) 2) }
{
    Ok(Kind::Merge(tagged_shape(alloc, tags, shape)?, 2))
}

/// A Split into a tag and a tuple.
fn tag_kind(alloc: Global, tags: u16, shape: &Shape) -> Result<Kind, NoMemory>
    requires some { 1 ≤ tags }
    requires few { tags ≤ 256 }
    ensures { IfOk result (λ kind. kind ≡ Split (field (tag_width tags) ∷ shape.now ∷ [])) }
{
    Ok(Kind::Split(tag_parts(alloc, tags, shape)?))
}

/// A Join of a tag and a tuple.
fn retag_kind(alloc: Global, tags: u16, shape: &Shape) -> Result<Kind, NoMemory>
    requires some { 1 ≤ tags }
    requires few { tags ≤ 256 }
    ensures { IfOk result (λ kind. kind ≡ Join (field (tag_width tags) ∷ shape.now ∷ [])) }
{
    Ok(Kind::Join(tag_parts(alloc, tags, shape)?))
}

/// A Branch of a tuple with its tag.
fn tagged_branch(alloc: Global, tags: u16, shape: &Shape) -> Result<Kind, NoMemory>
    requires some { 1 ≤ tags }
    requires few { tags ≤ 256 }
    requires shape { IsShape (tagged tags shape.now) }
    ensures { IfOk result (λ kind. kind ≡ Branch (tagged tags shape.now)) }
{
    Ok(Kind::Branch(tagged_shape(alloc, tags, shape)?))
}

/// A tuple and a bit.
fn pair_parts(alloc: Global, shape: &Shape) -> Result<Items<Shape>, NoMemory>
    ensures { IfOk result (λ parts. parts ≡ shape.now ∷ field 1 ∷ []) }
{
    two_shapes(alloc, shape.clone()?, one_field(alloc, 1)?)
}

/// A tag and a tuple.
fn tag_parts(alloc: Global, tags: u16, shape: &Shape) -> Result<Items<Shape>, NoMemory>
    requires some { 1 ≤ tags }
    requires few { tags ≤ 256 }
    ensures { IfOk result (λ parts. parts ≡ field (tag_width tags) ∷ shape.now ∷ []) }
{
    two_shapes(alloc, one_field(alloc, tag_width(tags))?, shape.clone()?)
}

fn two_shapes(alloc: Global, first: Shape, second: Shape) -> Result<Items<Shape>, NoMemory>
    ensures { IfOk result (λ parts. parts ≡ first ∷ second ∷ []) }
{
    Ok(Items::new(vec![in alloc; first, second]?))
}

/// A shape of one field.
fn one_field(alloc: Global, width: u8) -> Result<Shape, NoMemory>
    requires { width ≤ 64 }
    ensures { IfOk result (λ shape. shape ≡ field width) }
{
    match Shape::new(vec![in alloc; width]?) {
        Some(shape) => Ok(shape),
        None => unreachable!(),
    }
}

/// The shape of a tuple with a tag before it.
fn tagged_shape(alloc: Global, tags: u16, shape: &Shape) -> Result<Shape, NoMemory>
    requires some { 1 ≤ tags }
    requires few { tags ≤ 256 }
    requires shape { IsShape (tagged tags shape.now) }
    ensures { IfOk result (λ with_tag. with_tag ≡ tagged tags shape.now) }
{
    let mut widths = vec![in alloc; tag_width(tags)]?;
    widths.extend_from_slice(shape.widths())?;
    match Shape::new(widths) {
        Some(with_tag) => Ok(with_tag),
        None => unreachable!(),
    }
}
