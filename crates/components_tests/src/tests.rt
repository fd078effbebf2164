//! The worked rows of the table of components, and calls that take memory.
ghost use Rattle.components.specs.Kind.{KindOk};

use components::{
    Kind, component_at, component_of, has_port, is_name, kept_by_key, kind_ok, owns, port_shape,
    same_kind, word_of,
};
use fun_expr::{Expr, Fun};
use op_table::Op;
use port_types::{Items, Shape, Side, Text};
use std::alloc::Global;
use std::process::Abort;
use std::test::Fail;

fn text_of(alloc: Global, text: &str) -> Result<Text, Fail> {
    Ok(Text::new(text.as_bytes().to_vec(alloc)?).ok_or("no text")?)
}

fn shape_of(alloc: Global, widths: &[u8]) -> Result<Shape, Fail> {
    Ok(Shape::new(widths.to_vec(alloc)?).ok_or("no shape")?)
}

/// Two shapes, of so many fields of one bit.
fn parts_of(alloc: Global, first: usize, second: usize) -> Result<Items<Shape>, Fail> {
    let mut shapes = Vec::new(alloc);
    for count in [first, second] {
        shapes.push(shape_of(alloc, &vec![in alloc; 1; count]?)?)?;
    }
    Ok(Items::new(shapes))
}

/// A kind with a list of widths or of shapes.
fn several_of(alloc: Global, word: &str) -> Result<Kind, Fail> {
    Ok(match word {
        "Join" => Kind::Join(parts_of(alloc, 1, 2)?),
        "Split" => Kind::Split(parts_of(alloc, 1, 2)?),
        _ => Kind::Operator(Op::Select, Items::new([1, 8, 8].to_vec(alloc)?), 8),
    })
}

/// The function of tokens of two fields that gives the second field and a bit.
fn fun_of(alloc: Global) -> Result<Fun, Fail> {
    let binds = vec![in alloc; Expr::Lit(1, 0)]?;
    let outs = [1, 2].to_vec(alloc)?;
    let input = shape_of(alloc, &[8, 4])?;
    Ok(Fun::new(input, Items::new(binds), Items::new(outs)).ok_or("no function")?)
}

/// The kind of this word, over tokens of two fields of 8 and 4 bits.
fn kind_of(alloc: Global, word: &str) -> Result<Kind, Fail> {
    let data = shape_of(alloc, &[8, 4])?;
    Ok(match word {
        "Entry" => Kind::Entry(data),
        "Exit" => Kind::Exit(data),
        "Buffer" => Kind::Buffer(data),
        "Fork" => Kind::Fork(data, 2),
        "Constant" => Kind::Constant(data, 5, 31),
        "Source" => Kind::Source0(data),
        "Sink" => Kind::Sink0(data),
        "Pure" => Kind::Pure(fun_of(alloc)?, shape_of(alloc, &[4, 1])?),
        "Mux" => Kind::Mux(data),
        "Branch" => Kind::Branch(data),
        "Merge" => Kind::Merge(data, 2),
        "CntrlMerge" => Kind::CtrlMerge(data, 2, 1),
        "Init" => Kind::Init(1, 256),
        "Tagger" => Kind::Tagger(data, 5),
        _ => several_of(alloc, word)?,
    })
}

/// Appends the widths of the fields of each port of a side.
fn push_side(text: &mut String, alloc: Global, kind: &Kind, side: Side) -> Result<(), Fail>
    requires { KindOk kind.now }
{
    for port in 1..=64 {
        if has_port(kind, side, port) {
            write!(text, "{:?}", port_shape(alloc, kind, side, port)?.widths())?;
        }
    }
    Ok(())
}

/// The ports of the kind, if it meets its row, and the keys that the row owns.
fn row_of(alloc: Global, kind: &Kind) -> Result<String, Fail> {
    let mut text = String::new(alloc);
    if kind_ok(kind) {
        push_side(&mut text, alloc, kind, Side::Ins)?;
        text.push_str(" > ")?;
        push_side(&mut text, alloc, kind, Side::Outs)?;
    }
    for key in ["op", "value", "fun", "ooo", "tags"] {
        if owns(kind, key.as_bytes()) {
            write!(text, " {key}")?;
        }
    }
    Ok(text)
}

/// Whether this is the word of the kind's component, which is found by it.
fn has_word(kind: &Kind, word: &str) -> bool {
    let component = component_at(kind);
    word_of(component).as_bytes() == word.as_bytes()
        && component_of(word.as_bytes()) == Some(component)
}

/// A component's word, the widths of its inputs and outputs, and the keys that its row owns.
const ROWS: [(&str, &str); 17] = [
    ("Entry", " > [8, 4]"),
    ("Exit", "[8, 4] > "),
    ("Buffer", "[8, 4] > [8, 4]"),
    ("Fork", "[8, 4] > [8, 4][8, 4]"),
    ("Join", "[1][1, 1] > [1, 1, 1]"),
    ("Split", "[1, 1, 1] > [1][1, 1]"),
    ("Operator", "[1][8][8] > [8] op"),
    ("Constant", "[8, 4] > [5] value"),
    ("Source", " > [8, 4]"),
    ("Sink", "[8, 4] > "),
    ("Pure", "[8, 4] > [4, 1] fun"),
    ("Mux", "[1][8, 4][8, 4] > [8, 4]"),
    ("Branch", "[8, 4][1] > [8, 4][8, 4]"),
    ("Merge", "[8, 4][8, 4] > [8, 4]"),
    ("CntrlMerge", "[8, 4][8, 4] > [8, 4][1]"),
    ("Init", "[1] > [1] value ooo"),
    ("Tagger", "[8, 4][3, 8, 4] > [3, 8, 4][8, 4] tags"),
];

fn assert_row(rt: &impl Abort, alloc: Global, word: &str, row: &str) -> Result<(), Fail> {
    let kind = kind_of(alloc, word)?;
    let copy = kind.clone()?;
    assert_eq!(rt; row_of(alloc, &copy)?.as_str(), row);
    assert!(rt; same_kind(&kind, &copy) && has_word(&kind, word));
    Ok(())
}

#[test]
fn rows_of_the_table(rt: HostRuntime) -> Result<(), Fail> {
    for (word, row) in &ROWS {
        assert_row(&rt, rt.alloc(), word, row)?;
    }
    Ok(())
}

/// Whether a Join of so many fields may stand in a graph.
fn join_is_ok(alloc: Global, first: usize, second: usize) -> Result<bool, Fail> {
    Ok(kind_ok(&Kind::Join(parts_of(alloc, first, second)?)))
}

/// Whether a Tagger of so many fields beside the tag may stand in a graph.
fn tagger_is_ok(alloc: Global, fields: usize) -> Result<bool, Fail> {
    let data = shape_of(alloc, &vec![in alloc; 1; fields]?)?;
    Ok(kind_ok(&Kind::Tagger(data, 256)))
}

/// Whether a Pure of the function may have this output.
fn pure_is_ok(alloc: Global, widths: &[u8]) -> Result<bool, Fail> {
    Ok(kind_ok(&Kind::Pure(fun_of(alloc)?, shape_of(alloc, widths)?)))
}

#[test]
fn limits_of_kinds(rt: HostRuntime) -> Result<(), Fail> {
    let alloc = rt.alloc();
    assert!(rt; join_is_ok(alloc, 64, 64)? && !join_is_ok(alloc, 64, 65)?);
    assert!(rt; tagger_is_ok(alloc, 127)? && !tagger_is_ok(alloc, 128)?);
    assert!(rt; pure_is_ok(alloc, &[4, 1])? && !pure_is_ok(alloc, &[1, 4])?);
    assert!(rt; !same_kind(&Kind::Init(1, 0), &Kind::Init(1, 1)));
    Ok(())
}

fn pairs_of(alloc: Global, pairs: &[(&str, &str)]) -> Result<Items<(Text, Text)>, Fail> {
    let mut texts = Vec::new(alloc);
    for (key, value) in pairs {
        texts.push((text_of(alloc, key)?, text_of(alloc, value)?))?;
    }
    Ok(Items::new(texts))
}

/// What a kind keeps of the pairs, by key.
fn kept_text(alloc: Global, kind: &Kind, pairs: &[(Text, Text)]) -> Result<String, Fail> {
    let mut text = String::new(alloc);
    for pair in &kept_by_key(alloc, kind, pairs)? {
        write!(text, " {}={}", pair.0.as_str(), pair.1.as_str())?;
    }
    Ok(text)
}

#[test]
fn the_last_pair_of_a_key_is_kept(rt: HostRuntime) -> Result<(), Fail> {
    let pairs = [("b", "1"), ("a", "2"), ("ooo", "x"), ("b", "3"), ("B", "4")];
    let given = pairs_of(rt.alloc(), pairs.as_slice())?;
    let kept = kept_text(rt.alloc(), &Kind::Init(1, 0), given.as_slice())?;
    assert_eq!(rt; kept.as_str(), " B=4 a=2 b=3");
    Ok(())
}

#[test]
fn the_other_spelling_and_no_word(rt: HostRuntime) -> Result<(), Fail> {
    assert_eq!(rt; component_of(b"CtrlMerge"), component_of(b"CntrlMerge"));
    assert_eq!(rt; component_of(b"entry"), None);
    assert!(rt; !is_name(&text_of(rt.alloc(), "a b")?));
    Ok(())
}
