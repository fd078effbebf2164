ghost use Rattle.std.specs.Prelude.{◌≡◌, [], ◌++◌, ◌==◌, if◌then◌else◌, IfOk, OnOk, length, string_bytes, codes};
ghost use Rattle.std.specs.Char.{encode_utf8};
ghost use Rattle.dot_text.specs.Documents.{Stands};
ghost use Rattle.dot_text.specs.Printing.{escaped, in_quotes, key_text, pair_text, pairs_text, node_line, edge_line, node_lines, edge_lines, printed, DocPrints};

use crate::doc::{Doc, DocEdge, DocNode};
use crate::lexical::{is_name, keyword};
use port_types::{NoMemory, Text};
use std::alloc::Global;

/// The lines of a document, each with its LF: nodes, pairs and edges in the order of the document. Where every text
/// can be quoted and every node has a pair, the document stands at the front of them.
pub fn print_doc(alloc: Global, doc: &Doc) -> Result<Vec<u8>, NoMemory>
    ensures lines { IfOk result (λ bytes. bytes.items ≡ printed doc.now ++ codes "\n") }
    ensures stands { DocPrints doc.now
        → IfOk result (λ bytes. Stands bytes.items 0 doc.now (length (printed doc.now))) }
{
    let mut out = String::new(alloc);
    out.push_str("digraph G {\n")?;
    push_nodes(&mut out, doc.nodes.as_slice())?;
    push_edges(&mut out, doc.edges.as_slice())?;
    out.push_str("}\n")?;
    Ok(out.into_bytes())
}

/// Appends a line for each node.
fn push_nodes(out: &mut String, nodes: &[DocNode]) -> Result<(), NoMemory>
    ensures { OnOk result (string_bytes out.new ≡ string_bytes out.old ++ node_lines nodes.now) }
{
    for node in nodes {
        push_node(out, node)?;
    }
    Ok(())
}

/// Appends the line of a node.
fn push_node(out: &mut String, node: &DocNode) -> Result<(), NoMemory>
    ensures { OnOk result (string_bytes out.new ≡ string_bytes out.old ++ node_line node.now) }
{
    out.push_str("  ")?;
    push_quoted(out, &node.name)?;
    out.push_str(" [")?;
    push_pairs(out, node.pairs.as_slice())?;
    out.push_str("];\n")?;
    Ok(())
}

/// Appends a line for each edge.
fn push_edges(out: &mut String, edges: &[DocEdge]) -> Result<(), NoMemory>
    ensures { OnOk result (string_bytes out.new ≡ string_bytes out.old ++ edge_lines edges.now) }
{
    for edge in edges {
        push_edge(out, edge)?;
    }
    Ok(())
}

/// Appends the line of an edge.
fn push_edge(out: &mut String, edge: &DocEdge) -> Result<(), NoMemory>
    ensures { OnOk result (string_bytes out.new ≡ string_bytes out.old ++ edge_line edge.now) }
{
    out.push_str("  ")?;
    push_quoted(out, &edge.source)?;
    out.push_str(" -> ")?;
    push_quoted(out, &edge.target)?;
    out.push_str(" [")?;
    push_pairs(out, edge.pairs.as_slice())?;
    out.push_str("];\n")?;
    Ok(())
}

/// Appends pairs, joined by commas.
fn push_pairs(out: &mut String, pairs: &[(Text, Text)]) -> Result<(), NoMemory>
    ensures { OnOk result (string_bytes out.new ≡ string_bytes out.old ++ pairs_text pairs.now) }
{
    for (index, pair) in pairs.iter().enumerate() {
        push_comma(out, index)?;
        push_pair(out, pair)?;
    }
    Ok(())
}

/// Appends the comma before a pair, but nothing before the first.
fn push_comma(out: &mut String, index: usize) -> Result<(), NoMemory>
    ensures { OnOk result (string_bytes out.new
        ≡ string_bytes out.old ++ (if index == 0 then [] else codes ", ")) }
{
    if index > 0 {
        out.push_str(", ")?;
    }
    Ok(())
}

/// Appends a key and its quoted value.
fn push_pair(out: &mut String, pair: &(Text, Text)) -> Result<(), NoMemory>
    ensures { OnOk result (string_bytes out.new ≡ string_bytes out.old ++ pair_text pair.now) }
{
    push_key(out, &pair.0)?;
    out.push_str(" = ")?;
    push_quoted(out, &pair.1)
}

/// Appends a key: bare where it is a name and no keyword, else quoted.
fn push_key(out: &mut String, key: &Text) -> Result<(), NoMemory>
    ensures { OnOk result (string_bytes out.new ≡ string_bytes out.old ++ key_text key.now) }
{
    if is_name(key.bytes()) && keyword(key.bytes()).is_none() {
        out.push_str(key.as_str())?;
        Ok(())
    } else {
        push_quoted(out, key)
    }
}

/// Appends a text in double quotes, with a backslash before each double quote in it.
fn push_quoted(out: &mut String, text: &Text) -> Result<(), NoMemory>
    ensures { OnOk result (string_bytes out.new ≡ string_bytes out.old ++ in_quotes (escaped text.now)) }
{
    out.push('"')?;
    push_escaped(out, text.as_str())?;
    out.push('"')?;
    Ok(())
}

/// Appends a text with a backslash before each double quote in it.
fn push_escaped(out: &mut String, text: &str) -> Result<(), NoMemory>
    ensures { OnOk result (string_bytes out.new ≡ string_bytes out.old ++ escaped text.now) }
{
    for c in text.chars() {
        push_escaped_char(out, c)?;
    }
    Ok(())
}

/// Appends a character, behind a backslash where it is a double quote.
fn push_escaped_char(out: &mut String, c: char) -> Result<(), NoMemory>
    ensures { OnOk result (string_bytes out.new ≡ string_bytes out.old ++ escaped (encode_utf8 c)) }
{
    if c == '"' {
        out.push_str("\\\"")?;
    } else {
        out.push(c)?;
    }
    Ok(())
}
