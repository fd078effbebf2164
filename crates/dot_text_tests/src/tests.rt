use dot_text::{DocFault, print_doc, read_doc, skip_blank};
use std::alloc::{AllocError, Global};
use std::process::Abort;
use std::test::Fail;

/// Statements, and the line that prints what a document keeps of them.
const STATEMENTS: [(&str, &str); 11] = [
    ("node[a=b];edge[a=b]a=b;a;b[c=d]", r#""b" [c = "d"];"#),
    ("a[b=c;d=e,f=g]", r#""a" [b = "c", d = "e", f = "g"];"#),
    ("a->b[c=d][e=f];", r#""a" -> "b" [c = "d", e = "f"];"#),
    ("subgraph s{a[b=c]}subgraph{}{}", r#""a" [b = "c"];"#),
    // numerals: one ends before a byte from 128 on
    (r#""a"->-1."#, r#""a" -> "-1." [];"#),
    ("1é[a=.5]", r#""é" [a = ".5"];"#),
    // quotes: a double quote and backslashes, an LF, and no keyword and no comment in them
    (r#""a\"b\c\\"[d=""]"#, r#""a\"b\c\\" [d = ""];"#),
    ("\"a\nb\"[c=d]", "\"a\nb\" [c = \"d\"];"),
    (r#"/*"*/"node"[a="/*"]//""#, r#""node" [a = "/*"];"#),
    // keys: bare where they are names
    (r#"a["b"=c "é"=c]"#, r#""a" [b = "c", é = "c"];"#),
    (r#"a["Node"=b "1"=b]"#, r#""a" ["Node" = "b", "1" = "b"];"#),
];

/// Inputs that are at fault, parted by `|`: in each a `^`, which is left out, marks the place.
const FAULTS: [&[u8]; 6] = [
    // before the brace
    b"^graph{}|^strict digraph{}|^digraphs{}|^digra|^\"digraph\"{}| ^#a\ndigraph{}",
    b"digraph ^GRAPH{}|digraph G ^H{}|digraph^[]|digraph ^'a'{}|^1digraph{}",
    // ends that come too early
    b"^| \n#a^|digraph^|digraph G {^|digraph{a^|digraph{a->^|digraph{a^-|digraph{node [^",
    b"digraph{a [x = y z = w^|digraph{{}^|digraph G { \"a\" [type = ^\"Sou",
    // comments that are not closed, and what opens in a comment or in quotes
    b"^/*/digraph{}|digraph{^/* /* * /}|digraph{//}^|digraph{\n#}^|digraph{a /* \"b */ ^\"c",
    b"digraph{/* \" */ ^]|digraph{// \"\n^]|digraph{\"/*\" ^]|digraph{\"//\" ^]|digraph{\"\n#\"^]",
];

/// The same of statements that stand in the braces of a document.
const FAULTS_IN_BRACES: [&[u8]; 10] = [
    // where a statement begins, and behind an ID
    b"^]|^;|^->a|^=a|^Strict|^digraph{}|a^]|a^,b|a = b ^= c|a=^|a=^node|\"a\"=^[]",
    // edges
    b"a -> ^-> b|a -> b ^-> c|a->^|a->^Edge|a->^subgraph{}|a->^{}|{}^->a|a->b^=c",
    // attribute lists
    b"a [x^]|a [x = ^]|a[^=b]|a[^;]|a[b=^=c]|a[b=c^=d]|a[b=c,^,d=e]|a[b=c,^;]|a[b=c^",
    b"a[b=c]^]|a[b=c];^;|a;^;",
    // defaults
    b"graph^|graph^;|nOdE^=a|edge[a=b]^->c",
    // subgraphs
    b"subgraph^|subgraph ^subgraph{}|subgraph a ^b{}|subgraph a^;|subgraph a^[b=c]",
    // numerals and signs
    b"^1a|^1_|^1.e|^1.2.3|^.|^-|^-.|^-a|^- 1|1^-|a^--b|a^- >b",
    // other bytes
    b"a^>b|a^:b|^<a>|\"a\"^+\"b\"|^\\|a^/b|a^#b| ^#a\n",
    // quotes
    b"^\"a\\\"|^\"a\\\nb\"|^\"a\\\rb\"|\"a\"b^\"",
    // bytes that are not UTF-8: their token or comment
    b"^ab\xffc|a[b=^\"c\xff\"]| ^/*\xff*/| ^//\xff\n| \n^#\xff\n|^/*\xff",
];

/// What stands before a text and behind it.
type Ends<'a> = (&'a [u8], &'a [u8]);

fn between(alloc: Global, text: &[u8], ends: Ends) -> Result<Vec<u8>, AllocError> {
    let mut bytes = Vec::from_slice(alloc, ends.0)?;
    bytes.extend_from_slice(text)?;
    bytes.extend_from_slice(ends.1)?;
    Ok(bytes)
}

fn printed(alloc: Global, statements: &str) -> Result<Vec<u8>, Fail> {
    let text = between(alloc, statements.as_bytes(), (b"digraph{", b"\n}"))?;
    let (doc, _) = read_doc(alloc, text.as_slice(), 0)?;
    Ok(print_doc(alloc, &doc)?)
}

#[test]
fn statements_and_their_lines(rt: HostRuntime) -> Result<(), Fail> {
    for (statements, line) in STATEMENTS {
        let want = between(rt.alloc(), line.as_bytes(), (b"digraph G {\n  ", b"\n}\n"))?;
        assert_eq!(rt; printed(rt.alloc(), statements)?, want, "of {statements}");
    }
    Ok(())
}

/// The place of the fault, or `None` where a document stands.
fn fault_of(alloc: Global, bytes: &[u8]) -> Result<Option<usize>, DocFault> {
    match read_doc(alloc, bytes, 0) {
        Ok(_) => Ok(None),
        Err(DocFault::Syntax(place)) => Ok(Some(place)),
        Err(fault) => Err(fault),
    }
}

fn check_faults(rt: &impl Abort, alloc: Global, rows: &[u8], ends: Ends) -> Result<(), Fail> {
    for row in rows.split(|byte| *byte == b'|') {
        let mut bytes = between(alloc, row, ends)?;
        let mark = bytes.iter().position(|byte| *byte == b'^');
        let _mark = bytes.remove(mark.ok_or("no mark")?);
        assert_eq!(rt; fault_of(alloc, bytes.as_slice())?, mark, "in {row:?}");
    }
    Ok(())
}

#[test]
fn places_of_faults(rt: HostRuntime) -> Result<(), Fail> {
    for rows in FAULTS {
        check_faults(&rt, rt.alloc(), rows, (b"", b""))?;
    }
    for rows in FAULTS_IN_BRACES {
        check_faults(&rt, rt.alloc(), rows, (b"digraph{", b"}"))?;
    }
    Ok(())
}

#[test]
fn ends_of_documents(rt: HostRuntime) -> Result<(), Fail> {
    let (_, end) = read_doc(rt.alloc(), b"#a\nDiGrApH{}/*\xff*/", 0)?;
    assert_eq!(rt; end, 12);
    let (_, end) = read_doc(rt.alloc(), b"digraph G {} digraph H {} // c", 12)?;
    assert_eq!(rt; end, 25);
    Ok(())
}

/// A digraph with so many subgraphs in one another, each opened so.
fn nested(alloc: Global, opener: &str, subgraphs: usize) -> Result<String, AllocError> {
    let mut text = String::from_str(alloc, "digraph{")?;
    for _ in 0..subgraphs {
        text.push_str(opener)?;
    }
    for _ in 0..=subgraphs {
        text.push('}')?;
    }
    Ok(text)
}

#[test]
fn the_opener_of_the_65th_open_subgraph_cannot_follow(rt: HostRuntime) -> Result<(), Fail> {
    for (opener, place) in [("{", 72), ("subgraph{", 584), ("{}subgraph a{", 840)] {
        let within = nested(rt.alloc(), opener, 64)?;
        assert_eq!(rt; fault_of(rt.alloc(), within.as_bytes())?, None, "{opener}");
        let deeper = nested(rt.alloc(), opener, 65)?;
        assert_eq!(rt;
            fault_of(rt.alloc(), deeper.as_bytes())?,
            Some(place),
            "{opener}"
        );
    }
    Ok(())
}

#[test]
fn ends_of_blanks_and_comments(rt: HostRuntime) {
    for (text, want) in [
        (" \t\r\n", Ok(4)),
        ("a b", Ok(0)),
        ("// a\n#b\n/*/**/\tc", Ok(15)),
        (" /**/", Ok(5)),
        (" #", Ok(1)),
        ("# a\r#\n b", Ok(7)),
        (" / ", Ok(1)),
        ("/**/ /*/", Err(5)),
        ("//\n/* * /", Err(3)),
    ] {
        assert_eq!(rt; skip_blank(text.as_bytes(), 0), want, "{text}");
    }
    assert_eq!(rt; skip_blank(b"a #", 1), Ok(2));
}
