use port_types::{
    Items, NoMemory, Port, PortFault, Shape, Side, Text, Token, fits, is_shape, print_port_name,
    print_ports, read_decimal, read_hexadecimal, read_numeral, read_port_name, read_ports,
    same_shape, tag_width, text_behind,
};
use std::alloc::{AllocError, AllocFailed, Global};
use std::test::Fail;

fn shape_of(alloc: Global, widths: &[u8]) -> Result<Shape, Fail> {
    Ok(Shape::new(widths.to_vec(alloc)?).ok_or("no shape")?)
}

fn text_of(alloc: Global, text: &str) -> Result<Text, Fail> {
    Ok(Text::new(text.as_bytes().to_vec(alloc)?).ok_or("no text")?)
}

/// The printed text of the ports that a text says.
fn again(alloc: Global, text: &str, side: Side) -> Result<Text, Fail> {
    let ports: Items<Port> = read_ports(alloc, text.as_bytes(), side)?;
    Ok(print_ports(alloc, ports.as_slice(), side)?)
}

#[test]
fn ports_are_read_and_printed(rt: HostRuntime) -> Result<(), Fail> {
    let rows = [
        (" \t ", ""),
        ("in1:32 ", "in1:32"),
        (
            "\tin1?:1  in2+:8\t\tin3-:4.32.0",
            "in1?:1 in2+:8 in3-:4.32.0",
        ),
    ];
    for (text, want) in rows {
        assert_eq!(rt; again(rt.alloc(), text, Side::Ins)?.as_str(), want);
    }
    let text = again(rt.alloc(), "out1:8 out2?:64", Side::Outs)?;
    assert_eq!(rt; text.as_str(), "out1:8 out2?:64");
    Ok(())
}

#[test]
fn the_first_faulty_word_counts(rt: HostRuntime) -> Result<(), Fail> {
    let rows = [
        ("in3*l0d:32", PortFault::MemoryPort),
        ("in1:65 in2*:8", PortFault::TooWide),
        ("in2:8 in2*:8", PortFault::BadPort),
        ("in1:99999999999999999999", PortFault::TooWide),
        ("in1:065.65", PortFault::BadPort),
        ("in1:8..8", PortFault::BadPort),
        ("in1??:1", PortFault::BadPort),
        ("in01:8", PortFault::BadPort),
        ("in1:8\rin2:8", PortFault::BadPort),
    ];
    for (text, want) in rows {
        let read = read_ports(rt.alloc(), text.as_bytes(), Side::Ins);
        assert_eq!(rt; read.err(), Some(want), "{text:?}");
    }
    Ok(())
}

/// A word and a piece so many times behind it.
fn repeated(alloc: Global, word: &str, piece: &str, count: usize) -> Result<String, Fail> {
    let mut text = String::from_str(alloc, word)?;
    for _ in 0..count {
        text.push_str(piece)?;
    }
    Ok(text)
}

#[test]
fn a_port_has_at_most_128_fields(rt: HostRuntime) -> Result<(), Fail> {
    let widest = repeated(rt.alloc(), "in1:7", ".7", 127)?;
    assert!(rt; read_ports(rt.alloc(), widest.as_bytes(), Side::Ins).is_ok());
    let wider = repeated(rt.alloc(), "in1:7", ".7", 128)?;
    let read = read_ports(rt.alloc(), wider.as_bytes(), Side::Ins);
    assert_eq!(rt; read.err(), Some(PortFault::TooWide));
    Ok(())
}

#[test]
fn names_of_ports(rt: HostRuntime) -> Result<(), Fail> {
    let name = print_port_name(rt.alloc(), Side::Outs, 64)?;
    assert_eq!(rt; name.as_str(), "out64");
    let rows = [
        ("in255", Some(255)),
        ("in256", None),
        ("in0", None),
        ("in01", None),
        ("out1", None),
    ];
    for (text, want) in rows {
        assert_eq!(rt; read_port_name(text.as_bytes(), Side::Ins), want, "{text}");
    }
    Ok(())
}

#[test]
fn numbers(rt: HostRuntime) -> Result<(), Fail> {
    let rows = [
        ("0", Some(0), Some(0), Some(0)),
        ("18446744073709551615", Some(u64::MAX), Some(u64::MAX), None),
        ("18446744073709551616", None, None, None),
        ("007", None, Some(7), Some(7)),
        ("fF", None, None, Some(255)),
        ("", None, None, None),
        ("1 ", None, None, None),
    ];
    for (text, numeral, decimal, hexadecimal) in rows {
        assert_eq!(rt; read_numeral(text.as_bytes()), numeral, "{text}");
        assert_eq!(rt; read_decimal(text.as_bytes()), decimal, "{text}");
        assert_eq!(rt; read_hexadecimal(text.as_bytes()), hexadecimal, "{text}");
    }
    assert_eq!(rt; text_behind(b"0x", b"0x1f"), Some(b"1f".as_slice()));
    Ok(())
}

#[test]
fn shapes(rt: HostRuntime) -> Result<(), Fail> {
    let alloc = rt.alloc();
    for (fields, width, want) in [
        (0, 1, false),
        (128, 64, true),
        (129, 64, false),
        (1, 65, false),
    ] {
        assert_eq!(rt;
            is_shape(&vec![in alloc; width; fields]?),
            want,
            "{fields} of {width}"
        );
    }
    let shape = shape_of(alloc, &[4, 32])?;
    let copy = shape.clone()?;
    assert_eq!(rt; copy.widths(), [4, 32].as_slice());
    assert!(rt; same_shape(&shape, &copy) && !same_shape(&shape, &shape_of(alloc, &[32, 4])?));
    Ok(())
}

#[test]
fn tokens_that_fit(rt: HostRuntime) -> Result<(), Fail> {
    let shape = shape_of(rt.alloc(), &[0, 64])?;
    for (numbers, want) in [([0, u64::MAX], true), ([1, 0], false)] {
        let token = Token::new(numbers.to_vec(rt.alloc())?);
        assert_eq!(rt; token.fields(), numbers.as_slice());
        assert_eq!(rt; fits(&shape, &token), want, "{numbers:?}");
    }
    Ok(())
}

#[test]
fn texts_are_utf8(rt: HostRuntime) -> Result<(), Fail> {
    let alloc = rt.alloc();
    assert!(rt; Text::new([0xc3].to_vec(alloc)?).is_none());
    let text = text_of(alloc, "a\u{20ac}")?;
    let copy = text.clone()?;
    assert_eq!(rt; copy.bytes(), "a\u{20ac}".as_bytes());
    assert!(rt; text == copy && text != text_of(alloc, "a")?);
    Ok(())
}

#[test]
fn items_and_tags(rt: HostRuntime) -> Result<(), Fail> {
    let items = Items::new([3u8, 1].to_vec(rt.alloc())?);
    assert_eq!(rt; items.as_slice(), [3, 1].as_slice());
    assert!(rt; items.clone()? == items);
    assert_eq!(rt; items.into_vec().as_slice(), [3, 1].as_slice());
    for (tags, want) in [(1, 1), (2, 1), (3, 2), (128, 7), (129, 8), (256, 8)] {
        assert_eq!(rt; tag_width(tags), want, "{tags}");
    }
    Ok(())
}

#[test]
fn errors_become_no_memory(rt: HostRuntime) -> Result<(), Fail> {
    let unmade: NoMemory = AllocError.into();
    let unpushed: NoMemory = AllocFailed { value: 7u8 }.into();
    assert_eq!(rt; unmade, unpushed);
    assert_eq!(rt; format!(in rt.alloc(); "{unmade}")?.as_str(), "no memory");
    Ok(())
}
