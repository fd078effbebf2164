use fun_expr::{Expr, Fun, FunFault, check_fun, eval, print_fun, read_fun, same_fun};
use port_types::{Items, Shape, Token, fits};
use std::alloc::Global;
use std::test::Fail;

/// Texts on the shape `8.8`, with what is wrong with each.
const FAULTS: [(&str, FunFault); 14] = [
    ("", FunFault::FunSyntax(0)),
    ("add:8(#0,#1)-> #2", FunFault::FunSyntax(12)),
    ("#0 -> #00", FunFault::FunSyntax(8)),
    ("->#0", FunFault::FunSyntax(2)),
    ("add:8() -> #0", FunFault::FunSyntax(6)),
    ("sl:8(#0,#1) -> #0", FunFault::FunSyntax(2)),
    ("add:8(#0", FunFault::FunSyntax(8)),
    ("8'256 -> #9", FunFault::FunIndex),
    ("add:8(#0,#2) -> #0", FunFault::FunIndex),
    ("#2;#0 -> #0", FunFault::FunIndex),
    ("add:8(#0) -> #0", FunFault::FunTypes),
    ("8'256 -> #0", FunFault::FunTypes),
    ("65'0 -> #0", FunFault::FunTypes),
    ("->", FunFault::FunTypes),
];

/// Texts on the shape `8.8` that are functions, each with a token and what it gives for it.
const FUNCTIONS: [(&str, [u64; 2], &[u64]); 4] = [
    ("-> #1 #0 #1", [1, 2], &[2, 1, 2]),
    ("add:8(#0,#1) -> #2 #0", [250, 10], &[4, 250]),
    (
        "64'18446744073709551615;0'0 -> #2 #3",
        [0, 0],
        &[u64::MAX, 0],
    ),
    (
        "urem:8(#0,#1);ne:1(#2,8'0);select:8(#3,#0,#1) -> #4 #3",
        [12, 5],
        &[12, 1],
    ),
];

/// Texts of a front, some bytes so many times, and an end, with what is wrong with each.
const REPEATED: [(&str, &str, usize, &str, Option<FunFault>); 6] = [
    ("#0", ";#0", 16_383, " -> #0", None),
    ("#0", ";#9", 16_384, " -> #0", Some(FunFault::FunTooBig)),
    ("-> #1", "0", 99, "", Some(FunFault::FunIndex)),
    ("1", "0", 99, "'0 -> #3", Some(FunFault::FunIndex)),
    ("1", "0", 99, "'0 -> #2", Some(FunFault::FunTypes)),
    ("64'1", "0", 99, " -> #2", Some(FunFault::FunTypes)),
];

fn shape_of(alloc: Global, widths: &[u8]) -> Result<Shape, Fail> {
    Ok(Shape::new(widths.to_vec(alloc)?).ok_or("no shape")?)
}

/// What a text is read as on the shape `8.8`.
fn read(alloc: Global, text: &[u8]) -> Result<Result<Fun, FunFault>, Fail> {
    let input = shape_of(alloc, &[8, 8])?;
    Ok(read_fun(alloc, text, &input))
}

/// What is wrong with a text.
fn fault_of(alloc: Global, text: &[u8]) -> Result<Option<FunFault>, Fail> {
    match read(alloc, text)? {
        Ok(_) => Ok(None),
        Err(fault) => Ok(Some(fault)),
    }
}

fn function_of(alloc: Global, text: &str) -> Result<Fun, Fail> {
    match read(alloc, text.as_bytes())? {
        Ok(fun) => Ok(fun),
        Err(_) => Err("no function".into()),
    }
}

/// Whether a text is printed again of the function that it says, and a copy of the function is the same.
fn comes_back(alloc: Global, text: &str) -> Result<bool, Fail> {
    let fun = function_of(alloc, text)?;
    let copy = fun.clone()?;
    let printed = print_fun(alloc, &copy)?;
    Ok(same_fun(&fun, &copy) && printed.bytes() == text.as_bytes())
}

/// What the function of a text gives.
fn value_of(alloc: Global, text: &str, numbers: &[u64]) -> Result<Option<Token>, Fail> {
    let fun = function_of(alloc, text)?;
    let token = Token::new(numbers.to_vec(alloc)?);
    if !fits(&fun.input, &token) {
        return Ok(None);
    }
    Ok(Some(eval(alloc, &fun, &token)?))
}

/// Whether the function of a text gives these numbers.
fn computes(alloc: Global, text: &str, numbers: &[u64], value: &[u64]) -> Result<bool, Fail> {
    match value_of(alloc, text, numbers)? {
        Some(token) => Ok(token.fields() == value),
        None => Ok(false),
    }
}

/// A text, then another one so many times, and a third one.
fn repeated(
    alloc: Global,
    first: &str,
    again: &str,
    count: usize,
    last: &str,
) -> Result<Vec<u8>, Fail> {
    let mut text = first.as_bytes().to_vec(alloc)?;
    for _ in 0..count {
        text.extend_from_slice(again.as_bytes())?;
    }
    text.extend_from_slice(last.as_bytes())?;
    Ok(text)
}

/// What is wrong with an operator of one argument within itself, so many times.
fn fault_of_nested(alloc: Global, count: usize) -> Result<Option<FunFault>, Fail> {
    let mut text = repeated(alloc, "", "ret:8(", count, "#0")?;
    let end = repeated(alloc, "", ")", count, " -> #2")?;
    text.extend_from_slice(&end)?;
    fault_of(alloc, &text)
}

fn fault_of_repeated(
    alloc: Global,
    first: &str,
    again: &str,
    count: usize,
    last: &str,
) -> Result<Option<FunFault>, Fail> {
    let text = repeated(alloc, first, again, count, last)?;
    fault_of(alloc, &text)
}

#[test]
fn faults_of_texts(rt: HostRuntime) -> Result<(), Fail> {
    for (text, fault) in FAULTS {
        assert_eq!(rt; fault_of(rt.alloc(), text.as_bytes())?, Some(fault));
    }
    Ok(())
}

#[test]
fn functions_read_print_and_compute(rt: HostRuntime) -> Result<(), Fail> {
    for (text, numbers, value) in FUNCTIONS {
        assert!(rt; comes_back(rt.alloc(), text)?);
        assert!(rt; computes(rt.alloc(), text, &numbers, value)?);
    }
    Ok(())
}

#[test]
fn sizes_and_numerals_at_their_limits(rt: HostRuntime) -> Result<(), Fail> {
    for (first, again, count, last, fault) in REPEATED {
        assert_eq!(rt;
            fault_of_repeated(rt.alloc(), first, again, count, last)?,
            fault
        );
    }
    Ok(())
}

#[test]
fn depths_at_their_limit(rt: HostRuntime) -> Result<(), Fail> {
    assert_eq!(rt; fault_of_nested(rt.alloc(), 63)?, None);
    assert_eq!(rt; fault_of_nested(rt.alloc(), 64)?, Some(FunFault::FunTooBig));
    Ok(())
}

/// A function of one literal.
fn made(alloc: Global) -> Result<Option<Fun>, Fail> {
    let mut binds = Vec::new(alloc);
    binds.push(Expr::Lit(4, 15))?;
    let outs = [1, 0].to_vec(alloc)?;
    let input = shape_of(alloc, &[8])?;
    Ok(Fun::new(input, Items::new(binds), Items::new(outs)))
}

fn gives(alloc: Global, fun: &Fun, widths: &[u8]) -> Result<bool, Fail> {
    let shape = shape_of(alloc, widths)?;
    Ok(check_fun(fun, &shape))
}

#[test]
fn functions_from_their_parts(rt: HostRuntime) -> Result<(), Fail> {
    let fun = made(rt.alloc())?.ok_or("no function")?;
    assert!(rt; gives(rt.alloc(), &fun, &[4, 8])?);
    assert!(rt; !gives(rt.alloc(), &fun, &[8, 4])?);
    Ok(())
}
