//! The words of the command line.
use super::{CALM, Setting, Wanted, check_run, parts_of};
use std::process::Abort;
use std::test::Fail;

/// Lines of commands, by the status that they get where the first read would fail: 6 shows that the command reads.
fn commands() -> &'static str {
    "6 read failed => print, strip, -- print, strip --
10 not yet => gather, unfold, rewrite, trace, loops, check, sim, sim 0, sim 7, sim 10000000, gen 1, gen 2000
10 not yet => -- gather, check --, -- sim 5, sim -- 5, gen 5 --
1 usage => , frob, Print, --, -- --, -- -- print, -- print --, -- sim -- 5, --- print, print 5, print strip, gen, sim 5 6
1 usage => sim , sim  5, sim 10000001, sim 18446744073709551616, sim 18446744073709551621, sim 05, sim 00, sim +5, sim -5, sim 5x
1 usage => gen 0, gen 2001, gen 01"
}

fn check_words(rt: &(impl Abort + AllocGlobal), words: &[&str], status: &str) -> Result<(), Fail> {
    let (number, text) = status.split_once(' ').ok_or("a status without a line")?;
    let line = if text == "usage" {
        "graphiti: usage: print, strip, gather, unfold, rewrite, trace, loops, sim [LIMIT], check, gen N\n"
    } else if text == "not yet" {
        "graphiti: not yet\n"
    } else {
        "graphiti: read failed\n"
    };
    let setting = Setting {
        failing_read: 1,
        ..CALM
    };
    let wanted = Wanted::refused(number.parse()?, line);
    check_run(rt, setting, words, b"digraph {}", wanted)
}

#[test]
fn words_name_commands(rt: HostRuntime) -> Result<(), Fail> {
    let alloc = rt.alloc();
    for row in commands().lines() {
        let (status, commands) = parts_of(row)?;
        for command in commands.split(", ") {
            let words: Vec<&str> = command.split(' ').collect(alloc)?;
            check_words(&rt, &words, status)?;
        }
    }
    check_words(&rt, &[], "1 usage")
}
