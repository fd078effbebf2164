//! Reports.
ghost use Rattle.std.specs.Prelude.{◌≡◌, ◌++◌, string_bytes, OnOk, IfOk};
ghost use Rattle.std.specs.Fmt.{decimal};
ghost use Rattle.graph_core.specs.GraphValue.{name_by};
ghost use Rattle.token_sim.specs.ReportText.{behind_dots, drained_text, finish_text, output_text, outputs_text, report_text, token_text, tokens_text};

use graph_core::{Graph, NodeId};
use port_types::{Items, NoMemory, Token};
use std::alloc::Global;
use std::fmt::Write;

/// How a simulation ended.
#[derive(Clone, Copy, Debug, PartialEq, Eq)]
pub enum Finish {
    /// No node fired in a whole pass.
    Quiet,
    /// All firings that were allowed were made, and one more could be.
    Stopped,
}

/// What came of a simulation.
#[derive(Debug, Drop)]
pub struct Report {
    /// The Exits in the byte order of their names, each with its tokens.
    pub outputs: Items<(NodeId, Items<Token>)>,
    pub firings: u64,
    pub finish: Finish,
    /// Whether it ended quiet and no token is left over: no slot is taken, and each wire that enters no Exit holds what it holds at rest.
    pub drained: bool,
}

/// The text of a report: a line for each Exit with its tokens, as `g: 6 7 5`, then `quiet after 76 firings` or `stopped after 76 firings`, and then `drained yes` or `drained no`.
/// The only error is want of memory.
pub fn report_text(alloc: Global, g: &Graph, report: &Report) -> Result<Vec<u8>, NoMemory>
    ensures { IfOk result (λ text. text.items ≡ report_text g.now report.now) }
{
    let mut text = String::new(alloc);
    push_outputs(&mut text, g, report.outputs.as_slice())?;
    push_finish(&mut text, report.finish, report.firings)?;
    push_drained(&mut text, report.drained)?;
    Ok(text.into_bytes())
}

/// Appends the lines of the Exits.
fn push_outputs(
    text: &mut String,
    g: &Graph,
    outputs: &[(NodeId, Items<Token>)],
) -> Result<(), NoMemory>
    ensures { OnOk result (string_bytes text.new ≡ string_bytes text.old ++ outputs_text g.now outputs.now) }
{
    for output in outputs {
        push_output(text, g, output.0, output.1.as_slice())?;
    }
    Ok(())
}

/// Appends the line of an Exit.
fn push_output(text: &mut String, g: &Graph, exit: NodeId, tokens: &[Token]) -> Result<(), NoMemory>
    ensures { OnOk result (string_bytes text.new ≡ string_bytes text.old ++ output_text (name_by g.now.ids exit) tokens.now) }
{
    push_name(text, g, exit)?;
    text.push(':')?;
    push_tokens(text, tokens)?;
    text.push('\n')?;
    Ok(())
}

/// Appends each token behind a blank.
fn push_tokens(text: &mut String, tokens: &[Token]) -> Result<(), NoMemory>
    ensures { OnOk result (string_bytes text.new ≡ string_bytes text.old ++ tokens_text tokens.now) }
{
    for token in tokens {
        text.push(' ')?;
        push_token(text, token.fields())?;
    }
    Ok(())
}

/// Appends the name of a node.
fn push_name(text: &mut String, g: &Graph, node: NodeId) -> Result<(), NoMemory>
    ensures { OnOk result (string_bytes text.new ≡ string_bytes text.old ++ name_by g.now.ids node) }
{
    if let Some(node) = g.node(node) {
        text.push_str(node.name.as_str())?;
    }
    Ok(())
}

/// Appends the text of a token: its numbers in decimal, joined by dots.
fn push_token(text: &mut String, numbers: &[u64]) -> Result<(), NoMemory>
    ensures { OnOk result (string_bytes text.new ≡ string_bytes text.old ++ token_text numbers.now) }
{
    match numbers {
        [] => Ok(()),
        [first, more @ ..] => {
            push_decimal(text, *first)?;
            push_behind_dots(text, more)
        }
    }
}

/// Appends each number behind a dot, in decimal.
fn push_behind_dots(text: &mut String, numbers: &[u64]) -> Result<(), NoMemory>
    ensures { OnOk result (string_bytes text.new ≡ string_bytes text.old ++ behind_dots numbers.now) }
{
    for number in numbers {
        text.push('.')?;
        push_decimal(text, *number)?;
    }
    Ok(())
}

/// Appends a number in decimal.
fn push_decimal(text: &mut String, number: u64) -> Result<(), NoMemory>
    ensures { OnOk result (string_bytes text.new ≡ string_bytes text.old ++ decimal number) }
{
    write!(text, "{number}")?;
    Ok(())
}

/// Appends the line that says how the simulation ended.
fn push_finish(text: &mut String, finish: Finish, firings: u64) -> Result<(), NoMemory>
    ensures { OnOk result (string_bytes text.new ≡ string_bytes text.old ++ finish_text finish firings) }
{
    text.push_str(match finish {
        Finish::Quiet => "quiet after ",
        Finish::Stopped => "stopped after ",
    })?;
    push_decimal(text, firings)?;
    text.push_str(" firings\n")?;
    Ok(())
}

/// Appends the line that says whether a token is left over.
fn push_drained(text: &mut String, drained: bool) -> Result<(), NoMemory>
    ensures { OnOk result (string_bytes text.new ≡ string_bytes text.old ++ drained_text drained) }
{
    text.push_str(if drained {
        "drained yes\n"
    } else {
        "drained no\n"
    })?;
    Ok(())
}
