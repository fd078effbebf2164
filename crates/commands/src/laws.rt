//! Laws of verdicts, which tell what the contract of a run means.
ghost use Rattle.commands.specs.Laws.{HasVerdict, IsOneVerdict, GraphsAreTyped, GraphInputs, StrippedCanBeRead, AnswersReadBack, AnswersRefine, AnswersDrain, AnswersHaveForm};

use circuits::{graph_typed_as_circuit, refines_itself};
use dot_text::{
    document_looks_no_further, one_document, one_place, reading_decides, skipping_decides,
};
use graph_read::read_graphs_are_typed;
use read_back::{print_of_print, read_texts_can_be_quoted};
use rewrite::{one_stripped_graph, only_rings_are_left, stripped_drains, stripped_refines};

/// A command that runs has one verdict on each input.
pub fn one_verdict()
    ensures some { HasVerdict }
    ensures one { IsOneVerdict }
{
    reading_decides();
    document_looks_no_further();
    skipping_decides();
    one_document();
    one_place();
    read_graphs_are_typed();
    one_stripped_graph();
}

/// The graph of an input is typed.
pub fn graphs_are_typed()
    ensures { GraphsAreTyped }
{
    read_graphs_are_typed();
}

/// An input is judged to be one graph exactly where it is an input of this graph.
pub fn graph_inputs()
    ensures { GraphInputs }
{}

/// The stripped graph of a graph that is within the limits of reading, and whose kept texts can be quoted and are UTF-8, is so too.
pub fn stripped_can_be_read()
    ensures { StrippedCanBeRead }
{
    stripped_refines();
}

/// An answer is the text of a graph that can be read, an input of this graph and of no other.
pub fn answers_read_back()
    ensures { AnswersReadBack }
{
    print_of_print();
    read_texts_can_be_quoted();
    stripped_can_be_read();
}

/// The graph of an answer refines the one of the input and drains what it drains, and has the form that the command gives.
pub fn answers_keep_behaviour()
    ensures refines { AnswersRefine }
    ensures drains { AnswersDrain }
    ensures form { AnswersHaveForm }
{
    print_of_print();
    read_texts_can_be_quoted();
    stripped_can_be_read();
    refines_itself();
    graph_typed_as_circuit();
    graphs_are_typed();
    only_rings_are_left();
    stripped_refines();
    stripped_drains();
}
