//! Laws of what is printed and read: canonical documents first, then texts.
ghost use Rattle.read_back.specs.CanonicalReading.{CanonicalReadsBack, ReadFits};
ghost use Rattle.read_back.specs.CanonicalTexts.{CanonicalPrints, ReadTexts};
ghost use Rattle.read_back.specs.ReadBack.{TextReadsBack, ReadCanBeRead, PrintReadsBack, InputIsOneGraph, PrintOfPrint, TextTellsGraph};

use components::{ports_are_shapes, words_read_back};
use dot_text::{
    one_document, printed_document_is_utf8, printed_document_stands, standing_document_prints,
};
use fun_expr::{printed_is_text, text_is_plain};
use graph_read::{numbers_read_back, read_graphs_are_typed, rows_are_met, rows_read_back};
use port_types::{reads_back, reads_ports};

/// The canonical document of a graph within the limits of reading is read as that graph.
pub fn canonical_document_reads_back()
    ensures { CanonicalReadsBack }
{
    words_read_back();
    ports_are_shapes();
    reads_ports();
    reads_back();
    rows_read_back();
    numbers_read_back();
    printed_is_text();
}

/// The canonical document of a graph within the limits of reading can be printed, where the texts that the graph keeps can be quoted
/// and are UTF-8.
pub fn canonical_document_prints()
    ensures { CanonicalPrints }
{
    ports_are_shapes();
    printed_is_text();
    text_is_plain();
}

/// The canonical text of such a graph is an input of that graph.
pub fn text_reads_back()
    ensures { TextReadsBack }
{
    printed_document_stands();
    printed_document_is_utf8();
    canonical_document_reads_back();
    canonical_document_prints();
}

/// In a graph that is read the values of Constants fit 64 bits and no kept attribute is one that its kind owns. What it keeps can be
/// quoted where the texts of the document can, and is UTF-8 where they are.
pub fn read_graph_fits()
    ensures fits { ReadFits }
    ensures texts { ReadTexts }
{
    reads_ports();
    rows_are_met();
}

/// A graph that was read is within the limits of reading, and the texts that it keeps can be quoted and are UTF-8.
pub fn read_texts_can_be_quoted()
    ensures { ReadCanBeRead }
{
    standing_document_prints();
    read_graphs_are_typed();
    read_graph_fits();
}

/// What is printed of a graph that was read is an input of that graph and of no other, so printing it again gives the same text. So is
/// what is printed of any graph within the limits of reading, whose kept texts can be quoted and are UTF-8.
pub fn print_of_print()
    ensures back { PrintReadsBack }
    ensures one { InputIsOneGraph }
    ensures same { PrintOfPrint }
    ensures tells { TextTellsGraph }
{
    one_document();
    text_reads_back();
    read_texts_can_be_quoted();
}
