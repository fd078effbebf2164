//! What is printed of a graph reads back as that graph. There are no calls here but laws, each the contract of a function that
//! does nothing.
//!
//! The definitions, in `specs/`:
//!
//! - `Input`: a whole input: one document, with only blanks and comments behind it, which is a graph.
//! - `CanonicalReading`: graphs within the limits of reading, and what their canonical documents are read as. `CanonicalTexts`:
//!   that the texts of these documents can be written.
//! - `ReadBack`: graphs that can be read, the text of a graph, and what holds of texts as inputs.
//!
//! The laws:
//!
//! - `canonical_document_reads_back`, `canonical_document_prints`: the canonical document of a graph within the limits is read as
//!   that graph, and can be printed.
//! - `text_reads_back`: so the canonical text of such a graph is an input of it.
//! - `read_graph_fits`, `read_texts_can_be_quoted`: a graph that was read is within the limits, and what it keeps can be written.
//! - `print_of_print`: an input is that of one graph, what is printed is an input of the printed graph alone, and printing it
//!   again gives the same text.
#![tactic(auto)]

mod laws;

pub use laws::{
    canonical_document_prints, canonical_document_reads_back, print_of_print, read_graph_fits,
    read_texts_can_be_quoted, text_reads_back,
};
