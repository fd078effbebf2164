//! Documents of the DOT profile.
#![tactic(auto)]

mod blanks;
mod depth;
mod doc;
mod laws;
mod lexical;
mod machine;
mod print;
mod reader;
mod runs;
mod scan;
mod state;
mod token;

pub use blanks::skip_blank;
pub use doc::{Doc, DocEdge, DocFault, DocNode};
pub use laws::{
    document_is_utf8, document_looks_no_further, machine_decides, one_document, one_place,
    printed_document_is_utf8, printed_document_stands, reading_decides, skipping_decides,
    standing_document_prints, stream_decides, stream_ends_at_once, token_is_longest,
};
pub use print::print_doc;
pub use reader::read_doc;
