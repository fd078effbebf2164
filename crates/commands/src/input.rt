//! An input that was read, whose parts are judged from left to right.
ghost use Rattle.std.specs.Prelude.{◌≡◌, ◌≤◌, length, IfOk};
ghost use Rattle.commands.specs.Judged.{Found};
ghost use Rattle.commands.specs.Parts.{StandsAt, GraphIn, DocumentAt, EndAt, OneGraph};

use crate::refusal::{Refusal, Stop};
use dot_text::{Doc, DocFault, read_doc, skip_blank};
use graph_core::Graph;
use graph_read::{GraphFault, graph_of};
use std::alloc::Global;
use std::marker::Model;

/// The bytes of an input, and where the part that comes next begins.
#[derive(Drop)]
pub(crate) struct Input {
    bytes: Vec<u8>,
    place: usize,
}

impl Model for Input {
    ghost use Rattle.std.specs.Prelude.{◌≤◌, length};
    ghost use Rattle.commands.specs.Parts.{InputState};

    ghost Value = { InputState };

    ghost view = { λ s. record { bytes = s.bytes.items; place = s.place } };

    ghost invariant = { λ s. s.place ≤ length s.bytes.items };
}

impl Input {
    /// An input of these bytes, none of which is judged yet.
    pub(crate) fn new(bytes: Vec<u8>) -> Input
        ensures { result ≡ record { bytes = bytes.items; place = 0 } }
    {
        Input { bytes, place: 0 }
    }

    /// The graph of an input of one document.
    pub(crate) fn one_graph(mut self, alloc: Global) -> Result<Graph, Stop>
        requires { self.place ≡ 0 }
        ensures { Found (λ g. g.graph) (OneGraph self.bytes) result }
    {
        let g = self.document(alloc)?;
        self.end()?;
        Ok(g)
    }

    /// The graph of the document that comes next; what stands behind the document comes then.
    fn document(&mut self, alloc: Global) -> Result<Graph, Stop>
        ensures kept { self.new.bytes ≡ self.old.bytes }
        ensures judged { Found (λ g. (g.graph, self.new.place)) (DocumentAt self.old.bytes self.old.place) result }
    {
        let (document, end) = self.standing(alloc)?;
        let g = graph_in(alloc, &document)?;
        self.place = end;
        Ok(g)
    }

    /// The document that comes next, and where it ends.
    fn standing(&self, alloc: Global) -> Result<(Doc, usize), Stop>
        ensures judged { Found (λ standing. standing) (StandsAt self.now.bytes self.now.place) result }
        ensures within { IfOk result (λ standing. standing.1 ≤ length self.now.bytes) }
    {
        match read_doc(alloc, &self.bytes, self.place) {
            Ok(standing) => Ok(standing),
            Err(DocFault::Syntax(place)) => Err(Stop::Refused(Refusal::Syntax(place))),
            Err(DocFault::NoMemory) => Err(Stop::NoMemory),
        }
    }

    /// Whether nothing but blanks and comments comes any more.
    fn end(&self) -> Result<(), Stop>
        ensures { Found (λ _. tt) (EndAt self.now.bytes self.now.place) result }
    {
        match skip_blank(&self.bytes, self.place) {
            Ok(place) if place == self.bytes.len() => Ok(()),
            Ok(place) => Err(Stop::Refused(Refusal::Syntax(place))),
            Err(place) => Err(Stop::Refused(Refusal::Syntax(place))),
        }
    }
}

/// The graph of a document.
fn graph_in(alloc: Global, document: &Doc) -> Result<Graph, Stop>
    ensures { Found (λ g. g.graph) (GraphIn document.now) result }
{
    match graph_of(alloc, document) {
        Ok(g) => Ok(g),
        Err(GraphFault::Refused(refusal)) => Err(Stop::Refused(Refusal::Graph(refusal))),
        Err(GraphFault::NoMemory) => Err(Stop::NoMemory),
    }
}
