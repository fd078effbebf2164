//! States, how they are read, and how tokens come in and go out.
ghost use Rattle.std.specs.Prelude.{◌≡◌, ◌↔◌, ◌<◌, ◌≤◌, ◌-◌, ◌++◌, ◌∷◌, [], ℕ, Some, IsSome, length, drop, slice_get, Ok, false, IsTrue, MatchOption, IfSome, IfNone, IfOk, IfErr, OnOk, OnErr};
ghost use Rattle.std.specs.Option.{option_copied};
ghost use Rattle.std.specs.FinMap as finite;
ghost use Rattle.port_types.specs.declared.side.Side.{Side};
ghost use Rattle.circuits.specs.Circuit.{circuit_of};
ghost use Rattle.circuits.specs.Firing.{Label};
ghost use Rattle.circuits.specs.Run.{Step};
ghost use Rattle.graph_core.specs.GraphValue.{name_by, port_of};
ghost use Rattle.graph_core.specs.Place.{index_of};
ghost use Rattle.graph_core.specs.Wiring.{HasPort};
ghost use Rattle.states.specs.Enabled.{FiresTo, IsEnabled, IsReadyAt};
ghost use Rattle.states.specs.Ends.{IsEntryFor, IsExitAt};
ghost use Rattle.states.specs.Fired.{HasFired, finished_at};
ghost use Rattle.states.specs.Place.{but_last};
ghost use Rattle.states.specs.Taking.{IsWithin};
ghost use Rattle.states.specs.GraphState.{IsStateIn, place_at, queue_of, state_of, with_queue};

use crate::change::Change;
use crate::firing::settle;
use crate::giving::{change, given};
use crate::kind::kind_at;
use crate::laws::states_stay;
use crate::place::Place;
use crate::queue::Queue;
use crate::ready::ready;
use crate::taking::Taking;
use graph_core::{Graph, NodeId, PortAt};
use port_types::{NoMemory, Token};
use std::marker::Model;

/// A state of a graph: the tokens on each wire, and the slots of each Tagger, oldest first.
#[derive(Debug, Drop)]
pub struct State {
    places: Vec<Place>,
}

impl Model for State {
    ghost use Rattle.std.specs.Coded.{coded_list};
    ghost use Rattle.states.specs.GraphState.{Places};
    ghost use Rattle.states.specs.Place.{place_code};

    ghost Value = { Places };

    ghost coded = { coded_list place_code };

    ghost view = { λ s. s.places.items };
}

impl State {
    /// The state with these places, by the indices of the nodes. Takes no memory.
    pub(crate) fn of_places(places: Vec<Place>) -> State
        ensures { result ≡ places.items }
    {
        State { places }
    }

    /// How many tokens are on the wire into an input of the graph. Takes no memory.
    pub fn queued(&self, g: &Graph, target: PortAt) -> usize
        requires state { IsStateIn g.now self.now }
        requires there { HasPort g.now.graph Side.Ins (port_of g.now target) }
        ensures { result ≡ length ((state_of g.now self.now).wires (port_of g.now target)) }
    {
        g.is_graph();
        self.place(target.node).count(target.port as usize - 1)
    }

    /// The token at this place of the wire into an input of the graph, counted from 0 at the head. `None` exactly where the wire has no more
    /// tokens. Takes no memory.
    pub fn token(&self, g: &Graph, target: PortAt, index: usize) -> Option<&Token>
        requires state { IsStateIn g.now self.now }
        requires there { HasPort g.now.graph Side.Ins (port_of g.now target) }
        ensures { option_copied result ≡ slice_get ((state_of g.now self.now).wires (port_of g.now target)) index }
    {
        g.is_graph();
        self.place(target.node)
            .token(target.port as usize - 1, index)
    }

    /// How many slots a node of the graph has: none, if it is no Tagger. Takes no memory.
    pub fn slot_count(&self, g: &Graph, tagger: NodeId) -> usize
        requires state { IsStateIn g.now self.now }
        requires live { IsSome (finite.get g.now.ids tagger) }
        ensures { result ≡ length ((state_of g.now self.now).slots (name_by g.now.ids tagger)) }
    {
        g.is_graph();
        self.place(tagger).slots().len()
    }

    /// Whether a node of the graph can fire with the choice, by the row of its kind. Takes no memory.
    pub fn enabled(&self, g: &Graph, node: NodeId, choice: u32) -> bool
        requires state { IsStateIn g.now self.now }
        requires live { IsSome (finite.get g.now.ids node) }
        ensures { IsTrue result ↔ IsEnabled g.now self.now node choice }
    {
        g.is_graph();
        ready(kind_at(g, node), self.place(node), choice).is_some()
    }

    /// Puts a token that fits in at an Entry of the graph. Want of memory hands the token back, and leaves the state as it was.
    pub fn feed(&mut self, g: &Graph, entry: NodeId, token: Token) -> Result<(), Token>
        requires state { IsStateIn g.now self.old }
        requires entry { IsEntryFor g.now entry token }
        ensures state { IsStateIn g.now self.new }
        ensures ok { OnOk result (Step (circuit_of g.now.graph) (state_of g.now self.old) (name_by g.now.ids entry) (Label.Feed token) (state_of g.now self.new)) }
        ensures back { IfErr result (λ back. back ≡ token) }
        ensures err { OnErr result (self.new ≡ self.old) }
    {
        g.is_graph();
        states_stay();
        let target = g.target_of(PortAt {
            node: entry,
            port: 1,
        });
        self.push(target, token)
    }

    /// Takes the token at the head of the wire into an Exit of the graph. `None` exactly where the wire is empty; the state is then as it was.
    /// Takes no memory.
    pub fn take(&mut self, g: &Graph, exit: NodeId) -> Option<Token>
        requires state { IsStateIn g.now self.old }
        requires exit { IsExitAt g.now exit }
        ensures state { IsStateIn g.now self.new }
        ensures some { IfSome result (λ token. Step (circuit_of g.now.graph) (state_of g.now self.old) (name_by g.now.ids exit) (Label.Take token) (state_of g.now self.new)) }
        ensures none { IfNone result ((state_of g.now self.old).wires (record { node = name_by g.now.ids exit; port = 1 }) ≡ []) }
        ensures same { IfNone result (self.new ≡ self.old) }
    {
        g.is_graph();
        states_stay();
        self.pop(PortAt {
            node: exit,
            port: 1,
        })
    }

    /// Fires a node of the graph with the choice, by the row of its kind. `Ok(false)` exactly where it cannot fire with it; the state is then as it
    /// was. The only error is want of memory, and leaves the state as it was too.
    pub fn fire(&mut self, g: &Graph, node: NodeId, choice: u32) -> Result<bool, NoMemory>
        requires state { IsStateIn g.now self.old }
        requires live { IsSome (finite.get g.now.ids node) }
        ensures state { IsStateIn g.now self.new }
        ensures fired { IfOk result (HasFired g.now self.old node choice self.new) }
        ensures cannot { (result ≡ Ok false) ↔ ¬ (IsEnabled g.now self.old node choice) }
        ensures err { OnErr result (self.new ≡ self.old) }
    {
        g.is_graph();
        match self.taking(g, node, choice) {
            None => Ok(false),
            Some(taking) => match self.fire_taking(g, node, choice, taking) {
                Ok(()) => Ok(true),
                Err(NoMemory) => Err(NoMemory),
            },
        }
    }

    /// What a node of the graph takes when it fires with the choice. `None` exactly where it cannot.
    fn taking(&self, g: &Graph, node: NodeId, choice: u32) -> Option<Taking>
        requires state { IsStateIn g.now self.now }
        requires live { IsSome (finite.get g.now.ids node) }
        ensures { MatchOption result (¬ (IsEnabled g.now self.now node choice)) (IsReadyAt g.now self.now node choice) }
    {
        g.is_graph();
        ready(kind_at(g, node), self.place(node), choice)
    }

    /// Fires a node that can fire, and takes this. The only error is want of memory, and leaves the state as it was.
    fn fire_taking(
        &mut self,
        g: &Graph,
        node: NodeId,
        choice: u32,
        taking: Taking,
    ) -> Result<(), NoMemory>
        requires state { IsStateIn g.now self.old }
        requires live { IsSome (finite.get g.now.ids node) }
        requires ready { IsReadyAt g.now self.old node choice taking }
        ensures state { OnOk result (IsStateIn g.now self.new) }
        ensures fires { OnOk result (FiresTo g.now self.old node choice (state_of g.now self.new)) }
        ensures err { OnErr result (self.new ≡ self.old) }
    {
        g.is_graph();
        states_stay();
        let kind = kind_at(g, node);
        let alloc = *self.places.allocator();
        let given = given(alloc, kind, self.place(node), choice)?;
        let change = change(alloc, kind, self.place(node), choice)?;
        let output = PortAt { node, port: 1 };
        settle(self, g, output, Queue::of_items(given), taking, change)
    }

    /// What stands at a node.
    pub(crate) fn place(&self, node: NodeId) -> &Place
        requires { index_of node < length self.now }
        ensures { result.now ≡ place_at self.now node }
    {
        &self.places[node.index()]
    }

    /// Puts a token on the wire into an input. Want of memory hands it back, and leaves the state as it was.
    pub(crate) fn push(&mut self, target: PortAt, token: Token) -> Result<(), Token>
        requires node { index_of target.node < length self.old }
        requires some { 1 ≤ target.port }
        requires few { target.port ≤ length (place_at self.old target.node).queues }
        ensures ok { OnOk result (self.new ≡ with_queue self.old target (queue_of self.old target ++ token ∷ [])) }
        ensures back { IfErr result (λ back. back ≡ token) }
        ensures err { OnErr result (self.new ≡ self.old) }
    {
        self.places[target.node.index()].push(target.port as usize - 1, token)
    }

    /// Takes the token at the head of the wire into an input. `None` exactly where there is none. Takes no memory.
    fn pop(&mut self, target: PortAt) -> Option<Token>
        requires node { index_of target.node < length self.old }
        requires some { 1 ≤ target.port }
        requires few { target.port ≤ length (place_at self.old target.node).queues }
        ensures result { result ≡ slice_get (queue_of self.old target) 0 }
        ensures rest { self.new ≡ with_queue self.old target (drop 1 (queue_of self.old target)) }
    {
        self.places[target.node.index()].pop(target.port as usize - 1)
    }

    /// Takes the last token on the wire into an input out again. Takes no memory.
    pub(crate) fn take_back(&mut self, target: PortAt)
        requires node { index_of target.node < length self.old }
        requires some { 1 ≤ target.port }
        requires few { target.port ≤ length (place_at self.old target.node).queues }
        ensures { self.new ≡ with_queue self.old target (but_last (queue_of self.old target)) }
    {
        self.places[target.node.index()].take_back(target.port as usize - 1);
    }

    /// Takes tokens from the inputs of a node, and changes its slots. The only error is want of memory, and leaves the state as it was.
    pub(crate) fn finish(
        &mut self,
        node: NodeId,
        taking: Taking,
        change: Change,
    ) -> Result<(), NoMemory>
        requires node { index_of node < length self.old }
        requires within { IsWithin taking (length (place_at self.old node).queues) }
        ensures ok { OnOk result (self.new ≡ finished_at self.old node taking change) }
        ensures err { OnErr result (self.new ≡ self.old) }
    {
        let place = &mut self.places[node.index()];
        place.change(change)?;
        place.take(taking);
        Ok(())
    }
}
