//! The words of the table of components.
ghost use Rattle.std.specs.Prelude.{◌≡◌, find, bytes_eq};
ghost use Rattle.components.specs.Component.{component_at, component_of, second_spelling, word_of};

use crate::kind::Kind;

/// A row of the table of components: what the `type` of a node names.
#[derive(Clone, Copy, Debug, PartialEq, Eq)]
pub enum Component {
    Entry,
    Exit,
    Buffer,
    Fork,
    Join,
    Split,
    Operator,
    Constant,
    Source,
    Sink,
    Pure,
    Mux,
    Branch,
    Merge,
    CtrlMerge,
    Init,
    Tagger,
}

/// All components, in the order of the table.
const ALL: [Component; 17] = [
    Component::Entry,
    Component::Exit,
    Component::Buffer,
    Component::Fork,
    Component::Join,
    Component::Split,
    Component::Operator,
    Component::Constant,
    Component::Source,
    Component::Sink,
    Component::Pure,
    Component::Mux,
    Component::Branch,
    Component::Merge,
    Component::CtrlMerge,
    Component::Init,
    Component::Tagger,
];

/// The component that a kind is of.
pub fn component_at(kind: &Kind) -> Component
    ensures { result ≡ component_at kind.now }
{
    match kind {
        Kind::Entry(_) => Component::Entry,
        Kind::Exit(_) => Component::Exit,
        Kind::Buffer(_) => Component::Buffer,
        Kind::Fork(..) => Component::Fork,
        Kind::Join(_) => Component::Join,
        Kind::Split(_) => Component::Split,
        Kind::Operator(..) => Component::Operator,
        Kind::Constant(..) => Component::Constant,
        Kind::Source0(_) => Component::Source,
        Kind::Sink0(_) => Component::Sink,
        Kind::Pure(..) => Component::Pure,
        Kind::Mux(_) => Component::Mux,
        Kind::Branch(_) => Component::Branch,
        Kind::Merge(..) => Component::Merge,
        Kind::CtrlMerge(..) => Component::CtrlMerge,
        Kind::Init(..) => Component::Init,
        Kind::Tagger(..) => Component::Tagger,
    }
}

/// The word of the component, as the `type` of a node.
pub fn word_of(component: Component) -> &'static str
    ensures { result.now ≡ word_of component }
{
    match component {
        Component::Entry => "Entry",
        Component::Exit => "Exit",
        Component::Buffer => "Buffer",
        Component::Fork => "Fork",
        Component::Join => "Join",
        Component::Split => "Split",
        Component::Operator => "Operator",
        Component::Constant => "Constant",
        Component::Source => "Source",
        Component::Sink => "Sink",
        Component::Pure => "Pure",
        Component::Mux => "Mux",
        Component::Branch => "Branch",
        Component::Merge => "Merge",
        Component::CtrlMerge => "CntrlMerge",
        Component::Init => "Init",
        Component::Tagger => "Tagger",
    }
}

/// The component with this word, or `None` exactly where there is none; `CtrlMerge` is a second spelling of `CntrlMerge`.
#[tactic(auto, unfolding(crate::specs::Component::component_of))]
pub fn component_of(word: &[u8]) -> Option<Component>
    ensures { result ≡ component_of word.now }
{
    match find_named(word) {
        Some(component) => Some(component),
        None => second_spelling(word),
    }
}

fn second_spelling(word: &[u8]) -> Option<Component>
    ensures { result ≡ second_spelling word.now }
{
    if word == b"CtrlMerge".as_slice() {
        Some(Component::CtrlMerge)
    } else {
        None
    }
}

/// The component with this word of the table.
fn find_named(word: &[u8]) -> Option<Component>
    ensures { result ≡ find (λ component. bytes_eq (word_of component) word.now) ALL }
{
    ALL.iter()
        .copied()
        .find(|component| word_of(*component).as_bytes() == word)
}
