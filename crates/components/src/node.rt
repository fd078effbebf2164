use crate::kind::Kind;
use port_types::{Items, Text};

/// A node: its name, what it is, and the attributes that its kind does not own, as keys and values in any order.
#[derive(Clone, Debug, Drop)]
pub struct Node {
    pub name: Text,
    pub kind: Kind,
    pub kept: Items<(Text, Text)>,
}
