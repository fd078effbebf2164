/// An output in a body: that of the Split for node 0, or of the i-th body node for node i, and its port, counted from 1.
#[derive(Clone, Copy, Debug, PartialEq, Eq)]
pub struct BodyPort {
    pub node: usize,
    pub port: u8,
}
