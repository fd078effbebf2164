use crate::shape::Shape;

/// A port of a side: its marker, if it has one, and the shape of its tokens.
#[derive(Debug, Drop)]
pub struct Port {
    /// `?`, `+` or `-` in a text of the format.
    pub marker: Option<u8>,
    pub shape: Shape,
}

/// Why no ports were read: what is wrong with the first faulty word.
#[derive(Clone, Copy, Debug, PartialEq, Eq)]
pub enum PortFault {
    /// It holds `*`.
    MemoryPort,
    /// It is the 65th word.
    TooManyPorts,
    /// It is a port word but for a width above 64 or more than 128 fields.
    TooWide,
    /// It is no port word for another cause.
    BadPort,
    /// There was no memory for the ports.
    NoMemory,
}
