ghost use Rattle.std.specs.Prelude.{◌≡◌};
ghost use Rattle.port_types.specs.PortText.{side_word};

/// The side of a node that a port is on.
#[derive(Clone, Copy, Debug, PartialEq, Eq, PartialOrd, Ord, Hash)]
pub enum Side {
    Ins,
    Outs,
}

impl Side {
    /// `in` or `out`, as port texts begin.
    pub fn word(self) -> &'static str
        ensures { result.now ≡ side_word self }
    {
        match self {
            Side::Ins => "in",
            Side::Outs => "out",
        }
    }
}
