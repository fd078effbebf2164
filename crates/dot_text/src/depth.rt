ghost use Rattle.std.specs.Prelude.{◌≡◌, ◌+◌, suc, MatchOption};

/// How many subgraphs are open, and how many more may be opened.
#[derive(Clone, Copy)]
pub(crate) struct Depth {
    pub(crate) left: u8,
    pub(crate) nested: u8,
    ghost most: { left + nested ≡ 64 },
}

impl Depth {
    /// No subgraph is open.
    pub(crate) fn none() -> Depth
        ensures left { result.left ≡ 64 }
        ensures none_nested { result.nested ≡ 0 }
    {
        Depth {
            left: 64,
            nested: 0,
        }
    }

    /// One more is open, or `None` where no more may be opened.
    pub(crate) fn opened(self) -> Option<Depth>
        ensures { MatchOption result (self.left ≡ 0) (λ depth. (self.left ≡ suc depth.left) × (depth.nested ≡ suc self.nested)) }
    {
        if self.left == 0 {
            return None;
        }
        Some(Depth {
            left: self.left - 1,
            nested: self.nested + 1,
        })
    }

    /// One is closed, or `None` where none is open.
    pub(crate) fn closed(self) -> Option<Depth>
        ensures { MatchOption result (self.nested ≡ 0) (λ depth. (self.nested ≡ suc depth.nested) × (depth.left ≡ suc self.left)) }
    {
        if self.nested == 0 {
            return None;
        }
        Some(Depth {
            left: self.left + 1,
            nested: self.nested - 1,
        })
    }
}
