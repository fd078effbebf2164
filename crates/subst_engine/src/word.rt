//! The words of rules.
ghost use Rattle.std.specs.Prelude.{◌≡◌};
ghost use Rattle.subst_engine.specs.Word.{word_text};

/// A rule of local rewriting, by its word.
#[derive(Clone, Copy, Debug, PartialEq, Eq)]
pub enum RuleWord {
    DropBuffer,
    SplitJoin,
    TrimFork,
    MuxCombine,
    MuxCombine0,
    Gather,
    BranchCombine,
    BranchCombine0,
    TagLoop,
    Expand,
}

impl RuleWord {
    /// The text of the word, as `drop_buffer`.
    pub fn text(self) -> &'static str
        ensures { result.now ≡ word_text self }
    {
        match self {
            RuleWord::DropBuffer => "drop_buffer",
            RuleWord::SplitJoin => "split_join",
            RuleWord::TrimFork => "trim_fork",
            RuleWord::MuxCombine => "mux_combine",
            RuleWord::MuxCombine0 => "mux_combine0",
            RuleWord::Gather => "gather",
            RuleWord::BranchCombine => "branch_combine",
            RuleWord::BranchCombine0 => "branch_combine0",
            RuleWord::TagLoop => "tag_loop",
            RuleWord::Expand => "expand",
        }
    }
}
