//! What a rule of local rewriting is.
ghost use Rattle.std.specs.Prelude.{◌≡◌};
ghost use Rattle.subst_engine.specs.Rule.{NamedRule, IsSoundRule};

use crate::word::RuleWord;
use graph_core::Graph;

/// A rule of local rewriting: the graph `right` may come in the place of the graph `left`. They have the same Entries and Exits,
/// where the wires of the part are cut.
pub trait Rule {
    /// The rule by names.
    ghost named: { Self → NamedRule };

    /// The word of the rule.
    fn word(&self) -> RuleWord
        ensures { result ≡ (named self.now).word };

    /// The part that the rule looks for.
    fn left(&self) -> &Graph
        ensures { result.now.graph ≡ (named self.now).left };

    /// What comes in its place. Both graphs are typed, no wire of `left` leads straight from an Entry to an Exit, and in no surrounding
    /// circuit does `right` show anything that `left` does not.
    fn right(&self) -> &Graph
        ensures graph { result.now.graph ≡ (named self.now).right }
        ensures sound { IsSoundRule (named self.now) };
}
