//! A rule by its word and its two graphs.
use graph_core::Graph;
use std::marker::Model;
use subst_engine::{Rule, RuleWord};

/// A rule whose graphs were made.
#[derive(Debug, Drop)]
pub(crate) struct Combined {
    pub(crate) word: RuleWord,
    pub(crate) left: Graph,
    pub(crate) right: Graph,
}

impl Model for Combined {
    ghost use Rattle.subst_engine.specs.Rule.{NamedRule, IsSoundRule, rule_code};

    ghost Value = { NamedRule };

    ghost coded = { rule_code };

    ghost view = { λ r. record { word = r.word; left = r.left.graph; right = r.right.graph } };

    ghost invariant = { λ r. IsSoundRule (record { word = r.word; left = r.left.graph; right = r.right.graph }) };
}

impl Rule for Combined {
    ghost named = { λ r. r };

    fn word(&self) -> RuleWord {
        self.word
    }

    fn left(&self) -> &Graph {
        &self.left
    }

    fn right(&self) -> &Graph {
        &self.right
    }
}
