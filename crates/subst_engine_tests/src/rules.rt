//! A rule that can be applied to any graph, and changes nothing.
ghost use Rattle.std.specs.Prelude.{◌≡◌};
ghost use Rattle.std.specs.Coded.{Coded-set};
ghost use Rattle.components.specs.NamedGraph.{no_graph};
ghost use Rattle.graph_core.specs.GraphValue.{named_graph_code};
ghost use Rattle.subst_engine.specs.Rule.{NamedRule};
ghost use Rattle.subst_engine.specs.declared.word.RuleWord.TheVariants.{Expand};

use circuits::{graph_typed_as_circuit, refines_itself};
use graph_core::{Graph, check_typed};
use std::alloc::Global;
use std::process::Abort;
use std::test::Fail;
use subst_engine::{Rule, RuleWord, matches, replace};

/// Nothing in the place of nothing.
#[derive(Drop)]
struct Nothing {
    none: Graph,
    ghost empty: { none.graph ≡ no_graph } by { Coded-set named_graph_code none.graph no_graph },
}

impl Rule for Nothing {
    ghost named = { λ _. record { word = Expand; left = no_graph; right = no_graph } };

    fn word(&self) -> RuleWord {
        RuleWord::Expand
    }

    fn left(&self) -> &Graph {
        &self.none
    }

    fn right(&self) -> &Graph {
        graph_typed_as_circuit();
        refines_itself();
        &self.none
    }
}

#[test]
fn nothing_is_replaced(rt: HostRuntime) -> Result<(), Fail> {
    let rule = Nothing {
        none: Graph::new(rt.alloc()),
    };
    let mut g = Graph::new(rt.alloc());
    if check_typed(&g).is_err() {
        return Err("an open port".into());
    }
    assert!(&rt; rule.word() == RuleWord::Expand && matches(&g, &rule));
    replace(rt.alloc(), &mut g, &rule).ok().ok_or("refused")?;
    Ok(())
}
