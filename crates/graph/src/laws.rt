//! Laws of work graphs.
ghost use Rattle.graph.specs.Laws.{RulesKept, KnownByParts};

/// Carries the laws: every graph keeps the rules, and graphs with the same parts are the same value.
#[tactic(auto, using(crate::proofs::Same::same_graph))]
pub fn graph_laws()
    ensures rules { RulesKept }
    ensures same { KnownByParts }
{}
