//! Equality of graphs.
ghost use Rattle.std.specs.Prelude.{◌≡◌, Decides};
ghost use Rattle.std.specs.Cmp.Rules.{comparing};
ghost use Rattle.std.proofs.Common.{rules};

use super::Graph;

// Not derived: a derived `==` would not tell its callers that graphs which are equal are the same value.
/// Graphs are equal where their parts are.
impl PartialEq for Graph {
    ghost use Rattle.graph.specs.Alike.{alike};

    ghost eq = { alike };

    ghost laws = { Prim.search (comparing, rules) depth 9 };

    #[tactic(auto, using(crate::proofs::Same::decided))]
    fn eq(&self, other: &Graph) -> bool
        ensures value { result ≡ alike self.now other.now }
        ensures same { Decides result (self.now ≡ other.now) }
    {
        self.is_alike(other)
    }
}

/// Equality of graphs is reflexive.
impl Eq for Graph {
    ghost laws = { Prim.search (comparing, rules) depth 9 };
}

impl Graph {
    ghost use Rattle.graph.specs.Alike.{alike};

    // Whether each part is the same.
    fn is_alike(&self, other: &Graph) -> bool
        ensures { result ≡ alike self.now other.now }
    {
        self.jobs == other.jobs
            && self.crews == other.crews
            && self.layover == other.layover
            && self.times == other.times
            && self.preds == other.preds
    }
}
