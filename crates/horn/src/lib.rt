//! Ground Horn clauses over numbered items: what follows from facts. Theory only.
#![tactic(auto)]

ghost use Rattle.horn.specs.Horn.{HornLaw};

/// A theorem: the computed answer decides what follows; what follows from no facts is what has a derivation; more clauses
/// and facts give no less; and what follows from things that follow, follows.
pub fn horn_law()
    ensures { HornLaw }
{}
