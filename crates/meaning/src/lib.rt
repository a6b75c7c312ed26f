//! What the rules of a house mean: unlocked, relevant, derivable, safe, reached. Theory only.
#![tactic(auto)]

ghost use Rattle.meaning.specs.Law.{MeaningLaw};
ghost use Rattle.meaning.specs.Worked.{Worked};

/// A theorem: what the clauses of a house are, that the computed sets decide the meanings, and laws of these.
pub fn meaning_law()
    ensures { MeaningLaw }
{}

/// Small registers with rules, and what these mean.
pub fn worked_meanings()
    ensures { Worked }
{}
