//! Theorems about the definitions: each is the contract of a function.
ghost use Rattle.links.specs.Keys.{ChainLaw};

/// What is called the latest entry with a key has it, and none behind it does; where there is none, no entry has it.
pub fn chain_law()
    ensures { ChainLaw }
{}
