//! What a division answers: said by the relations of division, computed, and the law between the two.
//!
//! A law is a function without argument or value: its contract is the law.
#![tactic(auto)]

ghost use Rattle.division_laws.specs.Outcome.{OneOutcome};

/// Each division of two polynomials has exactly one answer, and it can be computed.
pub fn one_outcome()
    ensures { OneOutcome }
{}
