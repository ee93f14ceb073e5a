//! What a session answers, by rules that a reader can compare with the published grammar, and the law that ties the computed answers to them.
//!
//! A law is a function without argument or value: its contract is the law.
#![tactic(auto)]

ghost use Rattle.session_laws.specs.Laws.{AnswersAreAnswered};

/// For any bytes the rules admit exactly one session's answers: those computed by the function that the contracts of a session cite. So what the program writes can be checked by the rules alone, without reading how the terms of a text are found or how the list of a sum is made.
pub fn answers_are_answered()
    ensures { AnswersAreAnswered }
{}
