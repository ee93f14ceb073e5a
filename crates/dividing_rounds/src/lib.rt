//! How much the shared merge of a division does at most, and why it doesn't stall: laws over plain data, from which the bound on the rounds of a division by workers follows.
//!
//! A run is a merge's state with the notes of its row and counts of what it has done. A law is a function without argument or value: its contract is the law.
#![tactic(auto)]

ghost use Rattle.dividing_rounds.specs.Found.{CandidateLast};
ghost use Rattle.dividing_rounds.specs.Runs.{BoundInWorkload, CountsFit, RunStart, RunTake, RunZero, RunRest, RunFound, RunFront, RunRow};
ghost use Rattle.dividing_rounds.specs.Stalls.{NobodyStuck, DueIsBound, Behind, NoStall, HeardHasWaited};
ghost use Rattle.dividing_rounds.specs.Counting.{CountStart, CountLearn, CountHand, CountSend, CountMark, CountedSent, CountedFit};
ghost use Rattle.dividing_rounds.specs.Rounds.{ProgressRises, ProgressFits, ProgressSmall, RoundsFit};

/// Where no term fits at the candidate of an exact division, all quotient terms were found.
pub fn candidate_last()
    ensures { CandidateLast }
{}

/// A bound that was read, or that is the top of a current worker, is a monomial of the dividend or of a product of a quotient term and a lower term of the divisor.
pub fn bound_in_workload()
    ensures { BoundInWorkload }
{}

/// A run processes no more monomials, and publishes no more fronts, than there are terms of the dividend and products of a quotient term and a lower term of the divisor.
pub fn counts_fit()
    ensures { CountsFit }
{}

/// A new run of a division is whole.
pub fn run_start()
    ensures { RunStart }
{}

/// A run stays whole when it takes a note.
pub fn run_take()
    ensures { RunTake }
{}

/// A run stays whole when it processes a monomial whose coefficient is zero.
pub fn run_zero()
    ensures { RunZero }
{}

/// A run stays whole when a term goes to its remainder.
pub fn run_rest()
    ensures { RunRest }
{}

/// A run stays whole when it finds a quotient term, which may be published.
pub fn run_found()
    ensures { RunFound }
{}

/// A run stays whole when it publishes a front, which may be published.
pub fn run_front()
    ensures { RunFront }
{}

/// A run stays whole with a new row, and when it is over.
pub fn run_row()
    ensures { RunRow }
{}

/// Where the merge needs to hear from no worker, it processes the greatest monomial that was read or is finished.
pub fn nobody_stuck()
    ensures { NobodyStuck }
{}

/// A front that is due may be published.
pub fn due_is_bound()
    ensures { DueIsBound }
{}

/// What a worker may not send is below the front.
pub fn behind()
    ensures { Behind }
{}

/// Where all workers have said what they can and one holds the merge up, a front is due.
pub fn no_stall()
    ensures { NoStall }
{}

/// A worker that waits and was heard has said what it can.
pub fn heard_has_waited()
    ensures { HeardHasWaited }
{}

/// A new worker has counted its notes.
pub fn count_start()
    ensures { CountStart }
{}

/// A worker counts its notes when it learns a quotient term.
pub fn count_learn()
    ensures { CountLearn }
{}

/// A worker counts its notes when it hands out products.
pub fn count_hand()
    ensures { CountHand }
{}

/// A worker counts its notes when it sends the term that it keeps.
pub fn count_send()
    ensures { CountSend }
{}

/// A worker counts its notes when it sends a mark.
pub fn count_mark()
    ensures { CountMark }
{}

/// How many notes a worker sends at most.
pub fn counted_sent()
    ensures { CountedSent }
{}

/// How many notes the merge takes at most of a worker that counts them.
pub fn counted_fit()
    ensures { CountedFit }
{}

/// Each step of a run raises its progress, and a new row leaves it.
pub fn progress_rises()
    ensures { ProgressRises }
{}

/// The progress of a run is below the bound on its rounds.
pub fn progress_fits()
    ensures { ProgressFits }
{}

/// The progress of a run fits in a word.
pub fn progress_small()
    ensures { ProgressSmall }
{}

/// How many rounds a division takes at most.
pub fn rounds_fit()
    ensures { RoundsFit }
{}
