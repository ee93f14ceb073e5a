//! What the shared merge of a division and its workers hold, said of plain lists, and the laws by which each step keeps it: the published row, what is settled at a candidate, the notes that a worker may send, and how the published row says what the merge found.
//!
//! A law is a function without argument or value: its contract is the law.
#![tactic(auto)]

ghost use Rattle.divide_wholes.specs.DivideLaws.{RowLaws, DivideStart, DivideTake, DivideFront, DivideZero, DivideFound, DivideKept, CandidateFinal, CandidateTerm, CandidateNone, BoundIsFront, FrontChoices, FinishedIsRight, LaterBelow, WorkerFinal, WorkerNext};
ghost use Rattle.divide_wholes.specs.Workers.{MarkFollows, LatestMark, WorkerStart, WorkerLearn, WorkerHand, WorkerSend, WorkerMark};
ghost use Rattle.divide_wholes.specs.MergeRow.{RowStart, RowFound, RowFronted, RowKept, RowChanged};

/// The notes of a published row keep their rule at each legal note, and no later quotient term is above the front.
pub fn row_laws()
    ensures { RowLaws }
{}

/// A new merge of a division is whole.
pub fn divide_start()
    ensures { DivideStart }
{}

/// A merge of a division stays whole when it takes a note.
pub fn divide_take()
    ensures { DivideTake }
{}

/// A merge of a division stays whole when it publishes a front.
pub fn divide_front()
    ensures { DivideFront }
{}

/// A merge of a division stays whole when it processes a monomial whose coefficient is zero.
pub fn divide_zero()
    ensures { DivideZero }
{}

/// A merge of a division stays whole when it finds a quotient term.
pub fn divide_found()
    ensures { DivideFound }
{}

/// A merge of a division stays whole when a term goes to its remainder.
pub fn divide_kept()
    ensures { DivideKept }
{}

/// At the candidate of a division's merge the coefficient is final.
pub fn candidate_final()
    ensures { CandidateFinal }
{}

/// A term that fits the coefficient at the candidate is the next quotient term.
pub fn candidate_term()
    ensures { CandidateTerm }
{}

/// Where no term fits at the candidate, an exact division has no quotient.
pub fn candidate_none()
    ensures { CandidateNone }
{}

/// No later quotient term is above a bound, so a front may be published there, and as low as the multiples of the divisor's leading monomial allow.
pub fn bound_is_front()
    ensures { BoundIsFront }
{}

/// What the front at a bound may be: the bound, the greatest multiple of the divisor's leading monomial at it or below, or any monomial where there is none.
pub fn front_choices()
    ensures { FrontChoices }
{}

/// A finished division has its quotient and its remainder.
pub fn finished_is_right()
    ensures { FinishedIsRight }
{}

/// The quotient terms after one that is known are below it.
pub fn later_below()
    ensures { LaterBelow }
{}

/// What a dividing worker may send is settled by the quotient terms that it knows.
pub fn worker_final()
    ensures { WorkerFinal }
{}

/// The next term of a dividing worker.
pub fn worker_next()
    ensures { WorkerNext }
{}

/// A dividing worker may send a mark of what it knows that rises above its latest one.
pub fn mark_follows()
    ensures { MarkFollows }
{}

/// The latest mark in a ring counts quotient terms, and its top is that of a product of them.
pub fn latest_mark_counts()
    ensures { LatestMark }
{}

/// A new dividing worker is whole.
pub fn worker_start()
    ensures { WorkerStart }
{}

/// A dividing worker stays whole when it learns a quotient term.
pub fn worker_learn()
    ensures { WorkerLearn }
{}

/// A dividing worker stays whole when it hands out its products at their greatest monomial.
pub fn worker_hand()
    ensures { WorkerHand }
{}

/// A dividing worker stays whole when it sends the term that it keeps, which may be sent.
pub fn worker_send()
    ensures { WorkerSend }
{}

/// A dividing worker stays whole when it sends a mark, which may be sent.
pub fn worker_mark()
    ensures { WorkerMark }
{}

/// The empty published row is that of a new merge of a division.
pub fn row_start()
    ensures { RowStart }
{}

/// A quotient term that is found may be published, and then the published row says it.
pub fn row_found()
    ensures { RowFound }
{}

/// A front at a bound may be published where it is below the present front, and then the published row says it.
pub fn row_front()
    ensures { RowFronted }
{}

/// The other steps of a merge of a division leave the published row as it is.
pub fn row_kept()
    ensures { RowKept }
{}

/// A merge of a division stays whole when it goes on with a new published row.
pub fn row_change()
    ensures { RowChanged }
{}
