//! Values that may go through a turnstile.

/// A value with a name that no work changes, a mark of how far the work on it has come, and what holds of it whenever it is whole.
///
/// All of it is for contracts alone. The name says which run a value belongs to, so that a value of another run can't be put in its place; `follows` says that work was done and none undone; `whole` says what holds of a value whenever no pass is inside.
pub trait Named {
    // the plain data of which names are made
    ghost naming: { Type 0 };

    // the plain data that says how far a value has come
    ghost reaching: { Type 0 };

    ghost name: { Self → naming };

    ghost reached: { Self → reaching };

    // whether the second follows the first
    ghost follows: { reaching → reaching → Type 0 };

    // what holds of a value while no work on it is under way
    ghost whole: { Self → Type 0 };

    ghost follows_itself: { (r : reaching) → follows r r };
}
