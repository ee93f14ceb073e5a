//! The facts of the table, as a law: a function without argument or value, whose contract is the law.
ghost use Rattle.std.specs.Prelude.{ℕ};
ghost use Rattle.packed_monomial.specs.Layouts.{IsLayout, layout_of};

/// In each layout the fields fit a word, twice the limit fits a field, and the limit is all ones below the guard. Where the table has no row, the layout is empty.
pub fn layouts_fit()
    ensures { (n : ℕ) → IsLayout n (layout_of n) }
{}
