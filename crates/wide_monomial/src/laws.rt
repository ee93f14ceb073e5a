//! The facts of the table, as a law: a function without argument or value, whose contract is the law.
ghost use Rattle.std.specs.Prelude.{ℕ};
ghost use Rattle.wide_monomial.specs.Layouts.{IsLayout, layout_of};

/// In each layout the fields are the widest of which all fit 128 bits, twice the limit fits a field, and the limit is all ones below the guard, but at most 2147483647. Where the table has no row, the layout is empty.
pub fn wide_layouts_fit()
    ensures { (n : ℕ) → IsLayout n (layout_of n) }
{}
