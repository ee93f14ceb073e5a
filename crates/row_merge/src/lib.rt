//! Products of polynomials, merged row by row: the terms of a worker's part of a product, and the products of a division's quotient terms.
#![tactic(auto)]

mod merge;
mod quotient_rows;
mod rows;
mod sequential;
mod waiting;

pub use merge::{RowMerge, RowSet};
pub use quotient_rows::QuotientRows;
pub use sequential::product;
