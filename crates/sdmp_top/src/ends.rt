//! What a run counts.
ghost use Rattle.std.specs.Prelude.{◌≡◌};
ghost use Rattle.sdmp_top.specs.Work.{tally_of};

use divide_merge::DivideTally;
use global_heap::MergeTally;

/// How many products and divisions were made, of how many notes and quotient terms, each counted by the last receipt of its shared merge.
///
/// A product has a note for each term that a worker sends, and for its end. Its rows, of which each worker has a part, are the terms of the factor that has fewer, of the left one where both have as many.
#[derive(Drop)]
pub struct Ends {
    pub products: MergeTally,
    pub divisions: DivideTally,
}

impl Ends {
    /// Nothing is counted.
    pub fn new() -> Ends
        ensures { tally_of result ≡ record { products = 0; notes = 0; divisions = 0; terms = 0 } }
    {
        Ends {
            products: MergeTally::new(),
            divisions: DivideTally::new(),
        }
    }
}
