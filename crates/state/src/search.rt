// The state of a search.
ghost use Rattle.state.specs.Standing.{Kept};

use formula::formula::Formula;
use formula::given::Given;
use formula::occurrences::Occurrences;
use table::table::Table;

// A formula with an assignment, weights, stamps and the tick, and every number that follows from them.
#[derive(Drop)]
pub struct Search {
    pub(crate) given: Given,
    pub(crate) formula: Formula,
    pub(crate) occurrences: Occurrences,
    pub(crate) table: Table,
    ghost kept: { ∥ Kept given formula occurrences table ∥₁ },
}
