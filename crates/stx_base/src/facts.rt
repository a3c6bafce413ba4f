// What a store is made with.
use stx_scenario::List;

/// What a store is made with; no call changes it.
#[derive(Debug, Drop)]
pub struct StoreFacts {
    /// The first values of the rows, in the order of the rows.
    pub values: List<i64>,
}
