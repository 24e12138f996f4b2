//! A solution that a search keeps, and what a search answers.

use hk_base::List;

/// A solution that a search found: what it costs, and a value for each variable.
#[derive(Debug, Drop)]
pub struct Found {
    pub cost: i64,
    pub values: List<u8>,
}

/// What a search over diagrams answers: the best solution that it found, how many nodes it entered,
/// and whether it left no child open.
#[derive(Debug, Drop)]
pub struct Outcome {
    pub best: Option<Found>,
    pub nodes: u64,
    pub complete: bool,
}
