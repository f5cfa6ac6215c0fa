// The state of a search beside its pool, path and positions: port of pn.rs's Prover.

#![tactic(auto)]

use node_pool::Pool;
use prove::Bounds;

// The place of the current node on the path, the pool's state, and the counts of proved, disproved and expanded nodes.
#[derive(Clone, Copy)]
pub struct Prover {
    pub depth: usize,
    pub pool: Pool,
    pub proved: u64,
    pub disproved: u64,
    pub expanded: u64,
}

// A state of the search on its way up, and the current node's numbers as its children give them: what expanding a leaf leaves to the climb, and each turn of the climb to the next.
#[derive(Clone, Copy)]
pub struct Ascent {
    pub prover: Prover,
    pub bounds: Bounds,
}
