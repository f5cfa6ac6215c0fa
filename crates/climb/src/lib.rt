// Step 5 of the plain machine, from the expanded leaf upward: port of pn.rs's calc_proof_numbers and update_ancestors.

#![tactic(auto)]

ghost use Rattle.std.specs.Prelude.{◌≡◌, ◌&&◌, ◌<◌, eqb, length};
ghost use Rattle.words.specs.Words.{PHI, DELTA, word, Slot};
ghost use Rattle.climb.specs.Asks.{Recomputable, Recomputes, Finds, PhiRaisable, RaisesPhi, DeltaRaisable, RaisesDelta};
ghost use Rattle.climb.specs.Asks.{Counted, Climbable, Climbs, Ascending, Stores, Raisable, Raises, Ascends};

use node_pool::{NodeID, PLIES, Pool};
use prove::Bounds;
use prover::{Ascent, Prover};
use std::ops::ControlFlow;

// The least delta and the held sum of phi of the siblings from `first` on. In a search no such sum is held (machine/proofs/Unheld.antt, reached_unheld).
pub fn recompute(words: &[u32], first: NodeID) -> Bounds
    requires { Recomputable words.now first.0 }
    ensures { Recomputes words.now first.0 result.phi result.delta }
{
    let mut phi = prove::MOST;
    let mut delta: u32 = 0;
    let mut id = first;
    while id.exists() {
        let d = node_pool::delta(words, id);
        let p = node_pool::phi(words, id);
        phi = prove::least(phi, d);
        delta = prove::held_sum(delta, p);
        id = node_pool::sibling(words, id);
    }
    Bounds { phi, delta }
}

// One of the siblings from `first` on has this delta.
fn has_delta(words: &[u32], first: NodeID, delta: u32) -> bool
    requires { Recomputable words.now first.0 }
    ensures { Finds words.now first.0 delta result }
{
    node_pool::find(words, first, |id| node_pool::delta(words, id) == delta).is_some()
}

// The phi of a node that had the phi `held`, where one of its children has a new delta. With the setting off that child was the first listed with the delta
// `held`: if there is still one, it comes later. With a margin another child may have it, before that one or after it. One after it is
// found, and phi stays; if none is, the least delta is worked out anew, over those before it too. So more may be read with a margin, and the number is the same.
fn raised_phi(words: &[u32], first: NodeID, child: NodeID, held: u32, delta: u32) -> u32
    requires { PhiRaisable words.now first.0 child.0 held delta }
    ensures { RaisesPhi words.now first.0 child.0 held delta result }
{
    if delta <= held {
        return delta;
    }
    if has_delta(words, node_pool::sibling(words, child), held) {
        return held;
    }
    recompute(words, first).phi
}

// The delta of a node that had the delta `held`, where one of its children had the phi `was` and has a new one. Where the
// sum was held at the largest number, it is summed anew. In a search it never was: the delta of an expanded unsolved node is below
// 16777216 (machine/proofs/Reached.antt, reached_numbers). The test stays since the contract is about any list of siblings, whatever its sum.
fn raised_delta(words: &[u32], first: NodeID, held: u32, was: u32, phi: u32) -> u32
    requires { DeltaRaisable words.now first.0 held was phi }
    ensures { RaisesDelta words.now first.0 held was phi result }
{
    if held == prove::MOST {
        return recompute(words, first).delta;
    }
    prove::held_sum(held - was, phi)
}

// Both numbers of the node are these.
fn unchanged(words: &[u32], id: NodeID, bounds: Bounds) -> bool
    requires { Slot words.now id.0 }
    ensures { result ≡ (eqb (word words.now id.0 PHI) bounds.phi && eqb (word words.now id.0 DELTA) bounds.delta) }
{
    node_pool::phi(words, id) == bounds.phi && node_pool::delta(words, id) == bounds.delta
}

// Counts a solved node: as proved if its proof number is 0, as disproved if its disproof number is.
fn count(x: Prover, pool: Pool, and: bool, bounds: Bounds) -> Prover
    requires { (x.proved < x.expanded) × (x.disproved < x.expanded) }
    ensures { Counted x pool and bounds.phi bounds.delta result }
{
    let proof = if and { bounds.delta } else { bounds.phi };
    let disproof = if and { bounds.phi } else { bounds.delta };
    Prover {
        pool,
        proved: x.proved + (proof == 0) as u64,
        disproved: x.disproved + (disproof == 0) as u64,
        ..x
    }
}

// Stores the current node's numbers; if it is solved, frees all below and counts it.
fn store(words: &mut [u32], path: &[u32; PLIES], todo: &mut [u32; PLIES], k: Ascent) -> Prover
    requires { Ascending words.old path.now k.prover k.bounds.phi k.bounds.delta }
    ensures { Stores words.old path.now k.prover k.bounds.phi k.bounds.delta words.new result }
{
    let id = NodeID(path[k.prover.depth]);
    node_pool::set_bounds(words, id, k.bounds.phi, k.bounds.delta);
    if !k.bounds.solved() {
        return k.prover;
    }
    let first = node_pool::first_child(words, id);
    let and = node_pool::and_in(node_pool::packed(words, id));
    node_pool::set_first_child(words, id, NodeID::none());
    let pool = node_pool::free_siblings(words, todo, first, k.prover.pool);
    count(k.prover, pool, and, k.bounds)
}

// One node up, with its numbers worked out from those it had: the child below had the phi `was`, and has these numbers now.
fn ascend(
    words: &[u32],
    path: &[u32; PLIES],
    x: Prover,
    child: NodeID,
    was: u32,
    bounds: Bounds,
) -> Ascent
    requires { Raisable words.now path.now x child.0 was bounds.phi bounds.delta }
    ensures { Raises words.now path.now x child.0 was bounds.phi bounds.delta result }
{
    let depth = x.depth - 1;
    let id = NodeID(path[depth]);
    let first = node_pool::first_child(words, id);
    let held_phi = node_pool::phi(words, id);
    let held_delta = node_pool::delta(words, id);
    Ascent {
        prover: Prover { depth, ..x },
        bounds: Bounds {
            phi: raised_phi(words, first, child, held_phi, bounds.delta),
            delta: raised_delta(words, first, held_delta, was, bounds.phi),
        },
    }
}

// One turn: an unchanged node ends the climb, a changed one is stored, and a changed root ends it too.
fn climb_step(
    words: &mut [u32],
    path: &[u32; PLIES],
    todo: &mut [u32; PLIES],
    k: Ascent,
) -> ControlFlow<Prover, Ascent>
    requires { Ascending words.old path.now k.prover k.bounds.phi k.bounds.delta }
    ensures { Ascends words.old path.now k words.new result }
{
    let id = NodeID(path[k.prover.depth]);
    let was = node_pool::phi(words, id);
    if unchanged(words, id, k.bounds) {
        return ControlFlow::Break(k.prover);
    }
    let y = store(words, path, todo, k);
    if y.depth == 0 {
        return ControlFlow::Break(y);
    }
    ControlFlow::Continue(ascend(words, path, y, id, was, k.bounds))
}

// Step 5: from the current node upward, until a node is unchanged or the root is done.
pub fn climb(
    words: &mut [u32],
    path: &[u32; PLIES],
    todo: &mut [u32; PLIES],
    leaf: Ascent,
) -> Prover
    requires { Climbable words.old path.now leaf.prover leaf.bounds.phi leaf.bounds.delta }
    ensures { Climbs words.old path.now leaf.prover leaf.bounds.phi leaf.bounds.delta words.new result }
{
    let mut k = leaf;
    loop {
        match climb_step(words, path, todo, k) {
            ControlFlow::Continue(next) => k = next,
            ControlFlow::Break(x) => return x,
        }
    }
}
