// The pool of nodes, ported from node_pool.rs with the Node of pn.rs: five words a node in a lent slice.

#![tactic(auto)]

ghost use Rattle.std.specs.Prelude.{◌≡◌, not, ◌+◌, ◌-◌, ◌≤◌, ◌<◌, length, eqb};
ghost use Rattle.rules.specs.Rules.{Position};
ghost use Rattle.prove.specs.Numbers.{number};
ghost use Rattle.words.specs.Packed.{View, pack, bit, expanded_in, and_in, move_in, remembered_in, with_remembered};
ghost use Rattle.words.specs.Words.{NONE, PHI as phi_place, DELTA as delta_place, PACKED as packed_place, FIRST as first_place, SIBLING as sibling_place, word, set_word, capacity, Slot, Filled};
ghost use Rattle.words.specs.Walks.{Walkable};
ghost use Rattle.words.specs.Free.{Spare, Number};
ghost use Rattle.words.specs.Freeing.{plies, Pushed, Freeable};
ghost use Rattle.node_pool.specs.declared.NodeID.{NodeID};
ghost use Rattle.node_pool.specs.Promises.{Allocs, Frees, FreesAll};
ghost use Rattle.node_pool.specs.Seeking.{Seeks};

use game::Move;
use prove::{Bounds, Evaluation};

// The words of a node, in this order.
const PHI: usize = 0;

const DELTA: usize = 1;

const PACKED: usize = 2;

const FIRST: usize = 3;

const SIBLING: usize = 4;

// The places of the packed word's parts, most significant first: the value, the flags expanded, and, free, the move, the remembered move.
const VALUE: u32 = 1 << 30;

const EXPANDED: u32 = 1 << 29;

const AND: u32 = 1 << 28;

const FREE: u32 = 1 << 27;

const MOVE: u32 = 1 << 19;

const REMEMBERED: u32 = 1 << 11;

// The byte of a remembered move where there is none.
const NO_MOVE: u32 = 255;

// The number that is no node's.
pub const NO_NODE: u32 = u32::MAX;

// One a ply and the root.
pub const PLIES: usize = 82;

// A node's number, or NO_NODE. No Option: document 01 names this tuple struct, and `first_child` and `sibling` promise the word itself, whichever it is.
#[derive(Clone, Copy)]
pub struct NodeID(pub u32);

impl NodeID {
    pub fn none() -> Self
        ensures { result.0 ≡ NONE }
    {
        NodeID(NO_NODE)
    }

    pub fn exists(self) -> bool
        ensures { result ≡ not (eqb self.0 NONE) }
    {
        self.0 != NO_NODE
    }
}

// Each function asks that its node lies within the words (Slot): a NodeID holds no words, so no invariant of it can say so.

// How many nodes the words have room for.
pub fn capacity(words: &[u32]) -> usize
    ensures { result ≡ capacity words.now }
{
    words.len() / 5
}

// One word of a node, read and stored.
fn get(words: &[u32], id: NodeID, field: usize) -> u32
    requires { Slot words.now id.0 × (field < 5) }
    ensures { result ≡ word words.now id.0 field }
{
    let at = id.0 as usize * 5 + field;
    words[at]
}

fn put(words: &mut [u32], id: NodeID, field: usize, x: u32)
    requires { Slot words.old id.0 × (field < 5) }
    ensures { words.new ≡ set_word words.old id.0 field x }
{
    let place = id.0 as usize * 5 + field;
    words[place] = x;
}

pub fn phi(words: &[u32], id: NodeID) -> u32
    requires { Slot words.now id.0 }
    ensures { result ≡ word words.now id.0 phi_place }
{
    get(words, id, PHI)
}

pub fn delta(words: &[u32], id: NodeID) -> u32
    requires { Slot words.now id.0 }
    ensures { result ≡ word words.now id.0 delta_place }
{
    get(words, id, DELTA)
}

// The packed word, and what it says.
pub fn packed(words: &[u32], id: NodeID) -> u32
    requires { Slot words.now id.0 }
    ensures { result ≡ word words.now id.0 packed_place }
{
    get(words, id, PACKED)
}

pub fn first_child(words: &[u32], id: NodeID) -> NodeID
    requires { Slot words.now id.0 }
    ensures { result.0 ≡ word words.now id.0 first_place }
{
    NodeID(get(words, id, FIRST))
}

pub fn sibling(words: &[u32], id: NodeID) -> NodeID
    requires { Slot words.now id.0 }
    ensures { result.0 ≡ word words.now id.0 sibling_place }
{
    NodeID(get(words, id, SIBLING))
}

// The first of the siblings from `first` on that passes the test, if one does.
pub fn find<F: Fn(NodeID) -> bool>(words: &[u32], first: NodeID, test: F) -> Option<NodeID>
    requires walks { (K : View Position) × Walkable K words.now first.0 }
    requires tests { (id : NodeID) → Slot words.now id.0 → F.pre test id }
    ensures { Seeks (F.post test) words.now first.0 result }
{
    let mut id = first;
    while id.exists() {
        if test(id) {
            return Some(id);
        }
        id = sibling(words, id);
    }
    None
}

// A packed word: of a new leaf, and what each part of it says.
pub fn pack(value: Evaluation, and: bool, mv: Move) -> u32
    ensures { result ≡ pack (number value) 0 (bit and) 0 mv.0 255 }
{
    value.number() * VALUE + and as u32 * AND + mv.0 as u32 * MOVE + NO_MOVE * REMEMBERED
}

pub fn expanded_in(packed: u32) -> bool
    ensures { result ≡ eqb (expanded_in packed) 1 }
{
    packed / EXPANDED % 2 == 1
}

pub fn and_in(packed: u32) -> bool
    ensures { result ≡ eqb (and_in packed) 1 }
{
    packed / AND % 2 == 1
}

pub fn move_in(packed: u32) -> Move
    ensures { result.0 ≡ move_in packed }
{
    Move((packed / MOVE % 256) as u8)
}

pub fn remembered_in(packed: u32) -> Move
    ensures { result.0 ≡ remembered_in packed }
{
    Move((packed / REMEMBERED % 256) as u8)
}

// Sets the remembered move of a node whose packed word is `packed`.
pub fn remember(words: &mut [u32], id: NodeID, packed: u32, mv: Move)
    requires { Slot words.old id.0 }
    ensures { words.new ≡ set_word words.old id.0 packed_place (with_remembered packed mv.0) }
{
    put(
        words,
        id,
        PACKED,
        packed / MOVE * MOVE + mv.0 as u32 * REMEMBERED,
    );
}

pub fn set_bounds(words: &mut [u32], id: NodeID, phi: u32, delta: u32)
    requires { Slot words.old id.0 }
    ensures { words.new ≡ set_word (set_word words.old id.0 phi_place phi) id.0 delta_place delta }
{
    put(words, id, PHI, phi);
    put(words, id, DELTA, delta);
}

pub fn set_first_child(words: &mut [u32], id: NodeID, child: NodeID)
    requires { Slot words.old id.0 }
    ensures { words.new ≡ set_word words.old id.0 first_place child.0 }
{
    put(words, id, FIRST, child.0);
}

// The flag expanded of a node that is not expanded.
pub fn set_expanded(words: &mut [u32], id: NodeID)
    requires { Slot words.old id.0 × (expanded_in (word words.old id.0 packed_place) ≡ 0) }
    ensures { words.new ≡ set_word words.old id.0 packed_place (word words.old id.0 packed_place + 536870912) }
{
    put(words, id, PACKED, packed(words, id) + EXPANDED);
}

// The nodes that are free: the head of the freed ones, and those whose numbers have never been used, from `used` on.
#[derive(Clone, Copy)]
pub struct Vacant {
    pub head: NodeID,
    pub used: u32,
}

// The free nodes, and the counts.
#[derive(Clone, Copy)]
pub struct Pool {
    pub vacant: Vacant,
    pub allocated: u64,
    pub freed: u64,
}

impl Pool {
    pub fn live(self) -> u64
        requires { self.freed ≤ self.allocated }
        ensures { result ≡ self.allocated - self.freed }
    {
        self.allocated - self.freed
    }

    // How many nodes are free, of so many.
    pub fn free_nodes(self, capacity: u64) -> u64
        requires { (self.freed ≤ self.allocated) × (self.allocated - self.freed ≤ capacity) }
        ensures { result ≡ capacity - (self.allocated - self.freed) }
    {
        capacity - self.live()
    }
}

// A node that was taken, and what is free then.
#[derive(Clone, Copy)]
pub struct AllocedNode {
    pub id: NodeID,
    pub vacant: Vacant,
}

// The node last freed, or else the next number never used.
fn take(words: &[u32], vacant: Vacant) -> AllocedNode
    requires { Spare words.now vacant.head.0 vacant.used }
    ensures { (g : Spare words.now vacant.head.0 vacant.used) → Number words.now vacant.head.0 vacant.used g result.id.0 result.vacant.head.0 result.vacant.used }
{
    if vacant.head.exists() {
        let head = first_child(words, vacant.head);
        AllocedNode {
            id: vacant.head,
            vacant: Vacant { head, ..vacant },
        }
    } else {
        AllocedNode {
            id: NodeID(vacant.used),
            vacant: Vacant {
                used: vacant.used + 1,
                ..vacant
            },
        }
    }
}

// Makes a leaf of a node, before the sibling.
fn fill(words: &mut [u32], id: NodeID, bounds: Bounds, packed: u32, sibling: NodeID)
    requires { Slot words.old id.0 }
    ensures { Filled words.old words.new id.0 bounds.phi bounds.delta packed NONE sibling.0 }
{
    put(words, id, PHI, bounds.phi);
    put(words, id, DELTA, bounds.delta);
    put(words, id, PACKED, packed);
    put(words, id, FIRST, NO_NODE);
    put(words, id, SIBLING, sibling.0);
}

// Takes a node and makes a leaf of it, before the sibling.
pub fn alloc(
    words: &mut [u32],
    vacant: Vacant,
    bounds: Bounds,
    packed: u32,
    sibling: NodeID,
) -> AllocedNode
    requires { Spare words.old vacant.head.0 vacant.used }
    ensures { Allocs words.old vacant bounds packed sibling words.new result }
{
    let node = take(words, vacant);
    fill(words, node.id, bounds, packed, sibling);
    node
}

// Gives a node back.
pub fn free(words: &mut [u32], pool: Pool, id: NodeID) -> Pool
    requires { Slot words.old id.0 × (pool.freed < pool.allocated) }
    ensures { Frees words.old pool id words.new result }
{
    put(words, id, PACKED, FREE);
    put(words, id, FIRST, pool.vacant.head.0);
    Pool {
        vacant: Vacant {
            head: id,
            ..pool.vacant
        },
        freed: pool.freed + 1,
        ..pool
    }
}

// A node, if it exists, waits above the first `top`.
fn wait(todo: &mut [u32; PLIES], top: usize, id: NodeID) -> usize
    requires { (id.0 ≡ NONE → ⊥) → top < plies }
    ensures { Pushed todo.old top id.0 todo.new result }
{
    if id.exists() {
        todo[top] = id.0;
        top + 1
    } else {
        top
    }
}

// Frees the list of siblings from `first` on, and all below. `todo` has a length beside it: fixed memory and no heap.
pub fn free_siblings(words: &mut [u32], todo: &mut [u32; PLIES], first: NodeID, pool: Pool) -> Pool
    requires { Freeable Position words.old first.0 pool.vacant.head.0 pool.freed pool.allocated }
    ensures { FreesAll words.old first pool words.new result }
{
    let mut p = pool;
    let mut top = wait(todo, 0, first);
    while 0 < top {
        let at = top - 1;
        let id = NodeID(todo[at]);
        let next = sibling(words, id);
        let child = first_child(words, id);
        let above = wait(todo, at, next);
        top = wait(todo, above, child);
        p = free(words, p, id);
    }
    p
}
