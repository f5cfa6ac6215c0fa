// Step 2 of the plain machine: from the current node down to a leaf. Port of pn.rs's select_most_proving; staying on a line is added.

#![tactic(auto)]

ghost use Rattle.std.specs.Prelude.{◌≡◌, true, false, ◌<◌, get_or};
ghost use Rattle.machine.specs.Tree.{solved};
ghost use Rattle.machine.specs.Machine.{root};
ghost use Rattle.words.specs.Packed.{expanded_in, remembered_in};
ghost use Rattle.words.specs.Words.{NONE, PACKED, word, Slot};
ghost use Rattle.stay.specs.Margin.{is_margin, StayInRange};
ghost use Rattle.prover.specs.Stands.{Searching};
ghost use Rattle.descend.specs.Promises.{Selectable, Selects, Findable, Finds, Tests, Choosing, Chooses, Unsolved, GoesDown, Descended};

use game::Move;
use node_pool::{NodeID, PLIES};
use positions::POSITIONS;
use prove::Bounds;
use prover::Prover;
use stay::Stay;

// The first listed child, from `first` on, whose delta is phi. It is there, so no turn asks whether the list ends, as node_pool::find would, and the edit
// sibling-is-first-child needs this walk's own step.
pub fn select(words: &[u32], first: NodeID, phi: u32) -> NodeID
    requires { Selectable words.now first.0 phi }
    ensures { Selects words.now first.0 phi result.0 }
{
    let mut id = first;
    while node_pool::delta(words, id) != phi {
        id = node_pool::sibling(words, id);
    }
    id
}

// The first listed child, from `first` on, that the move led to, if there is one.
fn find(words: &[u32], first: NodeID, mv: Move) -> Option<NodeID>
    requires { Findable words.now first.0 }
    ensures { Finds words.now first.0 mv.0 result }
{
    node_pool::find(
        words,
        first,
        |id| node_pool::move_in(node_pool::packed(words, id)) == mv,
    )
}

// Whether a child is unsolved, and its delta within the margin of phi.
fn within_margin(words: &[u32], id: NodeID, phi: u32, margin: f64) -> bool
    requires { Slot words.now id.0 × (phi < 16777216) × (is_margin margin ≡ true) }
    ensures { Tests words.now id.0 phi margin result }
{
    let own = node_pool::phi(words, id);
    let delta = node_pool::delta(words, id);
    let bounds = Bounds { phi: own, delta };
    !bounds.solved() && stay::within(phi, margin, delta)
}

// The child that step 2 takes at a node that has this first child, phi and packed word: with a margin the one that the remembered move names, if it is within it.
fn choose(words: &[u32], first: NodeID, phi: u32, packed: u32, stay: Stay) -> NodeID
    requires { Choosing words.now first.0 phi (remembered_in packed) × StayInRange stay }
    ensures { Chooses stay words.now first.0 phi (remembered_in packed) result.0 }
{
    if let Stay::Margin(margin) = stay
        && let Some(again) = find(words, first, node_pool::remembered_in(packed))
        && within_margin(words, again, phi, margin)
    {
        return again;
    }
    select(words, first, phi)
}

// The current node's number and its packed word.
#[derive(Clone, Copy)]
struct Current {
    id: NodeID,
    packed: u32,
}

// From the expanded node at a place of the path to the child that step 2 takes, whose move the node remembers.
fn down(
    words: &mut [u32],
    path: &mut [u32; PLIES],
    positions: &mut [u16; POSITIONS],
    depth: usize,
    node: Current,
    stay: Stay,
) -> Current
    requires node { (node.id.0 ≡ get_or path.old depth 0) × (node.packed ≡ word words.old node.id.0 PACKED) × (expanded_in node.packed ≡ 1) }
    requires unsolved { Unsolved words.old path.old positions.old depth × StayInRange stay }
    ensures { GoesDown stay words.old path.old positions.old depth words.new path.new positions.new result }
{
    let first = node_pool::first_child(words, node.id);
    let phi = node_pool::phi(words, node.id);
    let child = choose(words, first, phi, node.packed, stay);
    let packed = node_pool::packed(words, child);
    let mv = node_pool::move_in(packed);
    node_pool::remember(words, node.id, node.packed, mv);
    positions::push(positions, depth, mv);
    path[depth + 1] = child.0;
    Current { id: child, packed }
}

// From the current node down while expanded.
pub fn descend(
    words: &mut [u32],
    path: &mut [u32; PLIES],
    positions: &mut [u16; POSITIONS],
    x: Prover,
    stay: Stay,
) -> Prover
    requires { ((g : Searching words.old path.old positions.old x) × (solved (root g.at) ≡ false)) × StayInRange stay }
    ensures { Descended stay words.old path.old positions.old x words.new path.new positions.new result }
{
    let mut depth = x.depth;
    let id = NodeID(path[depth]);
    let mut node = Current {
        id,
        packed: node_pool::packed(words, id),
    };
    while node_pool::expanded_in(node.packed) {
        node = down(words, path, positions, depth, node, stay);
        depth += 1;
    }
    Prover { depth, ..x }
}
