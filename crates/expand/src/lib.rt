// Step 4 of the plain machine, ported from `expand` of pn.rs: a leaf's children are made in move order, up to the first that its mover has lost, and are listed
// last made first.

#![tactic(auto)]

ghost use Rattle.std.specs.Prelude.{◌≡◌, [], cond, ◌+◌, ◌*◌, ◌≤◌, ◌<◌, min, eqb};
ghost use Rattle.machine.specs.Place.{pool_max};
ghost use Rattle.words.specs.Packed.{expanded_in};
ghost use Rattle.words.specs.Words.{PACKED, word, Slot};
ghost use Rattle.prove.specs.Numbers.{verdict};
ghost use Rattle.game.specs.Cursor.{moves_from};
ghost use Rattle.machine.specs.Machine.{Unknown};
ghost use Rattle.expand.specs.Progress.{Progress, Addable, Adds};
ghost use Rattle.expand.specs.Opened.{counting, OpenAdds};
ghost use Rattle.expand.specs.Boards.{OpenBoard, EndingBoard, Playable};
ghost use Rattle.expand.specs.Targets.{Unmade};
ghost use Rattle.expand.specs.Expandable.{counter_max, NoneMade, counted, attached, Expandable, Expands};

use children::Outer;
use game::Move;
use node_pool::{NodeID, PLIES, Pool, Vacant};
use positions::POSITIONS;
use prove::{Bounds, Evaluation};
use prover::{Ascent, Prover};

// The children made so far: the nodes that are free, how many children there are, and the last made, which is listed first.
#[derive(Clone, Copy)]
pub struct Siblings {
    pub vacant: Vacant,
    pub made: u32,
    pub last: NodeID,
}

// They, and the numbers that they give their parent. Ended: the last made has delta 0, which the loops ask; before the first child it is false. Two numbers and no
// Bounds: a prototype with a pair here and in the climb's state took an eighth more instructions (docs/DECISIONS.md).
#[derive(Clone, Copy)]
pub struct Made {
    pub siblings: Siblings,
    pub phi: u32,
    pub delta: u32,
    pub ended: bool,
}

impl Made {
    fn nothing(vacant: Vacant) -> Self
        ensures { NoneMade vacant result }
    {
        Made {
            siblings: Siblings {
                vacant,
                made: 0,
                last: NodeID::none(),
            },
            phi: prove::MOST,
            delta: 0,
            ended: false,
        }
    }
}

// What all children of a leaf share: what is read of its position and where that stands, the rule, the attacker, who is the root's side, and whether the other side
// is to move at them.
#[derive(Clone, Copy)]
pub struct Parent {
    pub outer: Outer,
    pub base: usize,
    pub rule: u64,
    pub attacker: usize,
    pub and: bool,
}

// One child more, listed first. In a search the sum of phi is never held here (machine/proofs/Unheld.antt, reached_unheld).
fn add_child(words: &mut [u32], m: Made, mv: Move, value: Evaluation, and: bool) -> Made
    requires { Addable words.old m mv.0 (verdict value) and }
    ensures { Adds words.old m mv.0 (verdict value) and words.new result }
{
    let sibling = m.siblings.last;
    let bounds = children::leaf_bounds(value, and);
    let packed = node_pool::pack(value, and, mv);
    let node = node_pool::alloc(words, m.siblings.vacant, bounds, packed, sibling);
    Made {
        siblings: Siblings {
            vacant: node.vacant,
            made: m.siblings.made + 1,
            last: node.id,
        },
        phi: prove::least(m.phi, bounds.delta),
        delta: prove::held_sum(m.delta, bounds.phi),
        ended: bounds.delta == 0,
    }
}

// One open child more, listed first; its numbers are left to `open_numbers`.
fn add_open(words: &mut [u32], t: Siblings, mv: Move, and: bool) -> Siblings
    requires { (m : Made) × Addable words.old (counting t m) mv.0 Unknown and }
    ensures open_adds { OpenAdds words.old t mv.0 and words.new result }
    ensures made_value { result.made ≡ t.made + 1 }
{
    let sibling = t.last;
    let packed = node_pool::pack(Evaluation::Unknown, and, mv);
    let child = node_pool::alloc(words, t.vacant, Bounds::unity(), packed, sibling);
    Siblings {
        vacant: child.vacant,
        made: t.made + 1,
        last: child.id,
    }
}

// The least delta, with so many open children more.
fn open_phi(phi: u32, more: u32) -> u32
    ensures { result ≡ cond (eqb more 0) phi (min phi 1) }
{
    if more == 0 { phi } else { prove::least(phi, 1) }
}

// The numbers of the children that there were with those of the open ones: again a sum that no search has held.
fn open_numbers(m: Made, t: Siblings) -> Made
    requires { m.siblings.made ≤ t.made }
    ensures { result ≡ counting t m }
{
    let more = t.made - m.siblings.made;
    Made {
        siblings: t,
        phi: open_phi(m.phi, more),
        delta: prove::held_sum(m.delta, more),
        ..m
    }
}

// The children on board b, where no move can end the game: all are open.
fn open_board(words: &mut [u32], taken: u16, b: usize, and: bool, start: Made) -> Made
    requires { OpenBoard words.old taken b and start }
    ensures { (g : OpenBoard words.old taken b and start) → Progress g.leaf words.new result (moves_from g.leaf.node.pos (b * 9 + 9)) }
{
    let mut t = start.siblings;
    for c in 0..9 {
        if !game::has(taken, c) {
            t = add_open(words, t, Move::from_coords(b, c), and);
        }
    }
    open_numbers(start, t)
}

// The children on board b, where a move may end the game: each is evaluated, up to the first with delta 0.
fn ending_board(words: &mut [u32], p: Parent, mine: u16, taken: u16, b: usize, start: Made) -> Made
    requires { EndingBoard words.old p mine taken b start }
    ensures { (g : EndingBoard words.old p mine taken b start) → Progress g.leaf words.new result (moves_from g.leaf.node.pos (b * 9 + 9)) }
{
    let mut m = start;
    for c in 0..9 {
        if m.ended {
            break;
        }
        if !game::has(taken, c) {
            let value = children::child_value(p.outer, mine, taken, b, c, p.rule, p.attacker);
            m = add_child(words, m, Move::from_coords(b, c), value, p.and);
        }
    }
    m
}

// The children on board b, on which the mover may play.
fn board_children(
    words: &mut [u32],
    positions: &[u16; POSITIONS],
    p: Parent,
    b: usize,
    m: Made,
) -> Made
    requires { Playable words.old positions.now p b m }
    ensures { (g : Playable words.old positions.now p b m) → Progress g.leaf words.new result (moves_from g.leaf.node.pos (b * 9 + 9)) }
{
    let taken = children::taken_bits(positions, p.base, b);
    if children::may_end(p.outer, b) {
        let mine = children::mine_bits(positions, p.base, p.outer.side, b);
        ending_board(words, p, mine, taken, b, m)
    } else {
        open_board(words, taken, b, p.and, m)
    }
}

// The children with a free choice: on each board that is not done.
fn free_children(words: &mut [u32], positions: &[u16; POSITIONS], p: Parent, start: Made) -> Made
    requires { Unmade words.old positions.now p start × (9 ≤ p.outer.target) }
    ensures { (g : Unmade words.old positions.now p start) → Progress g.leaf words.new result [] }
{
    let mut m = start;
    for b in 0..9 {
        if m.ended {
            break;
        }
        if !game::has(p.outer.done, b) {
            m = board_children(words, positions, p, b, m);
        }
    }
    m
}

// All children of a leaf.
fn make_children(words: &mut [u32], positions: &[u16; POSITIONS], p: Parent, start: Made) -> Made
    requires { Unmade words.old positions.now p start }
    ensures { (g : Unmade words.old positions.now p start) → Progress g.leaf words.new result [] }
{
    let target = p.outer.target as usize;
    match target {
        0..=8 => board_children(words, positions, p, target, start),
        15 => free_children(words, positions, p, start),
        _ => start,
    }
}

// Marks a leaf as expanded, with the children from `first` on.
fn attach(words: &mut [u32], id: NodeID, first: NodeID)
    requires { Slot words.old id.0 × (expanded_in (word words.old id.0 PACKED) ≡ 0) }
    ensures { words.new ≡ attached words.old id.0 first.0 }
{
    node_pool::set_expanded(words, id);
    node_pool::set_first_child(words, id, first);
}

// One more is expanded, and so many are allocated more.
fn count(x: Prover, m: Made) -> Prover
    requires { (x.pool.allocated < counter_max) × (x.expanded < counter_max) × (m.siblings.made < pool_max) }
    ensures { result ≡ counted x m }
{
    Prover {
        pool: Pool {
            vacant: m.siblings.vacant,
            allocated: x.pool.allocated + m.siblings.made as u64,
            ..x.pool
        },
        expanded: x.expanded + 1,
        ..x
    }
}

// Expands the leaf at the path's place `x.depth`.
pub fn expand(
    words: &mut [u32],
    path: &[u32; PLIES],
    positions: &[u16; POSITIONS],
    x: Prover,
    rule: u64,
    attacker: usize,
) -> Ascent
    requires { Expandable words.old path.now positions.now x rule attacker }
    ensures { Expands words.old path.now positions.now x rule attacker words.new result }
{
    let id = NodeID(path[x.depth]);
    let base = positions::base(x.depth);
    let p = Parent {
        outer: Outer::read(positions, base),
        base,
        rule,
        attacker,
        and: !node_pool::and_in(node_pool::packed(words, id)),
    };
    let m = make_children(words, positions, p, Made::nothing(x.pool.vacant));
    attach(words, id, m.siblings.last);
    Ascent {
        prover: count(x, m),
        bounds: Bounds {
            phi: m.phi,
            delta: m.delta,
        },
    }
}
