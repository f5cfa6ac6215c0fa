// Step 3 of the plain machine: whether fewer nodes are free than an expansion of the leaf takes.

#![tactic(auto)]

ghost use Rattle.std.specs.Prelude.{◌≡◌, List, ℕ};
ghost use Rattle.rules.specs.Rules.{move_error};
ghost use Rattle.children.specs.Scalars.{OuterOf};
ghost use Rattle.room.specs.ChildCount.{Countable, EndsMaking, AllFrom, child_count};
ghost use Rattle.room.specs.Shortness.{AtLeaf, Short};

use children::Outer;
use game::Move;
use game::cursor::MoveIterator;
use positions::POSITIONS;
use prover::Prover;

// No position has more legal moves.
const MOST_MOVES: u64 = 81;

// Whether the child by a legal move has delta 0: an expansion makes no other after it.
fn ends_making(words: &[u16], base: usize, o: Outer, m: Move, rule: u64, attacker: usize) -> bool
    requires { (l : Countable words.now base attacker) × OuterOf l.position o × (move_error l.position m.0 ≡ 0) }
    ensures { EndsMaking words.now base o m.0 rule attacker result }
{
    let b = m.global();
    let mine = children::mine_bits(words, base, o.side, b);
    let taken = children::taken_bits(words, base, b);
    let value = children::child_value(o, mine, taken, b, m.local(), rule, attacker);
    children::leaf_bounds(value, o.side == attacker).delta == 0
}

// How many children an expansion makes: one a legal move, up to and with the first that has delta 0. No legal move stands before the place `start`.
fn count_from(words: &[u16], base: usize, o: Outer, start: usize, rule: u64, attacker: usize) -> u32
    requires { (l : Countable words.now base attacker) × AllFrom l o start }
    ensures { (l : Countable words.now base attacker) → AllFrom l o start → result ≡ child_count rule l }
{
    let mut cursor = MoveIterator { at: start };
    let mut n: u32 = 0;
    while let Some(m) = cursor.next(words, base) {
        n += 1;
        if ends_making(words, base, o, m, rule, attacker) {
            return n;
        }
    }
    n
}

// How many children an expansion of a position in play makes. With a target the moves begin at its board.
fn count_made(words: &[u16], base: usize, rule: u64, attacker: usize) -> u32
    requires { Countable words.now base attacker }
    ensures { (l : Countable words.now base attacker) → result ≡ child_count rule l }
{
    let o = Outer::read(words, base);
    let start = match o.target {
        0..=8 => o.target as usize * 9,
        _ => 0,
    };
    count_from(words, base, o, start, rule, attacker)
}

// Step 3. With 81 nodes free nothing is counted, and with one for each legal move no child is looked at.
pub fn is_short(
    words: &[u32],
    positions: &[u16; POSITIONS],
    x: Prover,
    rule: u64,
    attacker: usize,
) -> bool
    requires { (path : List ℕ) × AtLeaf words.now path positions.now x rule attacker }
    ensures { (path : List ℕ) → Short words.now path positions.now x rule attacker result }
{
    let free_nodes = x.pool.free_nodes(node_pool::capacity(words) as u64);
    if free_nodes >= MOST_MOVES {
        return false;
    }
    let base = positions::base(x.depth);
    if free_nodes >= children::count_moves(positions, base) as u64 {
        return false;
    }
    free_nodes < count_made(positions, base, rule, attacker) as u64
}
