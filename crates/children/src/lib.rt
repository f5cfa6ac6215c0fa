// The game's part of a leaf's expansion: how many legal moves the leaf has, and what each child is worth, told without playing its move.

#![tactic(auto)]

ghost use Rattle.std.specs.Prelude.{◌≡◌, false, cond, ◌<◌, ◌≤◌, length, eqb};
ghost use Rattle.rules.specs.Rules.{Position, mark, board, board_states, game_state, move_of, play, legal_moves};
ghost use Rattle.rules.specs.Record.{side_bit, player_of, Accepted};
ghost use Rattle.game.specs.Numbers.{player_number, state_number};
ghost use Rattle.game.specs.Masks.{mask, mask_of, nonzero, has_bit};
ghost use Rattle.game.specs.Words.{Holds, Held};
ghost use Rattle.game.specs.Cursor.{moves_from};
ghost use Rattle.machine.specs.Tree.{INFINITY};
ghost use Rattle.plain.specs.Plain.{game, game_of};
ghost use Rattle.prove.specs.Numbers.{verdict, Pair};
ghost use Rattle.words.specs.Packed.{view};
ghost use Rattle.children.specs.Scalars.{OuterOf, ChildOf};
ghost use Rattle.children.specs.After.{MayEnd};
ghost use Rattle.children.specs.Counts.{board_moves};
ghost use Rattle.children.specs.Leaves.{LeafBounds};

use game::{GameState, Player};
use prove::{Bounds, Evaluation};

// What an expansion needs of a position besides its cells: the boards that the mover has won, those that are done, the target and the side to move.
#[derive(Clone, Copy)]
pub struct Outer {
    pub won: u16,
    pub done: u16,
    pub target: u16,
    pub side: usize,
}

impl Outer {
    #[tactic(auto, using(crate::specs::Scalars::outer_of))]
    pub fn read(words: &[u16], base: usize) -> Self
        requires { Held words.now base }
        ensures { (p : Position) → Holds p words.now base → OuterOf p result }
    {
        let side = game::side_to_move(words, base);
        Outer {
            won: game::won_bits(words, base, side),
            done: game::done_bits(words, base),
            target: game::target(words, base),
            side,
        }
    }
}

// The mover's cells on board b, nine bits.
#[tactic(auto, using(crate::specs::Taken::mine_is))]
pub fn mine_bits(words: &[u16], base: usize, side: usize, b: usize) -> u16
    requires { Held words.now base × (side < 2) × (b < 9) }
    ensures { (p : Position) → Holds p words.now base → side ≡ side_bit p.side → result ≡ mask (mark p.side) (board p.cells b) }
{
    game::player_bits(words, base, side, b)
}

// The cells of board b that are taken, nine bits.
#[tactic(auto, using(crate::specs::Taken::taken_is))]
pub fn taken_bits(words: &[u16], base: usize, b: usize) -> u16
    requires { Held words.now base × (b < 9) }
    ensures value { (p : Position) → Holds p words.now base → result ≡ mask_of nonzero (board p.cells b) }
    ensures upper_bound { result < 512 }
{
    game::player_bits(words, base, 0, b) + game::player_bits(words, base, 1, b)
}

// The moves of board b, where the target leads there: its empty cells, or none if it is done.
#[tactic(auto, using(crate::specs::Counts::moves_none, crate::specs::Counts::moves_some))]
fn board_moves(words: &[u16], base: usize, done: u16, b: usize) -> u32
    requires { Held words.now base × (b < 9) }
    ensures value { (p : Position) → Holds p words.now base → done ≡ mask_of nonzero (board_states p.cells) → result ≡ board_moves p b }
    ensures upper_bound { result ≤ 9 }
{
    if game::has(done, b) {
        return 0;
    }
    (511 - taken_bits(words, base, b)).count_ones()
}

// The moves of all boards, with a free choice.
fn free_moves(words: &[u16], base: usize, done: u16) -> u32
    requires { Held words.now base }
    ensures { (p : Position) → Holds p words.now base → done ≡ mask_of nonzero (board_states p.cells) → p.target ≡ 15 → result ≡ length (moves_from p 0) }
{
    let mut n = 0;
    for b in 0..9 {
        n += board_moves(words, base, done, b);
    }
    n
}

// How many legal moves a position in play has.
pub fn count_moves(words: &[u16], base: usize) -> u32
    requires { Held words.now base }
    ensures { (p : Position) → Holds p words.now base → game_state p ≡ 0 → result ≡ length (legal_moves p) }
{
    let done = game::done_bits(words, base);
    let target = game::target(words, base) as usize;
    match target {
        0..=8 => board_moves(words, base, done, target),
        15 => free_moves(words, base, done),
        _ => 0,
    }
}

// Whether the end of board b, which is in play, can end the game.
pub fn may_end(o: Outer, b: usize) -> bool
    requires { ((p : Position) × OuterOf p o) × (b < 9) × (has_bit o.done b ≡ false) }
    ensures { MayEnd o b result }
{
    let own = game::bit(b);
    game::line(o.won + own) || o.done + own == 511
}

// The game's state once a board that ended has left so many done, and given the mover no line of boards.
fn rest_of_game(done: u16) -> GameState
    ensures { state_number result ≡ cond (eqb done 511) 3 0 }
{
    if done == 511 {
        GameState::Drawn
    } else {
        GameState::InPlay
    }
}

fn player(side: usize) -> Player
    requires { side < 2 }
    ensures { player_number result ≡ side }
{
    if side == 0 { Player::X } else { Player::O }
}

// The game's state after the mover, who has mine of the taken cells of board b, takes cell c there.
pub fn state_after(o: Outer, mine: u16, taken: u16, b: usize, c: usize) -> GameState
    requires { (p : Position) × ChildOf p o mine taken b c }
    ensures { (p : Position) → ChildOf p o mine taken b c → state_number result ≡ game_state (play p (move_of b c)) }
{
    let own = game::bit(b);
    let cell = game::bit(c);
    let line = game::line(mine + cell);
    if line && game::line(o.won + own) {
        return GameState::Won(player(o.side));
    }
    if line || taken + cell == 511 {
        return rest_of_game(o.done + own);
    }
    GameState::InPlay
}

// What the child by cell c of board b is worth to the attacker, the root's side. Rule and attacker are numbers: every number has an answer, and a narrower type
// would ask more of callers.
#[tactic(auto, using(crate::specs::Leaves::child_evaluated, crate::specs::After::outer_small))]
pub fn child_value(
    o: Outer,
    mine: u16,
    taken: u16,
    b: usize,
    c: usize,
    rule: u64,
    attacker: usize,
) -> Evaluation
    requires { (p : Position) × ChildOf p o mine taken b c }
    ensures { (p : Position) → ChildOf p o mine taken b c → verdict result ≡ (view (game rule (player_of attacker))).value (play p (move_of b c)) }
{
    let state = state_after(o, mine, taken, b, c);
    evaluate::evaluate(rule, attacker, 1 - o.side, state)
}

// What an accepted position is worth to its own side to move.
pub fn root_value(words: &[u16], base: usize, rule: u64) -> Evaluation
    requires { Held words.now base }
    ensures { (p : Position) → Holds p words.now base → Accepted p → verdict result ≡ (view (game_of rule p)).value p }
{
    evaluate::evaluate_at(words, base, rule, game::side_to_move(words, base))
}

// A leaf that its mover has won, or lost.
fn decided(won: bool) -> Bounds
    ensures { Pair result.phi result.delta (cond won 0 INFINITY) (cond won INFINITY 0) }
{
    if won {
        Bounds::winning()
    } else {
        Bounds::losing()
    }
}

// The numbers of a leaf, by its evaluation and whether the other side is to move there.
#[tactic(auto, using(crate::specs::Leaves::leaf_bounds))]
pub fn leaf_bounds(value: Evaluation, and: bool) -> Bounds
    ensures { LeafBounds (verdict value) and result.phi result.delta }
{
    match value {
        Evaluation::Unknown => Bounds::unity(),
        Evaluation::True => decided(!and),
        Evaluation::False => decided(and),
    }
}
