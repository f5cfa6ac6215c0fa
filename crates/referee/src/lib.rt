// The referee: the value of a small ending by going through everything that can follow. The root's side attacks and needs one move to True; the other
// side defends and needs one to False. The two turns call each other, and the empty cells fall at each call.

#![tactic(auto)]

ghost use Rattle.std.specs.Prelude.{◌≡◌, true, false, ◌<◌};
ghost use Rattle.rules.specs.Rules.{Position, board_states, move_error};
ghost use Rattle.rules.specs.Record.{Accepted, player_of};
ghost use Rattle.machine.specs.Game.{value};
ghost use Rattle.plain.specs.Plain.{game, value_of};
ghost use Rattle.game.specs.Words.{Holds, Held};
ghost use Rattle.game.specs.Cursor.{move_at};
ghost use Rattle.game.specs.Moves.{Movable, Moved};
ghost use Rattle.referee.specs.OpenCells.{open_cell, open_cells};
ghost use Rattle.referee.specs.Turns.{Turn};

use game::cursor::MoveIterator;
use game::{CellState, Game, Move};
use prove::Evaluation;

// The position after a legal move.
fn after(mut pos: Game, m: Move) -> Game
    requires { Movable pos.words 0 m.0 }
    ensures { (p : Position) → Holds p pos.words 0 → move_error p m.0 ≡ 0 → Moved p m.0 0 pos.words result.words }
{
    game::apply_move(&mut pos.words, 0, m);
    pos
}

// The attacker's turn: the root's side is to move. It and the defender's are not one function: document 01 has two turns that call each other.
#[cycle(attack_defend)]
fn attack(pos: Game, rule: u64, attacker: usize) -> bool
    requires { Turn pos.words attacker true }
    ensures { (t : Turn pos.words attacker true) → result ≡ value (game rule (player_of attacker)) t.position }
{
    match evaluate::evaluate_at(&pos.words, 0, rule, attacker) {
        Evaluation::True => return true,
        Evaluation::False => return false,
        Evaluation::Unknown => {}
    }
    let mut moves = MoveIterator::from_game(&pos.words, 0);
    while let Some(m) = moves.next(&pos.words, 0) {
        if defend(after(pos, m), rule, attacker) {
            return true;
        }
    }
    false
}

// The defender's turn: the other side is to move.
#[cycle(attack_defend)]
fn defend(pos: Game, rule: u64, attacker: usize) -> bool
    requires { Turn pos.words attacker false }
    ensures { (t : Turn pos.words attacker false) → result ≡ value (game rule (player_of attacker)) t.position }
{
    match evaluate::evaluate_at(&pos.words, 0, rule, attacker) {
        Evaluation::True => return true,
        Evaluation::False => return false,
        Evaluation::Unknown => {}
    }
    let mut moves = MoveIterator::from_game(&pos.words, 0);
    while let Some(m) = moves.next(&pos.words, 0) {
        if !attack(after(pos, m), rule, attacker) {
            return false;
        }
    }
    true
}

// The value of an accepted position for its side to move.
pub fn value(pos: Game, rule: u64) -> bool
    requires { (p : Position) × Holds p pos.words 0 × Accepted p }
    ensures { (p : Position) → Holds p pos.words 0 → Accepted p → result ≡ value_of rule p }
{
    attack(pos, rule, game::side_to_move(&pos.words, 0))
}

// Whether the cell at place i is empty and its board in play.
fn is_open(words: &[u16], base: usize, i: usize) -> bool
    requires { Held words.now base × (i < 81) }
    ensures { (p : Position) → Holds p words.now base → result ≡ open_cell p (board_states p.cells) (move_at i) }
{
    game::in_play(words, base, i / 9) && game::at(words, base, i / 9, i % 9) == CellState::Empty
}

// The empty cells in boards in play.
pub fn open_cells(words: &[u16], base: usize) -> usize
    requires { Held words.now base }
    ensures { (p : Position) → Holds p words.now base → result ≡ open_cells p }
{
    let mut n = 0;
    for i in 0..81 {
        if is_open(words, base, i) {
            n += 1;
        }
    }
    n
}
