// The move cursor, in place of game.rs's MoveIterator: a place among the cells, over a position's words.

ghost use Rattle.std.specs.Prelude.{◌≡◌, ◌<◌};
ghost use Rattle.rules.specs.Rules.{Position, board_states, playable, legal_moves};
ghost use Rattle.game.specs.Words.{Holds, Held};
ghost use Rattle.game.specs.Cursor.{move_at, moves_from, Stepped};

use crate::Move;

// The legal moves in move order, as a cursor over the 81 cells: at is the next to look at.
#[derive(Clone, Copy)]
pub struct MoveIterator {
    pub at: usize,
}

// Whether the cell at place i is a legal move's, in a game in play.
#[tactic(auto, using(crate::specs::Cursor::playable_is))]
fn is_playable(words: &[u16], base: usize, i: usize) -> bool
    requires { Held words.now base × (i < 81) }
    ensures { (p : Position) → Holds p words.now base → result ≡ playable p (board_states p.cells) (move_at i) }
{
    crate::check_cell(words, base, i / 9, i % 9).is_ok()
}

impl MoveIterator {
    #[tactic(auto, using(crate::specs::Cursor::moves_over, crate::specs::Cursor::moves_all))]
    pub fn from_game(words: &[u16], base: usize) -> Self
        requires { Held words.now base }
        ensures { (p : Position) → Holds p words.now base → legal_moves p ≡ moves_from p result.at }
    {
        if crate::game_state(words, base).terminal() {
            return MoveIterator { at: 81 };
        }
        MoveIterator { at: 0 }
    }

    // The next legal move, and the cursor past it; none, with the cursor where it was, if no move is left.
    #[tactic(auto, using(crate::specs::Cursor::looking_start, crate::specs::Cursor::looking_found))]
    pub fn next(&mut self, words: &[u16], base: usize) -> Option<Move>
        requires { Held words.now base }
        ensures { (p : Position) → Holds p words.now base → Stepped p self.old.at result self.new.at }
    {
        for i in self.at..81 {
            if is_playable(words, base, i) {
                self.at = i + 1;
                return Some(Move::from_coords(i / 9, i % 9));
            }
        }
        None
    }
}
