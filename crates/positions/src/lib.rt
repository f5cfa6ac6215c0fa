// The positions of the line that a search follows, a ply a place of 24 words in one flat array: the root's at ply 0.

#![tactic(auto)]

ghost use Rattle.std.specs.Prelude.{◌≡◌, ◌+◌, ◌*◌, ◌<◌, length};
ghost use Rattle.rules.specs.Rules.{Position};
ghost use Rattle.game.specs.Words.{Holds};
ghost use Rattle.game.specs.Moves.{Movable};
ghost use Rattle.positions.specs.Plies.{Copied, Pushed};

use game::{Game, Move};

// The words of a ply: a position's, and one that holds nothing.
const PLY: usize = 24;

// 82 positions, one a ply and the root.
pub const POSITIONS: usize = 82 * PLY;

// Where the position of ply d stands.
pub fn base(d: usize) -> usize
    requires { d < 82 }
    ensures { result ≡ d * 24 }
{
    d * PLY
}

// Copies the words of ply d to the next: all 24, the last of which holds nothing, since three moves of eight words are quicker.
fn copy_ply(positions: &mut [u16; POSITIONS], d: usize)
    requires { d < 81 }
    ensures { Copied d positions.old positions.new }
{
    positions.copy_within(base(d)..base(d) + PLY, base(d) + PLY);
}

// The position at ply d with a legal move made, at the next ply.
pub fn push(positions: &mut [u16; POSITIONS], d: usize, m: Move)
    requires { (d < 81) × Movable positions.old (d * 24) m.0 }
    ensures { Pushed d m.0 positions.old positions.new }
{
    copy_ply(positions, d);
    game::apply_move(positions, base(d) + PLY, m);
}

// The root's position at ply 0.
pub fn start(positions: &mut [u16; POSITIONS], g: Game)
    ensures { (p : Position) → Holds p g.words 0 → Holds p positions.new 0 }
{
    positions[..23].copy_from_slice(&g.words);
}
