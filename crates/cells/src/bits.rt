// A record read bit by bit: what the reading by words is held to and timed against. Rests on the rules' record.

ghost use Rattle.std.specs.Prelude.{◌≡◌, ◌+◌, ◌≤◌, ◌<◌, length};
ghost use Rattle.rules.specs.Rules.{board};
ghost use Rattle.rules.specs.Record.{bit_at, number, position_of};
ghost use Rattle.cells.specs.Reading.{Masks, CellsRead};

use super::{Cells, Codes};

// That the bytes are 21 or more stays a clause of each function: an array's type would ask more of a caller with a longer slice.

// Bit o of the bytes, the most significant of each first.
#[tactic(auto, unfolding(rules::specs::Record::bit_at))]
pub fn bit_at(bytes: &[u8], o: usize) -> u8
    requires { (21 ≤ length bytes.now) × (o < 168) }
    ensures { result ≡ bit_at bytes.now o }
{
    (bytes[o / 8] >> (7 - o % 8)) % 2
}

// The number that k bits make, from bit o on.
pub fn number_at(bytes: &[u8], o: usize, k: usize) -> u8
    requires { (21 ≤ length bytes.now) × (o + k ≤ 168) × (k ≤ 8) }
    ensures { result ≡ number (bit_at bytes.now) o k }
{
    let mut v: u8 = 0;
    for j in 0..k {
        v = v * 2 + bit_at(bytes, o + j);
    }
    v
}

// The cells of board b.
pub fn board_cells(bytes: &[u8], b: usize) -> Codes
    requires { (21 ≤ length bytes.now) × (b < 9) }
    ensures { Masks (board (position_of bytes.now).cells b) result }
{
    let mut codes = Codes {
        x: 0,
        o: 0,
        rest: 0,
    };
    for c in 0..9 {
        codes = super::put(codes, c, number_at(bytes, 5 + 2 * (b * 9 + c), 2));
    }
    codes
}

// All 81 cells.
pub fn cells(bytes: &[u8]) -> Cells
    requires { 21 ≤ length bytes.now }
    ensures { CellsRead (position_of bytes.now).cells result }
{
    super::nine_boards(|b| board_cells(bytes, b))
}
