// The cells of a record's 21 bytes as masks: taken from three words of eight bytes, and (bits.rt) read bit by bit.

#![tactic(auto)]

ghost use Rattle.std.specs.Prelude.{◌≡◌, List, ◌∷◌, ◌++◌, ℕ, ◌+◌, ◌*◌, ◌<◌, ◌≤◌, length};
ghost use Rattle.rules.specs.Rules.{answers, board};
ghost use Rattle.cells.specs.RecordWords.{together, words_of, cell_held};
ghost use Rattle.cells.specs.BoardBits.{code_in};
ghost use Rattle.cells.specs.Triples.{triple_table, packed};
ghost use Rattle.cells.specs.declared.Codes.{Codes};
ghost use Rattle.cells.specs.Reading.{Masks, Putting, CellsRead};

pub mod bits;
mod table;

// Codes of two bits, put one after the other, as masks: where they are 1, 2 and 3.
#[derive(Clone, Copy)]
pub struct Codes {
    pub x: u16,
    pub o: u16,
    pub rest: u16,
}

// One more code, at place c.
pub fn put(codes: Codes, c: usize, code: u8) -> Codes
    requires { Putting codes c × (code < 4) }
    ensures { (g : Putting codes c) → Masks (g.codes ++ (code ∷ List.[])) result }
{
    match code {
        0 => codes,
        1 => Codes {
            x: codes.x + game::bit(c),
            ..codes
        },
        2 => Codes {
            o: codes.o + game::bit(c),
            ..codes
        },
        _ => Codes {
            rest: codes.rest + game::bit(c),
            ..codes
        },
    }
}

// A word: the eight bytes from byte k on, the most significant first.
fn word_at(bytes: &[u8], k: usize) -> u64
    requires { k + 8 ≤ length bytes.now }
    ensures { result ≡ together bytes.now k 8 }
{
    u64::from_be_bytes(*bytes[k..].first_chunk().unwrap())
}

// A record's three words: those that begin at bytes 0, 8 and 13.
#[derive(Clone, Copy)]
pub struct RecordWords {
    pub first: u64,
    pub second: u64,
    pub third: u64,
}

#[tactic(auto, unfolding(crate::specs::RecordWords::words_of))]
pub fn record_words(bytes: &[u8]) -> RecordWords
    requires { 21 ≤ length bytes.now }
    ensures { result ≡ words_of bytes.now }
{
    RecordWords {
        first: word_at(bytes, 0),
        second: word_at(bytes, 8),
        third: word_at(bytes, 13),
    }
}

// The 18 bits of board b: whole in one of the words, but for board 3, which has cell 29.
fn board_bits(w: RecordWords, b: usize) -> u64
    requires { b < 9 }
    ensures { ((c : ℕ) → c < 9 → code_in result c ≡ cell_held w (b * 9 + c)) × (result < 262144) }
{
    if b < 3 {
        return (w.first >> (41 - 18 * b)) % 262144;
    }
    if b == 3 {
        return w.first % 32 * 8192 + (w.second >> 51);
    }
    if b < 6 {
        return (w.second >> (105 - 18 * b)) % 262144;
    }
    (w.third >> (145 - 18 * b)) % 262144
}

// The masks of three codes, by their six bits: lent from a static.
fn triple_table() -> &'static [u32; 64]
    ensures { result.now ≡ triple_table }
{
    &table::TRIPLES
}

#[tactic(auto, using(crate::proofs::Triples::triple_at, crate::proofs::Triples::packed_lt))]
fn triple(n: u64) -> u32
    requires { n < 64 }
    ensures { (result ≡ packed n) × (result < 2097152) }
{
    triple_table()[n as usize]
}

// The masks of a board's nine codes, from its 18 bits.
fn codes_of(v: u64) -> Codes
    requires { v < 262144 }
    ensures { Masks (answers (code_in v) 0 9) result }
{
    let p = triple(v / 4096) + triple(v / 64 % 64) * 8 + triple(v % 64) * 64;
    Codes {
        x: (p % 512) as u16,
        o: (p / 512 % 512) as u16,
        rest: (p / 262144) as u16,
    }
}

// Board b as masks, taken from the words.
fn board_cells(w: RecordWords, b: usize) -> Codes
    requires { b < 9 }
    ensures { Masks (board (answers (cell_held w) 0 81) b) result }
{
    codes_of(board_bits(w, b))
}

// The cells of nine boards: X's masks in words 0 to 8, O's in 9 to 17, as a position has them. rest is 0 exactly if no code is 3.
#[derive(Clone, Copy)]
pub struct Cells {
    pub words: [u16; 23],
    pub rest: u16,
}

// All 81 cells, board by board.
fn nine_boards<F: Fn(usize) -> Codes>(each: F) -> Cells
    requires { (b : ℕ) → b < 9 → F.pre each b }
    ensures { (cs : List ℕ) → ((b : ℕ) (r : Codes) → b < 9 → F.post each b r → Masks (board cs b) r) → CellsRead cs result }
{
    let mut words = [0u16; 23];
    let mut rest: u16 = 0;
    for b in 0..9 {
        let codes = each(b);
        words[b] = codes.x;
        words[9 + b] = codes.o;
        rest |= codes.rest;
    }
    Cells { words, rest }
}

// All 81 cells, taken from the words.
impl From<RecordWords> for Cells {
    ghost from_gives = { λ w r. CellsRead (answers (cell_held w) 0 81) r };

    fn from(w: RecordWords) -> Cells {
        nine_boards(|b| board_cells(w, b))
    }
}
