// Records read in both ways, for the bench that times them. The crate load_bench_c exports them; no crate of the product stands on this one.

#![tactic(auto)]

ghost use Rattle.std.specs.Prelude.{◌≡◌, ◌<◌, ◌≤◌, IfOk, length, replicate};
ghost use Rattle.rules.specs.Record.{position_of, refusal_to6, refusal};
ghost use Rattle.refusals.specs.Numbers.{refusal_code};
ghost use Rattle.game.specs.Words.{Holds};
ghost use Rattle.cells.specs.Reading.{BoardsRead};

use cells::Cells;
use game::Game;
use record::RECORD_LENGTH;
use refusals::Refusal;

// A record's last bit, which is 0.
const LAST_BIT: usize = 167;

// The cells of a record as C has them: X's nine masks, O's, and five words without a meaning; rest is 0 exactly if no code is 3.
#[repr(C)]
#[derive(Clone, Copy)]
pub struct BenchCells {
    pub words: [u16; 23],
    pub rest: u16,
}

// For fewer than 21 bytes.
const NO_CELLS: BenchCells = BenchCells {
    words: [0; 23],
    rest: 0,
};

impl From<Cells> for BenchCells {
    ghost from_gives = { λ read r. (r.words ≡ read.words) × (r.rest ≡ read.rest) };

    fn from(read: Cells) -> BenchCells {
        let Cells { words, rest } = read;
        BenchCells { words, rest }
    }
}

// The cells, from the record's three words.
pub fn bench_cells_from_words(bytes: &[u8]) -> BenchCells
    ensures { (21 ≤ length bytes.now → BoardsRead (position_of bytes.now).cells 9 result.words result.rest)
        × (length bytes.now < 21 → (result.words ≡ replicate 23 0) × (result.rest ≡ 0)) }
{
    if bytes.len() < RECORD_LENGTH {
        return NO_CELLS;
    }
    Cells::from(cells::record_words(bytes)).into()
}

// The same cells, bit by bit. C asks for each way by its name; with the way as a parameter the two would be no plainer, a reader and what it needs for a line.
pub fn bench_cells_bit_by_bit(bytes: &[u8]) -> BenchCells
    ensures { (21 ≤ length bytes.now → BoardsRead (position_of bytes.now).cells 9 result.words result.rest)
        × (length bytes.now < 21 → (result.words ≡ replicate 23 0) × (result.rest ≡ 0)) }
{
    if bytes.len() < RECORD_LENGTH {
        return NO_CELLS;
    }
    cells::bits::cells(bytes).into()
}

// Checks 1 to 6 and the position's words, as `record::load_to_6` but for the reading, which is bit by bit.
fn load_bit_by_bit_to_6(bytes: &[u8]) -> Result<Game, Refusal>
    ensures code { refusal_code result ≡ refusal_to6 bytes.now }
    ensures position { IfOk result (λ g. Holds (position_of bytes.now) g.words 0) }
{
    if bytes.len() != RECORD_LENGTH {
        return Err(Refusal::Length);
    }
    if cells::bits::bit_at(bytes, LAST_BIT) != 0 {
        return Err(Refusal::Codes);
    }
    let target = cells::bits::number_at(bytes, 1, 4);
    let side = cells::bits::bit_at(bytes, 0);
    record::load_fields(cells::bits::cells(bytes), target, side)
}

// A whole load, as `record::load`.
fn load_bit_by_bit(bytes: &[u8]) -> Result<Game, Refusal>
    ensures code { refusal_code result ≡ refusal bytes.now }
    ensures position { IfOk result (λ g. Holds (position_of bytes.now) g.words 0) }
{
    record::check_choice(load_bit_by_bit_to_6(bytes))
}

// A load as C has it: 0 and the position's words, or the number of the check that refuses the record. The C interface needs both.
#[repr(C)]
#[derive(Clone, Copy)]
pub struct BenchLoaded {
    pub code: u32,
    pub words: [u16; 23],
}

impl From<Result<Game, Refusal>> for BenchLoaded {
    ghost from_gives = { λ loaded r. (r.code ≡ refusal_code loaded) × IfOk loaded (λ g. r.words ≡ g.words) };

    fn from(loaded: Result<Game, Refusal>) -> BenchLoaded {
        match loaded {
            Ok(game) => {
                let words = game.words;
                BenchLoaded { code: 0, words }
            }
            Err(refusal) => BenchLoaded {
                code: refusal.number() as u32,
                words: [0; 23],
            },
        }
    }
}

// The words that were read of a refused record; zeros where its length or its last bit refuses it.
fn refused_words(bytes: &[u8]) -> [u16; 23] {
    if bytes.len() != RECORD_LENGTH {
        return [0; 23];
    }
    let w = cells::record_words(bytes);
    if w.third % 2 != 0 {
        return [0; 23];
    }
    let target = ((w.first >> 59) % 16) as u8;
    let side = (w.first >> 63) as u8;
    record::read_words(Cells::from(w), target, side)
}

// A load's answer: a record that one of checks 2 to 6 refuses has the words that were read of it, or zeros where the last bit or a cell of code 3 refuses it.
fn answer(bytes: &[u8], loaded: Result<Game, Refusal>) -> BenchLoaded
    ensures { (result.code ≡ refusal_code loaded) × IfOk loaded (λ g. result.words ≡ g.words) }
{
    let answer = BenchLoaded::from(loaded);
    match loaded {
        Ok(_) | Err(Refusal::ImpossibleChoice) => answer,
        Err(_) => BenchLoaded {
            words: refused_words(bytes),
            ..answer
        },
    }
}

pub fn bench_load(bytes: &[u8]) -> BenchLoaded
    ensures { (result.code ≡ refusal bytes.now) × (result.code ≡ 0 → Holds (position_of bytes.now) result.words 0) }
{
    answer(bytes, record::load(bytes))
}

pub fn bench_load_bit_by_bit(bytes: &[u8]) -> BenchLoaded
    ensures { (result.code ≡ refusal bytes.now) × (result.code ≡ 0 → Holds (position_of bytes.now) result.words 0) }
{
    answer(bytes, load_bit_by_bit(bytes))
}
