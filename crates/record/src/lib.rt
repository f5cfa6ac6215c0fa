// The record of a position: 21 bytes, read with checks 1 to 6 and 22, and written.

#![tactic(auto)]

ghost use Rattle.std.specs.Prelude.{◌≡◌, ◌&&◌, ◌||◌, eqb, ltb, [], ◌∷◌, ◌++◌, ℕ, ◌+◌, ◌*◌, ◌/◌, ◌%◌, ◌^◌, ◌<◌, ◌≤◌, IfOk, length, get_or, drop, sum_by};
ghost use Rattle.std.specs.Int.Count.{ones};
ghost use Rattle.rules.specs.Rules.{Position, mark, count, state};
ghost use Rattle.rules.specs.Record.{number, position_of, position_refusal, refusal_to6, impossible_choice, refusal, record_bit, record_of};
ghost use Rattle.rules.specs.Refusals.{refuses, first_refusal};
ghost use Rattle.refusals.specs.Numbers.{refusal_code};
ghost use Rattle.game.specs.Masks.{has_bit};
ghost use Rattle.game.specs.Lines.{line_in};
ghost use Rattle.game.specs.Words.{Holds, Held};
ghost use Rattle.record.specs.Reading.{Whole, Coded, Shows, Adding, Checking, FieldsRead, FilledFrom, filled, side_mask};

use cells::{Cells, Codes};
use game::Game;
use refusals::Refusal;

// A record's length in bytes.
pub const RECORD_LENGTH: usize = 21;

// Where a position's words have, after the cells, the boards that X has won.
const X_WON: usize = 18;

// Those that O has won.
const O_WON: usize = 19;

// The drawn boards.
const DRAWN: usize = 20;

// The target.
const TARGET: usize = 21;

// The side to move.
const SIDE: usize = 22;

// The target that leaves the choice free.
const FREE_CHOICE: u16 = 15;

// The state of nine codes: the cells of a board, or the states of the boards. It is a code itself, as a cell's, and goes the same way through `cells::put`.
fn state_of(codes: Codes) -> u8
    requires { Whole codes }
    ensures { (result < 4) × ((g : Whole codes) → result ≡ state g.codes) }
{
    if game::line(codes.x) {
        return 1;
    }
    if game::line(codes.o) {
        return 2;
    }
    if codes.x + codes.o + codes.rest == 511 {
        return 3;
    }
    0
}

// Lines of both sides.
fn both_lines(codes: Codes) -> bool
    requires { Whole codes }
    ensures { result ≡ (line_in codes.x && line_in codes.o) }
{
    game::line(codes.x) && game::line(codes.o)
}

// What the boards so far show: their states, and whether one has lines of both sides.
#[derive(Clone, Copy)]
struct Shown {
    states: Codes,
    both: bool,
}

// One more board.
fn add(shown: Shown, b: usize, codes: Codes) -> Shown
    requires { Adding shown b codes }
    ensures { (g : Adding shown b codes) → Shows g.cells (b + 1) result }
{
    Shown {
        states: cells::put(shown.states, b, state_of(codes)),
        both: shown.both || both_lines(codes),
    }
}

// All nine boards.
fn show(words: &[u16; 23]) -> Shown
    requires { Coded words.now }
    ensures { (g : Coded words.now) → Shows g.cells 9 result }
{
    let mut shown = Shown {
        states: Codes {
            x: 0,
            o: 0,
            rest: 0,
        },
        both: false,
    };
    for b in 0..9 {
        let codes = Codes {
            x: words[b],
            o: words[9 + b],
            rest: 0,
        };
        shown = add(shown, b, codes);
    }
    shown
}

// How many cells a side has, from its nine masks.
fn count_cells(masks: &[u16]) -> u32
    requires { length masks.now ≤ 9 }
    ensures { result ≡ sum_by ones masks.now }
{
    masks.iter().map(|m| m.count_ones()).sum()
}

// The mask of the side to move. Tried in its place in `check`: the proof then goes through the two cases again at each use of the mask, and is no plainer.
fn of_side(codes: Codes, side: u8) -> u16
    ensures { result ≡ side_mask codes side }
{
    if side == 0 { codes.x } else { codes.o }
}

// What checks 3 to 6 look at: what the boards show, and how many cells each side has.
#[derive(Clone, Copy)]
struct Boards {
    shown: Shown,
    xs: u32,
    os: u32,
}

// Whether a target names a board, or leaves the choice free: 9 to 14 are neither, and four bits give nothing above 15.
fn is_target(target: u8) -> bool
    ensures { result ≡ (ltb target 9 || eqb target 15) }
{
    match target {
        0..=8 => true,
        9..=14 => false,
        15 => true,
        _ => false,
    }
}

// Whether a target names a board that is done.
fn names_done(target: u8, done: u16) -> bool
    ensures { result ≡ (ltb target 9 && has_bit done target) }
{
    match target {
        0..=8 => game::has(done, target as usize),
        _ => false,
    }
}

// Checks 2 (the target) to 6, in their order, once no cell has code 3. Where both sides have a line of boards, the side to move has one.
fn check(boards: Boards, target: u8, side: u8) -> Result<(), Refusal>
    requires { Checking boards target side }
    ensures { (g : Checking boards target side) → refusal_code result ≡ position_refusal g.position }
{
    if !is_target(target) {
        return Err(Refusal::Codes);
    }
    let states = boards.shown.states;
    let done = states.x + states.o + states.rest;
    refusals::first(&[
        (boards.xs != boards.os + side as u32, Refusal::Counts),
        (boards.shown.both, Refusal::TwoLines),
        (game::line(of_side(states, side)), Refusal::LineOfBoards),
        (names_done(target, done), Refusal::DoneTarget),
    ])
}

// A position's words, from those of its cells: the boards' states, the target and the side after them.
fn fill(mut words: [u16; 23], states: Codes, target: u8, side: u8) -> [u16; 23]
    ensures { result ≡ filled words states target side }
{
    words[X_WON] = states.x;
    words[O_WON] = states.o;
    words[DRAWN] = states.rest;
    words[TARGET] = target as u16;
    words[SIDE] = side as u16;
    words
}

// The words that were read, whatever checks 2 to 6 say of the position: load_bench's exports answer with them where one of these refuses it. Zeros if a cell has code 3.
pub fn read_words(read: Cells, target: u8, side: u8) -> [u16; 23]
    requires { FieldsRead read target side }
    ensures { (g : FieldsRead read target side) → read.rest ≡ 0 → FilledFrom g.position.cells read.words target side result }
{
    let Cells { words, rest } = read;
    if rest != 0 {
        return [0; 23];
    }
    fill(words, show(&words).states, target, side)
}

// All that comes after reading: check 2 of the cells, the other checks, and the position's words.
pub fn load_fields(read: Cells, target: u8, side: u8) -> Result<Game, Refusal>
    requires { FieldsRead read target side }
    ensures code { (g : FieldsRead read target side) → refusal_code result ≡ position_refusal g.position }
    ensures position { (g : FieldsRead read target side) → IfOk result (λ x. Holds g.position x.words 0) }
{
    if read.rest != 0 {
        return Err(Refusal::Codes);
    }
    let words = read.words;
    let shown = show(&words);
    let boards = Boards {
        shown,
        xs: count_cells(&words[..9]),
        os: count_cells(&words[9..18]),
    };
    check(boards, target, side)?;
    Ok(Game {
        words: fill(words, shown.states, target, side),
    })
}

// Checks 1 to 6, in their order, and the position's words.
#[tactic(auto, using(crate::proofs::Loading::refused_1))]
pub fn load_to_6(bytes: &[u8]) -> Result<Game, Refusal>
    ensures code { refusal_code result ≡ refusal_to6 bytes.now }
    ensures position { IfOk result (λ g. Holds (position_of bytes.now) g.words 0) }
{
    if bytes.len() != RECORD_LENGTH {
        return Err(Refusal::Length);
    }
    let w = cells::record_words(bytes);
    if w.third % 2 != 0 {
        return Err(Refusal::Codes);
    }
    let target = ((w.first >> 59) % 16) as u8;
    let side = (w.first >> 63) as u8;
    load_fields(Cells::from(w), target, side)
}

// What check 22 looks for, in a position's words: a cell is taken, no board is done, and the choice is free.
fn impossible_choice(words: &[u16; 23]) -> bool
    requires { Held words.now 0 }
    ensures { (p : Position) → Holds p words.now 0 → result ≡ impossible_choice p }
{
    words[TARGET] == FREE_CHOICE
        && game::done_bits(words, 0) == 0
        && count_cells(&words[..9]) + count_cells(&words[9..18]) != 0
}

// Check 22 after checks 1 to 6, which gave the position or a refusal.
pub fn check_choice(loaded: Result<Game, Refusal>) -> Result<Game, Refusal>
    requires { IfOk loaded (λ g. Held g.words 0) }
    ensures code { (p : Position) → IfOk loaded (λ g. Holds p g.words 0)
        → refusal_code result ≡ first_refusal (refusal_code loaded ∷ refuses 22 (impossible_choice p) ∷ []) }
    ensures position { (p : Position) → IfOk loaded (λ g. Holds p g.words 0) → IfOk result (λ g. Holds p g.words 0) }
{
    let game = loaded?;
    if impossible_choice(&game.words) {
        return Err(Refusal::ImpossibleChoice);
    }
    Ok(game)
}

// All checks of a record, in their order, and the position's words.
pub fn load(bytes: &[u8]) -> Result<Game, Refusal>
    ensures code { refusal_code result ≡ refusal bytes.now }
    ensures position { IfOk result (λ g. Holds (position_of bytes.now) g.words 0) }
{
    check_choice(load_to_6(bytes))
}

// A bit of cell i: the high one says O (1), the low one X (0).
fn cell_bit(words: &[u16], i: usize, side: usize) -> u8
    requires { Held words.now 0 × (i < 81) × (side < 2) }
    ensures { (p : Position) → Holds p words.now 0 → result ≡ get_or p.cells i 0 / 2 ^ side % 2 }
{
    game::has(game::player_bits(words, 0, side, i / 9), i % 9) as u8
}

// Bit o of the record of the position that the words hold.
fn record_bit(words: &[u16], o: usize) -> u8
    requires { Held words.now 0 × (o < 168) }
    ensures { (p : Position) → Holds p words.now 0 → result ≡ record_bit p o }
{
    match o {
        0 => game::side_to_move(words, 0) as u8,
        1..=4 => ((words[TARGET] >> (4 - o)) % 2) as u8,
        5..=166 => cell_bit(words, (o - 5) / 2, o % 2),
        _ => 0,
    }
}

// Byte k of that record.
fn record_byte(words: &[u16], k: usize) -> u8
    requires { Held words.now 0 × (k < 21) }
    ensures { (p : Position) → Holds p words.now 0 → result ≡ number (record_bit p) (8 * k) 8 }
{
    let mut v: u8 = 0;
    for j in 0..8 {
        v = v * 2 + record_bit(words, 8 * k + j);
    }
    v
}

// Writes the record of a position; what lies past its 21 bytes is untouched.
pub fn store(out: &mut [u8], g: Game)
    requires { (21 ≤ length out.old) × Held g.words 0 }
    ensures { (p : Position) → Holds p g.words 0 → out.new ≡ record_of p ++ drop 21 out.old }
{
    for k in 0..RECORD_LENGTH {
        out[k] = record_byte(&g.words, k);
    }
}
