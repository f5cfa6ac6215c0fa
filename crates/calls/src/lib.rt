// The calls without a search: replay, legal moves, and the referee's value of a record.

#![tactic(auto)]

ghost use Rattle.std.specs.Prelude.{◌≡◌, ◌≤◌, IfOk, length};
ghost use Rattle.rules.specs.Rules.{Position, legal_moves};
ghost use Rattle.rules.specs.Record.{position_of};
ghost use Rattle.refusals.specs.Numbers.{refusal_code};
ghost use Rattle.game.specs.Words.{Holds, Held};
ghost use Rattle.calls.specs.declared.ReplayError.TheVariants.{Refused};
ghost use Rattle.calls.specs.Calls.{output_refusal, replay_call, moves_call, referee_call};
ghost use Rattle.calls.specs.Answers.{replayed, listing, refereed};
ghost use Rattle.calls.specs.Playing.{Played};
ghost use Rattle.calls.specs.Writing.{Written};

use game::cursor::MoveIterator;
use game::{Game, Move, MoveError};
use refusals::Refusal;

// The shortest output that takes a record, and the shortest that takes every legal move.
pub const RECORD_LENGTH: usize = 21;

const MOVES_LENGTH: usize = 81;

// The largest draw rule, for a search too, and the most empty cells in boards in play that the referee takes.
pub const LAST_RULE: u64 = 2;

const MOST_OPEN: usize = 9;

// Why replay is turned back: a check refuses it, or a move is bad, with its index.
#[derive(Clone, Copy, PartialEq, Eq)]
pub enum ReplayError {
    Refused(Refusal),
    BadMove(MoveError, usize),
}

impl From<Refusal> for ReplayError {
    ghost from_gives = { λ r e. e ≡ Refused r };

    fn from(refusal: Refusal) -> ReplayError {
        ReplayError::Refused(refusal)
    }
}

// Moves made one after the other: the result of the last one tried, how many were made (a bad one has that index), and the position after them.
#[derive(Clone, Copy)]
pub struct Line {
    pub result: Result<(), MoveError>,
    pub count: usize,
    pub game: Game,
}

// Makes the moves, up to the first bad one.
pub fn play_line(start: Game, moves: &[u8]) -> Line
    requires { Held start.words 0 }
    ensures { (p : Position) → Holds p start.words 0 → Played p moves.now result }
{
    let mut game = start;
    for (count, &m) in moves.iter().enumerate() {
        match game.make_move(Move(m)) {
            Ok(next) => game = next,
            Err(e) => {
                return Line {
                    result: Err(e),
                    count,
                    game,
                };
            }
        }
    }
    Line {
        result: Ok(()),
        count: moves.len(),
        game,
    }
}

// Writes the legal moves from the front of the output on, and counts them.
pub fn write_moves(words: &[u16], out: &mut [u8]) -> usize
    requires { Held words.now 0 × (81 ≤ length out.old) }
    ensures { (p : Position) → Holds p words.now 0 → Written (legal_moves p) out.old out.new result }
{
    let mut moves = MoveIterator::from_game(words, 0);
    let mut n = 0;
    while let Some(m) = moves.next(words, 0) {
        out[n] = m.0;
        n += 1;
    }
    n
}

// The checks of the record and 7 of a call whose output has so much room.
fn load_for(bytes: &[u8], room: usize, needed: usize) -> Result<Game, Refusal>
    ensures code { refusal_code result ≡ output_refusal bytes.now room needed }
    ensures position { IfOk result (λ g. Holds (position_of bytes.now) g.words 0) }
{
    let game = record::load(bytes)?;
    if room < needed {
        return Err(Refusal::ShortOutput);
    }
    Ok(game)
}

// Replays moves from a record and writes the record afterwards.
pub fn replay(bytes: &[u8], moves: &[u8], out: &mut [u8]) -> Result<(), ReplayError>
    ensures { replayed result out.new ≡ replay_call bytes.now moves.now out.old }
{
    let start = load_for(bytes, out.len(), RECORD_LENGTH)?;
    let line = play_line(start, moves);
    if let Err(e) = line.result {
        return Err(ReplayError::BadMove(e, line.count));
    }
    record::store(out, line.game);
    Ok(())
}

// Lists the legal moves of a record, and counts them.
pub fn legal_moves(bytes: &[u8], out: &mut [u8]) -> Result<usize, Refusal>
    ensures { listing result out.new ≡ moves_call bytes.now out.old }
{
    let game = load_for(bytes, out.len(), MOVES_LENGTH)?;
    Ok(write_moves(&game.words, out))
}

// The value of a small ending by going through everything that can follow.
pub fn referee(bytes: &[u8], rule: u64) -> Result<bool, Refusal>
    ensures { refereed result ≡ referee_call bytes.now rule }
{
    let pos = record::load(bytes)?;
    refusals::first(&[
        (rule > LAST_RULE, Refusal::Range),
        (
            referee::open_cells(&pos.words, 0) > MOST_OPEN,
            Refusal::ManyOpenCells,
        ),
    ])?;
    Ok(referee::value(pos, rule))
}
