// The call of simulated players: it reads the rest of its line, after the record, and runs the call.
ghost use Rattle.std.specs.Prelude.{◌≤◌};

use crate::answers::{Answer, Outcome};
use crate::line::Line;
use crate::{answers, fields, margin, search_lines};
use ultimattt::players_exports::SimulateAnswer;

// Compares what the call gave with the answer that a line ends with. With a refusal the report's numbers are 0.
fn settle_report(line: Line<'_>, got: SimulateAnswer) -> Outcome {
    let given = Answer::given(
        got.code,
        got.index,
        [got.x_wins, got.o_wins, got.draws, got.expanded],
    );
    answers::settle(answers::stored(line, [0; 4], |line| line.numbers()), given)
}

// Whether a record's game has a move left: else it is over, or the record is refused.
fn has_moves(record: &[u8]) -> bool {
    let mut out = [0u8; 81];
    ultimattt::exports::uttt_legal_moves(record, &mut out).count != 0
}

// The first word of a pool that the call may not write. Of a game that is over nothing is searched: then it is the first of all.
fn closed_after(record: &[u8], code: u32, words: usize) -> usize {
    if has_moves(record) {
        search_lines::closed_from(code, words)
    } else {
        0
    }
}

// The call of simulate, and its answer: the line's seven numbers, so many words lent. The pool comes first, as in `search_lines::run_search`.
fn run_players(
    line: Line<'_>,
    record: &[u8],
    numbers: [u64; 7],
    words: usize,
    margin: Option<f64>,
) -> Outcome
    requires { words ≤ 20484 }
{
    let mut pool = fields::fresh_pool();
    let [seed, games, _, limit, interval, x_budget, o_budget] = numbers;
    let got = ultimattt::players_exports::uttt_simulate(
        record,
        &mut pool[..words],
        seed,
        games,
        limit,
        x_budget,
        o_budget,
        interval,
        margin.is_some(),
        margin.unwrap_or(0.0),
    );
    let closed = closed_after(record, got.code, words);
    answers::both(settle_report(line, got), fields::untouched(&pool, closed))
}

// `sim RECORD SEED GAMES POOL-NODES LIMIT INTERVAL X-BUDGET O-BUDGET [MARGIN] => X-WINS O-WINS DRAWS EXPANSIONS`
pub fn simulate(mut line: Line<'_>, record: &[u8]) -> Outcome {
    let numbers: [u64; 7] = line.numbers()?;
    let margin = margin::read(&mut line)?;
    let words = search_lines::lent_words(numbers[2])?;
    run_players(line, record, numbers, words, margin)
}
