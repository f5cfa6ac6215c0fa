// The call on up to eight games: it reads the rest of its line, after the records, and runs the call.
ghost use Rattle.std.specs.Prelude.{◌<◌, ◌≤◌};

use crate::answers::{Answer, Outcome};
use crate::fields::Fields;
use crate::line::{Line, Unreadable};
use crate::search_lines::Settings;
use crate::{answers, fields, line, margin, search_lines};
use ultimattt::games_exports::GamesAnswer;

// How many games there are, and the fields of eight results, nine for each: past the last game all are 0.
type AllNumbers = [u64; 73];

// Puts the fields of a game's result into their places.
fn put_fields(all: &mut AllNumbers, game: usize, one: &Fields)
    requires { game < 8 }
{
    let start = 1 + game * 9;
    all[start..start + 9].copy_from_slice(one);
}

// The count and the fields that the library gives.
fn all_numbers(got: &GamesAnswer) -> AllNumbers {
    let mut all = [0; 73];
    all[0] = got.count;
    for (game, one) in got.results.iter().enumerate() {
        put_fields(&mut all, game, &fields::numbers(*one));
    }
    all
}

// The eight numbers that the next word spells, with commas between.
fn read_shares(line: &mut Line<'_>) -> Result<[u64; 8], Unreadable> {
    let word = line.word()?;
    let mut parts = word.split(|b| *b == b',');
    let mut shares = [0; 8];
    for share in shares.iter_mut() {
        *share = line::number_of(parts.next().ok_or(Unreadable)?)?;
    }
    match parts.next() {
        None => Ok(shares),
        Some(_) => Err(Unreadable),
    }
}

// Results up to the line's end, eight at most, with bars between.
fn read_results(line: &mut Line<'_>) -> Result<AllNumbers, Unreadable> {
    let mut all = [0; 73];
    put_fields(&mut all, 0, &fields::read(line)?);
    all[0] = 1;
    for game in 1..8 {
        if line.end().is_ok() {
            break;
        }
        put_fields(&mut all, game, &fields::read_barred(line)?);
        all[0] = game as u64 + 1;
    }
    Ok(all)
}

// Compares what the call gave with the answer that a line ends with. With a refusal the count and all fields are 0.
fn settle_games(line: Line<'_>, got: &GamesAnswer) -> Outcome {
    let given = Answer::given(got.code, got.index, all_numbers(got));
    answers::settle(answers::stored(line, [0; 73], read_results), given)
}

// The first word of a pool that a call on so many games may not write: the first past their parts, of as many whole nodes each. A refusal's count is 0, and the word the first of all.
fn closed_after(count: u64, words: usize) -> usize {
    if count == 0 {
        return 0;
    }
    let nodes = words as u64 / 5;
    ((nodes - nodes % count) * 5) as usize
}

// The call of games, and its answer. The pool comes first, as in `search_lines::run_search`.
fn run_games(
    line: Line<'_>,
    records: &[u8],
    rule: u64,
    x: Settings,
    shares: [u64; 8],
    margin: Option<f64>,
) -> Outcome
    requires { x.words ≤ 20484 }
{
    let mut pool = fields::fresh_pool();
    let got = ultimattt::games_exports::uttt_judge_games(
        records,
        &mut pool[..x.words],
        &shares,
        rule,
        x.limit,
        x.budget,
        x.interval,
        margin.is_some(),
        margin.unwrap_or(0.0),
    );
    let closed = closed_after(got.count, x.words);
    answers::both(settle_games(line, &got), fields::untouched(&pool, closed))
}

// `eight RECORDS RULE POOL-NODES LIMIT ALLOWANCE INTERVAL S1,..,S8 [MARGIN] => RESULTS`
pub fn judge(mut line: Line<'_>, records: &[u8]) -> Outcome {
    let rule = line.number()?;
    let x = search_lines::read_limits(&mut line)?;
    let shares = read_shares(&mut line)?;
    let margin = margin::read(&mut line)?;
    run_games(line, records, rule, x, shares, margin)
}
