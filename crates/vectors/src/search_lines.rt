// The calls that lend a pool and no book, search and full verdict: each reads the rest of its line, after the record, and runs the call.
ghost use Rattle.std.specs.Prelude.{◌≤◌, IfOk, IsOk};
ghost use Rattle.vectors.specs.Lent.{Lendable};

use crate::answers::{Answer, Outcome};
use crate::line::{Line, Unreadable};
use crate::{answers, fields, margin};
use ultimattt::exports::{FullAnswer, SearchAnswer};

// The most nodes that a pool is lent with: `fields::fresh_pool` has five words for each, and four more.
const MOST_NODES: u64 = 4096;

// How many words of a pool are lent, the limits of a search, and its margin, if it is to stay.
#[derive(Clone, Copy)]
pub struct Settings {
    pub words: usize,
    pub limit: u64,
    pub budget: u64,
    pub interval: u64,
    pub margin: Option<f64>,
}

// How many words of a pool of so many nodes are lent: five for each, and up to four more.
pub fn lent_words(nodes: u64) -> Result<usize, Unreadable>
    ensures few { IfOk result (λ words. words ≤ 20484) }
    ensures some { nodes ≤ 4096 → IsOk result }
{
    if nodes <= MOST_NODES {
        Ok((nodes * 5 + nodes % 5) as usize)
    } else {
        Err(Unreadable)
    }
}

// `POOL-NODES LIMIT BUDGET INTERVAL`, with the margin off.
pub fn read_limits(line: &mut Line<'_>) -> Result<Settings, Unreadable>
    ensures { Lendable result }
{
    let [nodes, limit, budget, interval]: [u64; 4] = line.numbers()?;
    Ok(Settings {
        words: lent_words(nodes)?,
        limit,
        budget,
        interval,
        margin: None,
    })
}

// `POOL-NODES LIMIT BUDGET INTERVAL [MARGIN] =>`
pub fn read_settings(line: &mut Line<'_>) -> Result<Settings, Unreadable>
    ensures { Lendable result }
{
    let limits = read_limits(line)?;
    Ok(Settings {
        margin: margin::read(line)?,
        ..limits
    })
}

// The first word of a pool that a call may not write, by its code: with an answer the first past the nodes, with a refusal the first of all.
pub fn closed_from(code: u32, words: usize) -> usize {
    if code == 0 { words / 5 * 5 } else { 0 }
}

// Compares what search gave with the answer that a line ends with. With a refusal all fields are 0.
fn settle_search(line: Line<'_>, got: SearchAnswer) -> Outcome {
    let given = Answer::given(got.code, got.index, fields::numbers(got.result));
    answers::settle(answers::stored(line, [0; 9], fields::read), given)
}

// The call of search, and its answer.
// The pool comes first: where a function can end before it, the place of the pool is cleared as well, and a short line takes twice as long or more.
fn run_search(line: Line<'_>, record: &[u8], rule: u64, x: Settings) -> Outcome
    requires { x.words ≤ 20484 }
{
    let mut pool = fields::fresh_pool();
    let got = ultimattt::exports::uttt_search(
        record,
        &mut pool[..x.words],
        rule,
        x.limit,
        x.budget,
        x.interval,
        x.margin.is_some(),
        x.margin.unwrap_or(0.0),
    );
    let closed = closed_from(got.code, x.words);
    answers::both(settle_search(line, got), fields::untouched(&pool, closed))
}

// `search RECORD RULE POOL-NODES LIMIT BUDGET INTERVAL [MARGIN] => FIELDS`
pub fn search(mut line: Line<'_>, record: &[u8]) -> Outcome {
    let rule = line.number()?;
    let x = read_settings(&mut line)?;
    run_search(line, record, rule, x)
}

// A full verdict and the fields of two results, in a line's order.
fn full_numbers(verdict: u64, first: fields::Fields, second: fields::Fields) -> [u64; 19] {
    let mut all = [verdict; 19];
    all[1..10].copy_from_slice(&first);
    all[10..].copy_from_slice(&second);
    all
}

// The full verdict that the next word names.
fn read_name(line: &mut Line<'_>) -> Result<u64, Unreadable> {
    match line.word()? {
        b"unknown" => Ok(0),
        b"win" => Ok(1),
        b"loss" => Ok(2),
        b"draw" => Ok(3),
        b"at-least-draw" => Ok(4),
        b"at-most-draw" => Ok(5),
        _ => Err(Unreadable),
    }
}

// A full verdict, and twice a bar and the fields of a result.
fn read_full(line: &mut Line<'_>) -> Result<[u64; 19], Unreadable> {
    let verdict = read_name(line)?;
    let first = fields::read_barred(line)?;
    let second = fields::read_barred(line)?;
    Ok(full_numbers(verdict, first, second))
}

// Compares what full verdict gave with the answer that a line ends with. With a refusal the verdict and all fields are 0.
fn settle_full(line: Line<'_>, got: FullAnswer) -> Outcome {
    let first = fields::numbers(got.first);
    let second = fields::numbers(got.second);
    let given = Answer::given(
        got.code,
        got.index,
        full_numbers(u64::from(got.verdict), first, second),
    );
    answers::settle(answers::stored(line, [0; 19], read_full), given)
}

// The call of full verdict, and its answer. The pool comes first, as in `run_search`.
fn run_full(line: Line<'_>, record: &[u8], x: Settings) -> Outcome
    requires { x.words ≤ 20484 }
{
    let mut pool = fields::fresh_pool();
    let got = ultimattt::exports::uttt_full_verdict(
        record,
        &mut pool[..x.words],
        x.limit,
        x.budget,
        x.interval,
        x.margin.is_some(),
        x.margin.unwrap_or(0.0),
    );
    let closed = closed_from(got.code, x.words);
    answers::both(settle_full(line, got), fields::untouched(&pool, closed))
}

// `full RECORD POOL-NODES LIMIT BUDGET INTERVAL [MARGIN] => VERDICT | FIELDS | FIELDS`
pub fn full(mut line: Line<'_>, record: &[u8]) -> Outcome {
    let x = read_settings(&mut line)?;
    run_full(line, record, x)
}
