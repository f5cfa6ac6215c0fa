// Up to eight games judged together, out of one allowance of expansions, in parts of one pool: the two passes, and the call.

#![tactic(auto)]

ghost use Rattle.std.specs.Prelude.{◌≡◌, ℕ, length};
ghost use Rattle.rules.specs.Rules.{Position};
ghost use Rattle.pn.specs.Results.{result_of};
ghost use Rattle.games_checks.specs.Checks.{games};
ghost use Rattle.games_checks.specs.Common.{common_of};
ghost use Rattle.games_checks.specs.Earliest.{game_code};
ghost use Rattle.games.specs.Games.{no_result, games_call, PoolAfterGames};
ghost use Rattle.games.specs.GamesStatement.{GamesStatement};
ghost use Rattle.games.specs.Answers.{outcome_of};
ghost use Rattle.games.specs.Playing.{settings_of, Playable, FirstPassed, Halfway, SecondPassed, BothPassed};

use games_checks::{Common, GameRefusal, MOST_GAMES};
use pn::{Cause, SearchResult, Settings};
use prove::Evaluation;
use record::RECORD_LENGTH;
use resume::Kept;

// The words of a node.
const NODE: usize = 5;

// A search's settings: the common ones, with a budget.
fn settings_of(c: Common, budget: u64) -> Settings
    ensures { result ≡ settings_of c budget }
{
    Settings {
        rule: c.rule,
        limit: c.limit,
        budget,
        interval: c.interval,
        stay: c.stay,
    }
}

// The games after the first pass, and what is unspent. The array has room for the most games, whatever their number: fixed memory, a rule of the project.
#[derive(Clone, Copy)]
pub struct FirstPass {
    pub kept: [Kept; MOST_GAMES],
    pub unspent: u64,
}

// The first pass of n games, with parts of so many words: each runs up to its share, and is kept in pass, where the whole allowance is unspent at first. Both passes
// take shares, n, size and c: a struct for two calls would be no plainer.
fn first_pass(
    bytes: &[u8],
    words: &mut [u32],
    shares: &[u64; MOST_GAMES],
    n: usize,
    size: usize,
    c: Common,
    pass: &mut FirstPass,
)
    requires { Playable bytes.now words.old shares.now n size c × (length pass.old.kept ≡ 8) × (pass.old.unspent ≡ c.allowance) }
    ensures { FirstPassed bytes.now shares.now n size c words.old words.new pass.new }
{
    for i in 0..n {
        let b = i * RECORD_LENGTH;
        let root = record::load(&bytes[b..b + RECORD_LENGTH]).unwrap();
        let a = i * size;
        let s = settings_of(c, shares[i]);
        let k = resume::first(&mut words[a..a + size], root, s);
        pass.unspent -= k.running.prover.expanded;
        pass.kept[i] = k;
    }
}

// The result that stands where there is no game.
fn no_result() -> SearchResult
    ensures { result_of result ≡ no_result }
{
    SearchResult {
        verdict: Evaluation::Unknown,
        proof: 0,
        disproof: 0,
        allocated: 0,
        freed: 0,
        proved: 0,
        disproved: 0,
        expanded: 0,
        cause: Cause::SOLVED,
    }
}

// The second pass, in the same order: every game that its budget stopped goes on with all that is unspent.
fn second_pass(
    words: &mut [u32],
    shares: &[u64; MOST_GAMES],
    n: usize,
    size: usize,
    c: Common,
    kept: &[Kept; MOST_GAMES],
    left: u64,
) -> [SearchResult; MOST_GAMES]
    requires { (pos : ℕ → Position) × Halfway pos shares.now n size c words.old kept.now left }
    ensures { SecondPassed shares.now n size c kept.now left words.old words.new result }
{
    let mut results = [no_result(); MOST_GAMES];
    let mut unspent = left;
    for i in 0..n {
        let a = i * size;
        let s = settings_of(c, shares[i]);
        let turn = resume::second(&mut words[a..a + size], kept[i], s, unspent);
        results[i] = turn.result;
        unspent = turn.unspent;
    }
    results
}

// Both passes. The kept searches stand in one array, lent to each: some 35 KB, and no copy. A call that is refused makes none.
fn both_passes(
    bytes: &[u8],
    words: &mut [u32],
    shares: &[u64; MOST_GAMES],
    n: usize,
    size: usize,
    c: Common,
) -> [SearchResult; MOST_GAMES]
    requires { Playable bytes.now words.old shares.now n size c }
    ensures { BothPassed bytes.now shares.now n size c words.old words.new result }
{
    let mut first = FirstPass {
        kept: [resume::nothing(); MOST_GAMES],
        unspent: c.allowance,
    };
    first_pass(bytes, words, shares, n, size, c, &mut first);
    second_pass(words, shares, n, size, c, &first.kept, first.unspent)
}

// How many games there are, and their results, with zeros past them: the C interface has an array of eight and a count.
#[derive(Clone, Copy)]
pub struct JudgedGames {
    pub count: usize,
    pub results: [SearchResult; MOST_GAMES],
}

// Judges up to eight games.
pub fn judge_games(
    bytes: &[u8],
    words: &mut [u32],
    shares: &[u64; MOST_GAMES],
    c: Common,
) -> Result<JudgedGames, GameRefusal>
    ensures result_value { outcome_of result ≡ games_call bytes.now (length words.old) shares.now (common_of c) }
    ensures pool { PoolAfterGames (game_code result) (games bytes.now) words.old words.new }
    ensures promised { GamesStatement bytes.now shares.now (common_of c) words.old words.new (outcome_of result) }
{
    games_checks::check_number(bytes)?;
    let n = bytes.len() / RECORD_LENGTH;
    games_checks::earliest(bytes, n)?;
    let nodes = node_pool::capacity(words);
    games_checks::check_settings(nodes, shares, n, c)?;
    let size = nodes / n * NODE;
    let results = both_passes(bytes, words, shares, n, size, c);
    Ok(JudgedGames { count: n, results })
}
