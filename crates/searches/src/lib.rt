// The calls search and full verdict, the checks that every search takes, and two searches of one record.

#![tactic(auto)]

ghost use Rattle.std.specs.Prelude.{◌≡◌, List, ℕ, IfOk, length};
ghost use Rattle.rules.specs.Record.{position_of};
ghost use Rattle.refusals.specs.Numbers.{refusal_code};
ghost use Rattle.game.specs.Words.{Holds};
ghost use Rattle.machine.specs.Machine.{Result};
ghost use Rattle.prove.specs.Numbers.{verdict};
ghost use Rattle.searches.specs.Searches.{search_refusal, search_call, PoolAfter, full_of, full_call, PoolAfterFull};
ghost use Rattle.searches.specs.Searches.{Answered as answers};
ghost use Rattle.searches.specs.Answers.{limits_of, searched, full_verdict, judged};
ghost use Rattle.searches.specs.Accepting.{Passed, SearchesPassed};
ghost use Rattle.searches.specs.ThirdCondition.{ThirdCondition};

use calls::LAST_RULE;
use game::Game;
use pn::{SearchResult, Settings};
use prove::Evaluation;
use refusals::Refusal;
use stay::Stay;

// The ends of search's ranges: nodes of the pool, interval, budget.
pub const LEAST_NODES: usize = 1;

pub const MOST_NODES: usize = 16777216;

pub const LEAST_INTERVAL: u64 = 1;

pub const MOST_INTERVAL: u64 = 1000000;

pub const MOST_BUDGET: u64 = 3000000;

// What a search is given beside the record, the pool and the rule. The settings of pn, of games and of players share three or four fields with it: one struct within the
// others would give each read one more name, and the records of the definitions (Limits, common, players) are flat.
#[derive(Clone, Copy)]
pub struct SearchLimits {
    pub limit: u64,
    pub budget: u64,
    pub interval: u64,
    pub stay: Stay,
}

// All of search's checks, in their order, of a pool with so many nodes: the position, or the first that refuses.
pub fn accept(bytes: &[u8], nodes: usize, rule: u64, l: SearchLimits) -> Result<Game, Refusal>
    ensures code { refusal_code result ≡ search_refusal bytes.now nodes rule (limits_of l) }
    ensures position { IfOk result (λ g. Holds (position_of bytes.now) g.words 0) }
{
    let game = record::load(bytes)?;
    refusals::first(&[
        (nodes < LEAST_NODES, Refusal::NoNode),
        (nodes > MOST_NODES, Refusal::ManyNodes),
        (rule > LAST_RULE, Refusal::Range),
        (l.interval < LEAST_INTERVAL, Refusal::Range),
        (l.interval > MOST_INTERVAL, Refusal::Range),
        (l.budget > MOST_BUDGET, Refusal::Range),
        (!stay::in_range(l.stay), Refusal::Margin),
    ])?;
    Ok(game)
}

// Searches an accepted record's position in the lent pool.
pub fn search_accepted(start: Game, words: &mut [u32], rule: u64, l: SearchLimits) -> SearchResult
    requires { (bytes : List ℕ) × Passed bytes start.words (length words.old) rule (limits_of l) }
    ensures { SearchesPassed start.words rule (limits_of l) words.old words.new result }
{
    let s = Settings {
        rule,
        limit: l.limit,
        budget: l.budget,
        interval: l.interval,
        stay: l.stay,
    };
    pn::search(words, start, s)
}

// Searches a record's position in the lent pool.
pub fn search(
    bytes: &[u8],
    words: &mut [u32],
    rule: u64,
    l: SearchLimits,
) -> Result<SearchResult, Refusal>
    ensures { (searched result ≡ search_call bytes.now (length words.old) rule (limits_of l)) × PoolAfter (searched result) words.old words.new }
{
    let start = accept(bytes, node_pool::capacity(words), rule, l)?;
    Ok(search_accepted(start, words, rule, l))
}

// The answers of two searches.
#[derive(Clone, Copy)]
pub struct TwoOutcomes {
    pub first: Result<SearchResult, Refusal>,
    pub second: Result<SearchResult, Refusal>,
}

// Two searches of one record under one rule, each in its own pool: the third condition, of code.
pub fn two_searches(
    bytes: &[u8],
    rule: u64,
    words: &mut [u32],
    l: SearchLimits,
    words2: &mut [u32],
    l2: SearchLimits,
) -> TwoOutcomes
    ensures third_condition { (x y : Result) → searched result.first ≡ answers x → searched result.second ≡ answers y → ThirdCondition bytes.now rule (limits_of l) (limits_of l2) (length words.old) (length words2.old) x y }
    ensures first { (searched result.first ≡ search_call bytes.now (length words.old) rule (limits_of l)) × PoolAfter (searched result.first) words.old words.new }
    ensures second { (searched result.second ≡ search_call bytes.now (length words2.old) rule (limits_of l2)) × PoolAfter (searched result.second) words2.old words2.new }
{
    let first = search(bytes, words, rule, l);
    let second = search(bytes, words2, rule, l2);
    TwoOutcomes { first, second }
}

// The six full verdicts.
#[derive(Clone, Copy, PartialEq, Eq)]
pub enum FullVerdict {
    Win,
    Loss,
    Draw,
    AtLeastDraw,
    AtMostDraw,
    Undecided,
}

// A full verdict, with the results under rules 1 and 2.
#[derive(Clone, Copy)]
pub struct Full {
    pub verdict: FullVerdict,
    pub first: SearchResult,
    pub second: SearchResult,
}

// The full verdict, from the verdicts under rules 1 and 2.
#[tactic(auto, unfolding(crate::specs::Searches::full_of))]
fn full_of(first: Evaluation, second: Evaluation) -> FullVerdict
    ensures { full_verdict result ≡ full_of (verdict first) (verdict second) }
{
    match (first, second) {
        (Evaluation::True, _) => FullVerdict::Win,
        (Evaluation::False, Evaluation::True) => FullVerdict::Draw,
        (Evaluation::Unknown, Evaluation::True) => FullVerdict::AtLeastDraw,
        (_, Evaluation::False) => FullVerdict::Loss,
        (Evaluation::False, Evaluation::Unknown) => FullVerdict::AtMostDraw,
        (Evaluation::Unknown, Evaluation::Unknown) => FullVerdict::Undecided,
    }
}

// Searches a record's position under rule 1, then under rule 2, each from a fresh pool: nothing that the first left in the words counts. Its checks are those of
// a search under any rule.
pub fn full_verdict(bytes: &[u8], words: &mut [u32], l: SearchLimits) -> Result<Full, Refusal>
    ensures { (judged result ≡ full_call bytes.now (length words.old) (limits_of l)) × PoolAfterFull (judged result) words.old words.new }
{
    let start = accept(bytes, node_pool::capacity(words), 0, l)?;
    let first = search_accepted(start, words, 1, l);
    let second = search_accepted(start, words, 2, l);
    Ok(Full {
        verdict: full_of(first.verdict, second.verdict),
        first,
        second,
    })
}
