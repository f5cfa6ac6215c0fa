// The calls as C has them: the parameters in a row, the structs and the numbers in place of enums are those of the C interface.

ghost use Rattle.std.specs.Prelude.{◌≡◌, List, ℕ, length, take};
ghost use Rattle.game.specs.Numbers.{error_number};
ghost use Rattle.pn.specs.Results.{result_of};
ghost use Rattle.calls.specs.Calls.{replay_outcome, moves_outcome, referee_outcome, replay_call, moves_call, referee_call};
ghost use Rattle.sheets.specs.Sheets.{sheets_outcome, sheets_call};
ghost use Rattle.stay.specs.Margin.{given};
ghost use Rattle.searches.specs.Searches.{limits, search_call, PoolAfter, full_call, PoolAfterFull};
ghost use Rattle.calls.specs.Answers.{replayed, listing, refereed};
ghost use Rattle.searches.specs.Answers.{full_verdict, searched, judged};
ghost use Rattle.ultimattt.specs.Exports.{fields, fields_of, search_numbers, searched_numbers, full_number, full_numbers, judged_numbers};

use calls::ReplayError;
use game::MoveError;
use pn::SearchResult;
use refusals::Refusal;
use searches::{Full, FullVerdict, SearchLimits};

// An error's number in the table of refusals. C has a number in place of the enum, and a From between game's type and u32 may not stand in this crate.
fn error_number(e: MoveError) -> u32
    ensures { result ≡ error_number e }
{
    match e {
        MoveError::OutOfBounds => 11,
        MoveError::GameOver => 12,
        MoveError::WonBoard => 13,
        MoveError::WrongBoard => 14,
        MoveError::NotEmpty => 15,
    }
}

// The answer of replay as C has it: code is 0 or the refusal's number, index the bad move's with 11 to 15 and 0 elsewhere.
#[repr(C)]
#[derive(Clone, Copy)]
pub struct ReplayAnswer {
    pub code: u32,
    pub index: u64,
}

impl From<Result<(), ReplayError>> for ReplayAnswer {
    ghost from_gives = { λ answer r. (out : List ℕ) → replay_outcome r.code r.index out ≡ replayed answer out };

    fn from(answer: Result<(), ReplayError>) -> ReplayAnswer {
        match answer {
            Ok(()) => ReplayAnswer { code: 0, index: 0 },
            Err(ReplayError::Refused(refusal)) => ReplayAnswer {
                code: refusal.number() as u32,
                index: 0,
            },
            Err(ReplayError::BadMove(e, i)) => ReplayAnswer {
                code: error_number(e),
                index: i as u64,
            },
        }
    }
}

pub fn uttt_replay(bytes: &[u8], moves: &[u8], out: &mut [u8]) -> ReplayAnswer
    ensures { replay_outcome result.code result.index out.new ≡ replay_call bytes.now moves.now out.old }
{
    calls::replay(bytes, moves, out).into()
}

// The answer of legal moves as C has it: code is 0 or the refusal's number, index 0, count how many moves were written.
#[repr(C)]
#[derive(Clone, Copy)]
pub struct MovesAnswer {
    pub code: u32,
    pub index: u64,
    pub count: u64,
}

impl From<Result<usize, Refusal>> for MovesAnswer {
    ghost from_gives = { λ answer r. (out : List ℕ) → moves_outcome r.code r.index r.count out ≡ listing answer out };

    fn from(answer: Result<usize, Refusal>) -> MovesAnswer {
        match answer {
            Ok(count) => MovesAnswer {
                code: 0,
                index: 0,
                count: count as u64,
            },
            Err(refusal) => MovesAnswer {
                code: refusal.number() as u32,
                index: 0,
                count: 0,
            },
        }
    }
}

pub fn uttt_legal_moves(bytes: &[u8], out: &mut [u8]) -> MovesAnswer
    ensures { moves_outcome result.code result.index result.count out.new ≡ moves_call bytes.now out.old }
{
    calls::legal_moves(bytes, out).into()
}

// The answer of referee as C has it: code is 0 or the refusal's number; index is 0; value is 1 for True, 2 for False, and 0 with a refusal.
#[repr(C)]
#[derive(Clone, Copy)]
pub struct RefereeAnswer {
    pub code: u32,
    pub index: u64,
    pub value: u32,
}

impl From<Result<bool, Refusal>> for RefereeAnswer {
    ghost from_gives = { λ answer r. referee_outcome r.code r.index r.value ≡ refereed answer };

    fn from(answer: Result<bool, Refusal>) -> RefereeAnswer {
        match answer {
            Ok(value) => RefereeAnswer {
                code: 0,
                index: 0,
                value: if value { 1 } else { 2 },
            },
            Err(refusal) => RefereeAnswer {
                code: refusal.number() as u32,
                index: 0,
                value: 0,
            },
        }
    }
}

pub fn uttt_referee(bytes: &[u8], rule: u64) -> RefereeAnswer
    ensures { referee_outcome result.code result.index result.value ≡ referee_call bytes.now rule }
{
    calls::referee(bytes, rule).into()
}

// The agreed opening of two sheets as C has it: how many moves of the first sheet it is, from its front on. The number, 0 or 7, goes into the lent one.
pub fn uttt_agreed_opening(first: &[u8], second: &[u8], out: &mut [u8], number: &mut u32) -> u64
    ensures out_after { sheets_outcome (take result first.now) number.new out.new ≡ sheets_call first.now second.now out.old }
    ensures count { result ≡ length (sheets_call first.now second.now out.old).part }
{
    match sheets::agreed_opening(first, second, out) {
        Ok(part) => {
            *number = 0;
            part.len() as u64
        }
        Err(refusal) => {
            *number = refusal.number() as u32;
            0
        }
    }
}

// The nine fields of a result as C has them: verdict is 0 Unknown, 1 True, 2 False.
#[repr(C)]
#[derive(Clone, Copy, Default)]
pub struct ResultFields {
    pub verdict: u32,
    pub proof: u32,
    pub disproof: u32,
    pub allocated: u64,
    pub freed: u64,
    pub proved: u64,
    pub disproved: u64,
    pub expanded: u64,
    pub cause: u32,
}

impl From<SearchResult> for ResultFields {
    ghost from_gives = { λ r f. fields f ≡ fields_of (result_of r) };

    fn from(r: SearchResult) -> ResultFields {
        ResultFields {
            verdict: r.verdict.number(),
            proof: r.proof,
            disproof: r.disproof,
            allocated: r.allocated,
            freed: r.freed,
            proved: r.proved,
            disproved: r.disproved,
            expanded: r.expanded,
            cause: r.cause.number() as u32,
        }
    }
}

// The answer of search as C has it: code is 0 or the refusal's number; index is 0; the result's fields, all 0 with a refusal.
#[repr(C)]
#[derive(Clone, Copy)]
pub struct SearchAnswer {
    pub code: u32,
    pub index: u64,
    pub result: ResultFields,
}

impl From<Result<SearchResult, Refusal>> for SearchAnswer {
    ghost from_gives = { λ answer r. search_numbers r ≡ searched_numbers (searched answer) };

    fn from(answer: Result<SearchResult, Refusal>) -> SearchAnswer {
        match answer {
            Ok(result) => SearchAnswer {
                code: 0,
                index: 0,
                result: result.into(),
            },
            Err(refusal) => SearchAnswer {
                code: refusal.number() as u32,
                index: 0,
                result: ResultFields::default(),
            },
        }
    }
}

pub fn uttt_search(
    bytes: &[u8],
    words: &mut [u32],
    rule: u64,
    limit: u64,
    budget: u64,
    interval: u64,
    staying: bool,
    margin: f64,
) -> SearchAnswer
    ensures result_value { search_numbers result ≡ searched_numbers (search_call bytes.now (length words.old) rule (limits limit budget interval (given staying margin))) }
    ensures pool { PoolAfter (search_call bytes.now (length words.old) rule (limits limit budget interval (given staying margin)))
        words.old words.new }
{
    let l = SearchLimits {
        limit,
        budget,
        interval,
        stay: stay::given(staying, margin),
    };
    searches::search(bytes, words, rule, l).into()
}

// A full verdict's number, likewise: 0 unknown, 1 win, 2 loss, 3 draw, 4 at least a draw, 5 at most a draw.
fn full_number(v: FullVerdict) -> u32
    ensures { result ≡ full_number (full_verdict v) }
{
    match v {
        FullVerdict::Undecided => 0,
        FullVerdict::Win => 1,
        FullVerdict::Loss => 2,
        FullVerdict::Draw => 3,
        FullVerdict::AtLeastDraw => 4,
        FullVerdict::AtMostDraw => 5,
    }
}

// The answer of full verdict as C has it: code is 0 or the refusal's number; index is 0; the verdict's number and the fields of the results under rules 1 and 2,
// all 0 with a refusal.
#[repr(C)]
#[derive(Clone, Copy)]
pub struct FullAnswer {
    pub code: u32,
    pub index: u64,
    pub verdict: u32,
    pub first: ResultFields,
    pub second: ResultFields,
}

impl From<Result<Full, Refusal>> for FullAnswer {
    ghost from_gives = { λ answer r. full_numbers r ≡ judged_numbers (judged answer) };

    fn from(answer: Result<Full, Refusal>) -> FullAnswer {
        match answer {
            Ok(full) => FullAnswer {
                code: 0,
                index: 0,
                verdict: full_number(full.verdict),
                first: full.first.into(),
                second: full.second.into(),
            },
            Err(refusal) => FullAnswer {
                code: refusal.number() as u32,
                index: 0,
                verdict: 0,
                first: ResultFields::default(),
                second: ResultFields::default(),
            },
        }
    }
}

pub fn uttt_full_verdict(
    bytes: &[u8],
    words: &mut [u32],
    limit: u64,
    budget: u64,
    interval: u64,
    staying: bool,
    margin: f64,
) -> FullAnswer
    ensures result_value { full_numbers result ≡ judged_numbers (full_call bytes.now (length words.old) (limits limit budget interval (given staying margin))) }
    ensures pool { PoolAfterFull (full_call bytes.now (length words.old) (limits limit budget interval (given staying margin)))
        words.old words.new }
{
    let l = SearchLimits {
        limit,
        budget,
        interval,
        stay: stay::given(staying, margin),
    };
    searches::full_verdict(bytes, words, l).into()
}
