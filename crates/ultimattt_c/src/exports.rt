// The calls replay, legal moves, referee, agreed opening, search and full verdict under their names in C. Each is the library's own, with its contract; include/ultimattt.h says what is lent and answered.

ghost use Rattle.std.specs.Prelude.{◌≡◌, length, take};
ghost use Rattle.calls.specs.Calls.{replay_outcome, moves_outcome, referee_outcome, replay_call, moves_call, referee_call};
ghost use Rattle.sheets.specs.Sheets.{sheets_outcome, sheets_call};
ghost use Rattle.stay.specs.Margin.{given};
ghost use Rattle.searches.specs.Searches.{limits, search_call, PoolAfter, full_call, PoolAfterFull};
ghost use Rattle.ultimattt.specs.Exports.{search_numbers, searched_numbers, full_numbers, judged_numbers};

use ultimattt::exports::{FullAnswer, MovesAnswer, RefereeAnswer, ReplayAnswer, SearchAnswer};

#[unsafe(no_mangle)]
pub extern "C" fn uttt_replay(bytes: &[u8], moves: &[u8], out: &mut [u8]) -> ReplayAnswer
    ensures { replay_outcome result.code result.index out.new ≡ replay_call bytes.now moves.now out.old }
{
    ultimattt::exports::uttt_replay(bytes, moves, out)
}

#[unsafe(no_mangle)]
pub extern "C" fn uttt_legal_moves(bytes: &[u8], out: &mut [u8]) -> MovesAnswer
    ensures { moves_outcome result.code result.index result.count out.new ≡ moves_call bytes.now out.old }
{
    ultimattt::exports::uttt_legal_moves(bytes, out)
}

#[unsafe(no_mangle)]
pub extern "C" fn uttt_referee(bytes: &[u8], rule: u64) -> RefereeAnswer
    ensures { referee_outcome result.code result.index result.value ≡ referee_call bytes.now rule }
{
    ultimattt::exports::uttt_referee(bytes, rule)
}

#[unsafe(no_mangle)]
pub extern "C" fn uttt_agreed_opening(
    first: &[u8],
    second: &[u8],
    out: &mut [u8],
    number: &mut u32,
) -> u64
    ensures out_after { sheets_outcome (take result first.now) number.new out.new ≡ sheets_call first.now second.now out.old }
    ensures count { result ≡ length (sheets_call first.now second.now out.old).part }
{
    ultimattt::exports::uttt_agreed_opening(first, second, out, number)
}

#[unsafe(no_mangle)]
pub extern "C" fn uttt_search(
    bytes: &[u8],
    words: &mut [u32],
    rule: u64,
    limit: u64,
    budget: u64,
    interval: u64,
    staying: bool,
    margin: f64,
) -> SearchAnswer
    ensures result_value { search_numbers result ≡ searched_numbers (search_call bytes.now (length words.old) rule (limits limit budget interval (given staying margin))) }
    ensures pool { PoolAfter (search_call bytes.now (length words.old) rule (limits limit budget interval (given staying margin)))
        words.old words.new }
{
    ultimattt::exports::uttt_search(bytes, words, rule, limit, budget, interval, staying, margin)
}

#[unsafe(no_mangle)]
pub extern "C" fn uttt_full_verdict(
    bytes: &[u8],
    words: &mut [u32],
    limit: u64,
    budget: u64,
    interval: u64,
    staying: bool,
    margin: f64,
) -> FullAnswer
    ensures result_value { full_numbers result ≡ judged_numbers (full_call bytes.now (length words.old) (limits limit budget interval (given staying margin))) }
    ensures pool { PoolAfterFull (full_call bytes.now (length words.old) (limits limit budget interval (given staying margin)))
        words.old words.new }
{
    ultimattt::exports::uttt_full_verdict(bytes, words, limit, budget, interval, staying, margin)
}
