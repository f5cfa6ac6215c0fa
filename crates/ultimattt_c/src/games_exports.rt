// The calls games judged together under their names in C. Each is the library's own, with its contract; include/ultimattt.h says what is lent and answered.

ghost use Rattle.std.specs.Prelude.{◌≡◌, length};
ghost use Rattle.stay.specs.Margin.{given};
ghost use Rattle.games_checks.specs.Checks.{games, common};
ghost use Rattle.games.specs.Games.{games_call, PoolAfterGames};
ghost use Rattle.ultimattt.specs.GamesExports.{games_numbers, outcome_numbers};

use games_checks::{Common, MOST_GAMES};
use ultimattt::games_exports::GamesAnswer;

#[unsafe(no_mangle)]
pub extern "C" fn uttt_judge_games(
    bytes: &[u8],
    words: &mut [u32],
    shares: &[u64; MOST_GAMES],
    rule: u64,
    limit: u64,
    allowance: u64,
    interval: u64,
    staying: bool,
    margin: f64,
) -> GamesAnswer
    ensures result_value { games_numbers result ≡ outcome_numbers (games_call bytes.now (length words.old) shares.now
        (common rule limit allowance interval (given staying margin))) }
    ensures pool { PoolAfterGames result.code (games bytes.now) words.old words.new }
{
    ultimattt::games_exports::uttt_judge_games(
        bytes, words, shares, rule, limit, allowance, interval, staying, margin,
    )
}
