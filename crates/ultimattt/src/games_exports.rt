// The call that judges up to eight games as C has it: its parameters, struct and numbers are those of the C interface.

ghost use Rattle.std.specs.Prelude.{◌≡◌, map, length};
ghost use Rattle.pn.specs.Results.{result_of};
ghost use Rattle.stay.specs.Margin.{given};
ghost use Rattle.games_checks.specs.Checks.{games, common};
ghost use Rattle.games.specs.Games.{games_call, PoolAfterGames};
ghost use Rattle.games.specs.Answers.{outcome_of};
ghost use Rattle.ultimattt.specs.Exports.{fields, fields_of};
ghost use Rattle.ultimattt.specs.GamesExports.{games_numbers, outcome_numbers};

use crate::exports::ResultFields;
use games::JudgedGames;
use games_checks::{Common, GameRefusal, MOST_GAMES};
use pn::SearchResult;

// The fields of eight results.
fn all_fields(results: [SearchResult; MOST_GAMES]) -> [ResultFields; MOST_GAMES]
    requires { length results ≡ 8 }
    ensures { map fields result ≡ map fields_of (map result_of results) }
{
    results.map(ResultFields::from)
}

// The answer as C has it: code is 0 or the refusal's number; index is the game's whose record was refused with 2 to 6 or 22, and 0 elsewhere; count is how many games
// there are, 0 with a refusal; the fields of their results, all 0 past the last game.
#[repr(C)]
#[derive(Clone, Copy)]
pub struct GamesAnswer {
    pub code: u32,
    pub index: u64,
    pub count: u64,
    pub results: [ResultFields; MOST_GAMES],
}

impl From<Result<JudgedGames, GameRefusal>> for GamesAnswer {
    ghost from_gives = { λ answer r. games_numbers r ≡ outcome_numbers (outcome_of answer) };

    fn from(answer: Result<JudgedGames, GameRefusal>) -> GamesAnswer {
        match answer {
            Ok(judged) => GamesAnswer {
                code: 0,
                index: 0,
                count: judged.count as u64,
                results: all_fields(judged.results),
            },
            Err(e) => GamesAnswer {
                code: e.refusal.number() as u32,
                index: e.index as u64,
                count: 0,
                results: [ResultFields::default(); MOST_GAMES],
            },
        }
    }
}

pub fn uttt_judge_games(
    bytes: &[u8],
    words: &mut [u32],
    shares: &[u64; MOST_GAMES],
    rule: u64,
    limit: u64,
    allowance: u64,
    interval: u64,
    staying: bool,
    margin: f64,
) -> GamesAnswer
    ensures result_value { games_numbers result ≡ outcome_numbers (games_call bytes.now (length words.old) shares.now
        (common rule limit allowance interval (given staying margin))) }
    ensures pool { PoolAfterGames result.code (games bytes.now) words.old words.new }
{
    let c = Common {
        rule,
        limit,
        allowance,
        interval,
        stay: stay::given(staying, margin),
    };
    games::judge_games(bytes, words, shares, c).into()
}
