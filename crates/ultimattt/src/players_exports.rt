// The call of simulated players as C has it: its parameters, struct and numbers are those of the C interface.

ghost use Rattle.std.specs.Prelude.{◌≡◌, length};
ghost use Rattle.matches.specs.Matches.{report};
ghost use Rattle.stay.specs.Margin.{given};
ghost use Rattle.players.specs.Players.{players, simulate_outcome, simulate_call, PoolAfterSimulate, in_play};
ghost use Rattle.players.specs.Answers.{simulated};

use players::{Players, Report};
use refusals::Refusal;

// The answer as C has it: code is 0 or the refusal's number; index is 0; the report's numbers, all 0 with a refusal.
#[repr(C)]
#[derive(Clone, Copy)]
pub struct SimulateAnswer {
    pub code: u32,
    pub index: u64,
    pub x_wins: u64,
    pub o_wins: u64,
    pub draws: u64,
    pub expanded: u64,
}

impl From<Result<Report, Refusal>> for SimulateAnswer {
    ghost from_gives = { λ answer r. simulate_outcome r.code r.index (report r.x_wins r.o_wins r.draws r.expanded) ≡ simulated answer };

    fn from(answer: Result<Report, Refusal>) -> SimulateAnswer {
        match answer {
            Ok(report) => SimulateAnswer {
                code: 0,
                index: 0,
                x_wins: report.x_wins,
                o_wins: report.o_wins,
                draws: report.draws,
                expanded: report.expanded,
            },
            Err(refusal) => SimulateAnswer {
                code: refusal.number() as u32,
                index: 0,
                x_wins: 0,
                o_wins: 0,
                draws: 0,
                expanded: 0,
            },
        }
    }
}

pub fn uttt_simulate(
    bytes: &[u8],
    words: &mut [u32],
    seed: u64,
    games: u64,
    limit: u64,
    x_budget: u64,
    o_budget: u64,
    interval: u64,
    staying: bool,
    margin: f64,
) -> SimulateAnswer
    ensures expanded_value { simulate_outcome result.code result.index (report result.x_wins result.o_wins result.draws result.expanded) ≡
        simulate_call bytes.now (length words.old) (players limit x_budget o_budget interval (given staying margin)) seed games }
    ensures pool { PoolAfterSimulate result.code (in_play bytes.now) words.old words.new }
{
    let c = Players {
        limit,
        x_budget,
        o_budget,
        interval,
        stay: stay::given(staying, margin),
    };
    players::simulate(bytes, words, c, seed, games).into()
}
