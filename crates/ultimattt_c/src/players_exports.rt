// The calls simulated players under their names in C. Each is the library's own, with its contract; include/ultimattt.h says what is lent and answered.

ghost use Rattle.std.specs.Prelude.{◌≡◌, length};
ghost use Rattle.matches.specs.Matches.{report};
ghost use Rattle.stay.specs.Margin.{given};
ghost use Rattle.players.specs.Players.{players, simulate_outcome, simulate_call, PoolAfterSimulate, in_play};

use ultimattt::players_exports::SimulateAnswer;

#[unsafe(no_mangle)]
pub extern "C" fn uttt_simulate(
    bytes: &[u8],
    words: &mut [u32],
    seed: u64,
    games: u64,
    limit: u64,
    x_budget: u64,
    o_budget: u64,
    interval: u64,
    staying: bool,
    margin: f64,
) -> SimulateAnswer
    ensures expanded_value { simulate_outcome result.code result.index (report result.x_wins result.o_wins result.draws result.expanded) ≡
        simulate_call bytes.now (length words.old) (players limit x_budget o_budget interval (given staying margin)) seed games }
    ensures pool { PoolAfterSimulate result.code (in_play bytes.now) words.old words.new }
{
    ultimattt::players_exports::uttt_simulate(
        bytes, words, seed, games, limit, x_budget, o_budget, interval, staying, margin,
    )
}
