// The checks of a call that judges up to eight games: their number, their records, and the pool, settings and shares.

#![tactic(auto)]

ghost use Rattle.std.specs.Prelude.{◌≡◌, List, ◌∷◌, ℕ, suc, ◌*◌, ◌≤◌, ◌<◌, length};
ghost use Rattle.rules.specs.Rules.{answers};
ghost use Rattle.refusals.specs.Numbers.{refusal_code};
ghost use Rattle.games_checks.specs.Checks.{number_refusal, refusal_at, shares_of, settings_refusal};
ghost use Rattle.games_checks.specs.Common.{common_of};
ghost use Rattle.games_checks.specs.Earliest.{of_no_game, game_code, game_index, EarlyAt};
ghost use Rattle.games_checks.specs.Sums.{sum_within};

use calls::LAST_RULE;
use game::Game;
use record::RECORD_LENGTH;
use refusals::Refusal;
use searches::{LEAST_INTERVAL, LEAST_NODES, MOST_BUDGET, MOST_INTERVAL, MOST_NODES};
use stay::Stay;

// How many games there may be.
pub const LEAST_GAMES: usize = 1;

pub const MOST_GAMES: usize = 8;

// What is common to all games.
#[derive(Clone, Copy)]
pub struct Common {
    pub rule: u64,
    pub limit: u64,
    pub allowance: u64,
    pub interval: u64,
    pub stay: Stay,
}

// Why a call that judges games is turned back, and the game that it names, or 0.
#[derive(Clone, Copy, PartialEq, Eq)]
pub struct GameRefusal {
    pub refusal: Refusal,
    pub index: usize,
}

impl From<Refusal> for GameRefusal {
    ghost from_gives = { λ r e. e ≡ of_no_game r };

    fn from(refusal: Refusal) -> GameRefusal {
        GameRefusal { refusal, index: 0 }
    }
}

// Checks 1 and 20: the bytes are no whole number of records; no game, or more than eight.
pub fn check_number(bytes: &[u8]) -> Result<(), Refusal>
    ensures { refusal_code result ≡ number_refusal bytes.now }
{
    let games = bytes.len() / RECORD_LENGTH;
    refusals::first(&[
        (bytes.len() % RECORD_LENGTH != 0, Refusal::Length),
        (games < LEAST_GAMES, Refusal::Games),
        (games > MOST_GAMES, Refusal::Games),
    ])
}

// Game i's refusal, if there is one, before those of the games after it.
fn sooner(
    loaded: Result<Game, Refusal>,
    i: usize,
    later: Result<(), GameRefusal>,
) -> Result<(), GameRefusal>
    ensures { (j : ℕ) → j ≡ suc i → (ns : List ℕ) → EarlyAt j ns (game_code later) (game_index later) → EarlyAt i (refusal_code loaded ∷ ns) (game_code result) (game_index result) }
{
    let Err(refusal) = loaded else {
        return later;
    };
    let here = GameRefusal { refusal, index: i };
    match later {
        Ok(()) => Err(here),
        Err(e) => {
            if e.refusal.number() < refusal.number() {
                later
            } else {
                Err(here)
            }
        }
    }
}

// Checks 2 to 6 and 22 of n records, from the last down: the earliest that refuses one, and the lowest game whose record it refuses.
pub fn earliest(bytes: &[u8], n: usize) -> Result<(), GameRefusal>
    requires { (n ≤ 8) × (n * 21 ≤ length bytes.now) }
    ensures { EarlyAt 0 (answers (refusal_at bytes.now) 0 n) (game_code result) (game_index result) }
{
    let mut found = Ok(());
    for i in (0..n).rev() {
        let start = i * RECORD_LENGTH;
        let loaded = record::load(&bytes[start..start + RECORD_LENGTH]);
        found = sooner(loaded, i, found);
    }
    found
}

// The sum of the shares of n games, if none of them is above the range. Eight shares and a number of games, as the C interface lends them.
fn summed(shares: &[u64; MOST_GAMES], n: usize) -> Option<u64>
    requires { n ≤ 8 }
    ensures { result ≡ sum_within (shares_of shares.now n) }
{
    let mut total = 0;
    for &share in &shares[..n] {
        if share > MOST_BUDGET {
            return None;
        }
        total += share;
    }
    Some(total)
}

// Checks 8 of a part, 9 of the whole pool, 10, 21 and 20, of a pool with so many nodes and n games.
pub fn check_settings(
    nodes: usize,
    shares: &[u64; MOST_GAMES],
    n: usize,
    c: Common,
) -> Result<(), Refusal>
    requires { (0 < n) × (n ≤ 8) }
    ensures { refusal_code result ≡ settings_refusal nodes n (shares_of shares.now n) (common_of c) }
{
    let sum = summed(shares, n);
    refusals::first(&[
        (nodes / n < LEAST_NODES, Refusal::NoNode),
        (nodes > MOST_NODES, Refusal::ManyNodes),
        (c.rule > LAST_RULE, Refusal::Range),
        (c.interval < LEAST_INTERVAL, Refusal::Range),
        (c.interval > MOST_INTERVAL, Refusal::Range),
        (sum.is_none(), Refusal::Range),
        (c.allowance > MOST_BUDGET, Refusal::Range),
        (!stay::in_range(c.stay), Refusal::Margin),
        (sum.unwrap_or(0) > c.allowance, Refusal::Games),
    ])
}
