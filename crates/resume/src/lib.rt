// A game's search in the two passes: it runs up to its share, is kept as it stands, and goes on from there with more budget.

#![tactic(auto)]

ghost use Rattle.rules.specs.Rules.{Position};
ghost use Rattle.rules.specs.Record.{Accepted};
ghost use Rattle.game.specs.Words.{Holds};
ghost use Rattle.pn.specs.Results.{OneOfFour};
ghost use Rattle.pn.specs.Searches.{Searchable};
ghost use Rattle.resume.specs.Keeping.{Stopped, Resumable};
ghost use Rattle.resume.specs.Passing.{Passable, Passes};

use game::Game;
use node_pool::{NodeID, PLIES, Pool, Vacant};
use pn::{Cause, Running, SearchResult, Settings};
use positions::POSITIONS;
use prover::Prover;

// A search that has stopped, and what it goes on with, beside its pool: the line that it follows, with the positions on it, and the root's side to move.
#[derive(Clone, Copy)]
pub struct Kept {
    pub running: Running,
    pub path: [u32; PLIES],
    pub positions: [u16; POSITIONS],
    pub attacker: usize,
}

// What stands where no search is kept: games keeps eight in an array, and an Option each would be taken apart at every game of the second pass.
pub fn nothing() -> Kept
    ensures { OneOfFour result.running.stop }
{
    let vacant = Vacant {
        head: NodeID::none(),
        used: 0,
    };
    let prover = Prover {
        depth: 0,
        pool: Pool {
            vacant,
            allocated: 0,
            freed: 0,
        },
        proved: 0,
        disproved: 0,
        expanded: 0,
    };
    Kept {
        running: Running {
            prover,
            tick: 0,
            stop: Some(Cause::SOLVED),
        },
        path: [0; PLIES],
        positions: [0; POSITIONS],
        attacker: 0,
    }
}

// The first pass of a game, in its part of the pool: a search whose budget is the game's share.
pub fn first(words: &mut [u32], g: Game, s: Settings) -> Kept
    requires { Searchable g.words words.old s }
    ensures stopped { (p : Position) → Holds p g.words 0 → Accepted p → Stopped p s words.new result }
    ensures four { OneOfFour result.running.stop }
{
    let mut path = [0; PLIES];
    let mut positions = [0; POSITIONS];
    let attacker = game::side_to_move(&g.words, 0);
    let running = pn::start(words, &mut path, &mut positions, g, s);
    Kept {
        running,
        path,
        positions,
        attacker,
    }
}

// A search that its budget stopped goes on, with more.
fn go_on(words: &mut [u32], mut k: Kept, s: Settings) -> Kept
    requires { Resumable words.old k s }
    ensures { (g : Resumable words.old k s) → Stopped g.start s words.new result }
{
    let x = Running {
        stop: None,
        ..k.running
    };
    k.running = pn::run(words, &mut k.path, &mut k.positions, x, s, k.attacker);
    k
}

// A game's result, and what is unspent after its turn.
#[derive(Clone, Copy)]
pub struct Turn {
    pub result: SearchResult,
    pub unspent: u64,
}

// The second pass of a game, in its part of the pool: if its budget stopped it, it goes on with all that is unspent.
pub fn second(words: &mut [u32], k: Kept, s: Settings, unspent: u64) -> Turn
    requires { Passable words.old k s unspent }
    ensures { (p : Position) → Stopped p s words.old k → Passes p s words.old unspent result }
{
    if k.running.stop != Some(Cause::BUDGET) {
        return Turn {
            result: pn::finish(words, &k.path, s, k.running),
            unspent,
        };
    }
    let more = Settings {
        budget: s.budget + unspent,
        ..s
    };
    let last = go_on(words, k, more);
    let result = pn::finish(words, &last.path, more, last.running);
    Turn {
        result,
        unspent: more.budget - result.expanded,
    }
}
