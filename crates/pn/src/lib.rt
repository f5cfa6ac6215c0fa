// The search, ported from Prover::prove of pn.rs and the counter of progress.rs: start, rounds of steps 1 to 6, and the result.

#![tactic(auto)]

ghost use Rattle.std.specs.Prelude.{◌≡◌, List, cond, ◌||◌, ℕ, ◌≤◌, ◌<◌, IsSome, eqb};
ghost use Rattle.rules.specs.Rules.{Position};
ghost use Rattle.rules.specs.Record.{Accepted};
ghost use Rattle.game.specs.Words.{Holds};
ghost use Rattle.machine.specs.Machine.{verdict_of};
ghost use Rattle.plain.specs.Plain.{search_of};
ghost use Rattle.prove.specs.Numbers.{verdict};
ghost use Rattle.pn.specs.Results.{cause_number, OneOfFour, machine_settings, result_of};
ghost use Rattle.pn.specs.Going.{Going};
ghost use Rattle.pn.specs.Beginning.{Startable, Begun};
ghost use Rattle.pn.specs.Ticked.{Ticked};
ghost use Rattle.pn.specs.Stepping.{Steppable, Unsolved, Stepped};
ghost use Rattle.pn.specs.Searches.{Searchable, Searched, Ran, Started};

use game::{Game, Move};
use node_pool::{NO_NODE, NodeID, PLIES, Pool, Vacant};
use positions::POSITIONS;
use prove::{Bounds, Evaluation};
use prover::Prover;
use stay::Stay;

// What a search is given beside its position and its pool.
#[derive(Clone, Copy)]
pub struct Settings {
    pub rule: u64,
    pub limit: u64,
    pub budget: u64,
    pub interval: u64,
    pub stay: Stay,
}

// Why a search stops: its root is solved, its budget is spent, its pool is short, or it is over the limit.
// A number's type and no enum: `finish`, `resume::second` and whatever writes a result answer for every number, as they did when it stood there bare. That a search
// stops for one of the four is told by contract (`OneOfFour`).
#[derive(Clone, Copy, PartialEq, Eq)]
pub struct Cause(pub u8);

impl Cause {
    pub const SOLVED: Cause = Cause(0);

    pub const BUDGET: Cause = Cause(1);

    pub const POOL: Cause = Cause(2);

    pub const LIMIT: Cause = Cause(3);

    // Its number in a result.
    pub fn number(self) -> u8
        ensures { result ≡ cause_number self }
    {
        self.0
    }
}

// A search between two rounds: its state, what is left to the next interval-th expansion, and why it has stopped, if it has.
#[derive(Clone, Copy)]
pub struct Running {
    pub prover: Prover,
    pub tick: u64,
    pub stop: Option<Cause>,
}

// The nine fields.
#[derive(Clone, Copy)]
pub struct SearchResult {
    pub verdict: Evaluation,
    pub proof: u32,
    pub disproof: u32,
    pub allocated: u64,
    pub freed: u64,
    pub proved: u64,
    pub disproved: u64,
    pub expanded: u64,
    pub cause: Cause,
}

// The root, evaluated, alone in the pool.
fn begin(
    words: &mut [u32],
    path: &mut [u32; PLIES],
    positions: &mut [u16; POSITIONS],
    g: Game,
    rule: u64,
) -> Prover
    requires { Startable g.words words.old }
    ensures { (p : Position) → Holds p g.words 0 → Accepted p → Begun rule p words.old words.new path.new positions.new result }
{
    positions::start(positions, g);
    let value = children::root_value(positions, 0, rule);
    let bounds = children::leaf_bounds(value, false);
    let packed = node_pool::pack(value, false, Move::none());
    let unused = Vacant {
        head: NodeID(NO_NODE),
        used: 0,
    };
    let node = node_pool::alloc(words, unused, bounds, packed, NodeID(NO_NODE));
    path[0] = node.id.0;
    Prover {
        depth: 0,
        pool: Pool {
            vacant: node.vacant,
            allocated: 1,
            freed: 0,
        },
        proved: 0,
        disproved: 0,
        expanded: 0,
    }
}

// Step 6: the counter goes on; where it is due, the limit is tested and it starts again.
fn tick(x: Prover, left: u64, s: Settings) -> Running
    requires { (0 < left) × (x.pool.freed ≤ x.pool.allocated) }
    ensures { Ticked x left s result }
{
    if left != 1 {
        return Running {
            prover: x,
            tick: left - 1,
            stop: None,
        };
    }
    let over = s.limit < x.pool.live();
    Running {
        prover: x,
        tick: s.interval,
        stop: over.then_some(Cause::LIMIT),
    }
}

// Proof 0 is True, disproof 0 False, else Unknown.
#[tactic(auto, unfolding(machine::specs::Machine::verdict_of))]
fn verdict_of(proof: u32, disproof: u32) -> Evaluation
    ensures { verdict result ≡ verdict_of proof disproof }
{
    match (proof, disproof) {
        (0, _) => Evaluation::True,
        (_, 0) => Evaluation::False,
        _ => Evaluation::Unknown,
    }
}

// A root that is solved is the cause, whatever stopped the search.
fn cause_of(proof: u32, disproof: u32, cause: Cause) -> Cause
    ensures { cause_number result ≡ cond (eqb proof 0 || eqb disproof 0) 0 (cause_number cause) }
{
    match (proof, disproof) {
        (0, _) | (_, 0) => Cause::SOLVED,
        _ => cause,
    }
}

// The result of a search that has stopped.
pub fn finish(words: &[u32], path: &[u32; PLIES], s: Settings, x: Running) -> SearchResult
    requires { ((p : Position) × (ps : List ℕ) × Going p s words.now path.now ps x) × IsSome x.stop }
    ensures { (p : Position) (ps : List ℕ) → Going p s words.now path.now ps x → result_of result ≡ search_of s.rule (machine_settings words.now s) p }
{
    let root = NodeID(path[0]);
    let proof = node_pool::phi(words, root);
    let disproof = node_pool::delta(words, root);
    SearchResult {
        verdict: verdict_of(proof, disproof),
        proof,
        disproof,
        allocated: x.prover.pool.allocated,
        freed: x.prover.pool.freed,
        proved: x.prover.proved,
        disproved: x.prover.disproved,
        expanded: x.prover.expanded,
        cause: cause_of(proof, disproof, x.stop.unwrap()),
    }
}

// Steps 2 to 6: down to a leaf; if it is short of nodes the search stops; expand, climb, count.
// What is lent stays apart, here and in `step`: each step takes other parts of it, so that a struct of the four would be taken apart at every call.
fn round(
    words: &mut [u32],
    path: &mut [u32; PLIES],
    positions: &mut [u16; POSITIONS],
    todo: &mut [u32; PLIES],
    x: Running,
    s: Settings,
    attacker: usize,
) -> Running
    requires { Unsolved words.old path.old positions.old x s attacker }
    ensures stepped { (u : Unsolved words.old path.old positions.old x s attacker) → Stepped u.from.start s x words.old words.new path.new positions.new result }
    ensures four { OneOfFour result.stop }
{
    let leaf = descend::descend(words, path, positions, x.prover, s.stay);
    if room::is_short(words, positions, leaf, s.rule, attacker) {
        return Running {
            prover: leaf,
            stop: Some(Cause::POOL),
            ..x
        };
    }
    let grown = expand::expand(words, path, positions, leaf, s.rule, attacker);
    let next = climb::climb(words, path, todo, grown);
    tick(next, x.tick, s)
}

// One step of a search: it ends if the root is solved, then if the budget is spent, or goes through a round.
fn step(
    words: &mut [u32],
    path: &mut [u32; PLIES],
    positions: &mut [u16; POSITIONS],
    todo: &mut [u32; PLIES],
    x: Running,
    s: Settings,
    attacker: usize,
) -> Running
    requires { Steppable words.old path.old positions.old x s attacker }
    ensures stepped { (g : Steppable words.old path.old positions.old x s attacker) → Stepped g.start s x words.old words.new path.new positions.new result }
    ensures four { OneOfFour result.stop }
{
    let root = NodeID(path[0]);
    let phi = node_pool::phi(words, root);
    let delta = node_pool::delta(words, root);
    if (Bounds { phi, delta }).solved() {
        return Running {
            stop: Some(Cause::SOLVED),
            ..x
        };
    }
    if x.prover.expanded == s.budget {
        return Running {
            stop: Some(Cause::BUDGET),
            ..x
        };
    }
    round(words, path, positions, todo, x, s, attacker)
}

// A search that goes on, until it stops. Path and positions are lent, so that it can be taken up again. While it runs the path is an array of its own, which the
// compiled code knows apart from the words of the pool.
pub fn run(
    words: &mut [u32],
    path: &mut [u32; PLIES],
    positions: &mut [u16; POSITIONS],
    mut x: Running,
    s: Settings,
    attacker: usize,
) -> Running
    requires { Steppable words.old path.old positions.old x s attacker }
    ensures ran { Ran words.old path.old positions.old x s attacker words.new path.new positions.new result }
    ensures four { OneOfFour result.stop }
{
    let mut todo = [0; PLIES];
    let mut line = *path;
    while x.stop.is_none() {
        x = step(words, &mut line, positions, &mut todo, x, s, attacker);
    }
    *path = line;
    x
}

// The search of an accepted position from its root on, until it stops, in a pool of any words.
pub fn start(
    words: &mut [u32],
    path: &mut [u32; PLIES],
    positions: &mut [u16; POSITIONS],
    g: Game,
    s: Settings,
) -> Running
    requires { Searchable g.words words.old s }
    ensures started { Started g.words s words.old words.new path.new positions.new result }
    ensures four { OneOfFour result.stop }
{
    let attacker = game::side_to_move(&g.words, 0);
    let x = Running {
        prover: begin(words, path, positions, g, s.rule),
        tick: s.interval,
        stop: None,
    };
    run(words, path, positions, x, s, attacker)
}

// The search of an accepted position in a pool of any words.
pub fn search(words: &mut [u32], g: Game, s: Settings) -> SearchResult
    requires { Searchable g.words words.old s }
    ensures { (p : Position) → Holds p g.words 0 → Accepted p → Searched p s words.old words.new result }
{
    let mut path = [0; PLIES];
    let mut positions = [0; POSITIONS];
    let last = start(words, &mut path, &mut positions, g, s);
    finish(words, &path, s, last)
}
