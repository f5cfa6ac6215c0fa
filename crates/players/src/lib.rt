// Simulated players: X and O, each with its own budget for every search, play games from a record's position, and a report counts them.

#![tactic(auto)]

ghost use Rattle.std.specs.Prelude.{◌≡◌, ◌<◌, ◌≤◌, length, ◌==◌, IfOk};
ghost use Rattle.rules.specs.Rules.{Position, game_state, play, move_error};
ghost use Rattle.rules.specs.Record.{position_of, player_of};
ghost use Rattle.refusals.specs.Numbers.{refusal_code};
ghost use Rattle.game.specs.Words.{Holds, Held};
ghost use Rattle.game.specs.Numbers.{state_number};
ghost use Rattle.game.specs.Moves.{Movable};
ghost use Rattle.matches.specs.Matches.{is_false_verdict, next_state, drawn_place, one};
ghost use Rattle.prove.specs.Numbers.{verdict};
ghost use Rattle.players.specs.Players.{larger, match_most, simulate_refusal, simulate_call, PoolAfterSimulate, in_play};
ghost use Rattle.players.specs.PlayersStatement.{PlayersStatement};
ghost use Rattle.players.specs.Answers.{players_of, settings_for, simulated};
ghost use Rattle.players.specs.Turning.{Lookable, Looked, Turnable, Turned, Ready};
ghost use Rattle.players.specs.Gaming.{GamePlayed};
ghost use Rattle.players.specs.Matching.{Countable, Counts, MatchPlayed};

use game::{Game, GameState, Move, Player};
use pn::Settings;
use prove::Evaluation;
use refusals::Refusal;
use searches::SearchLimits;
use stay::Stay;

// How many games there may be.
const LEAST_GAMES: u64 = 1;

const MOST_GAMES: u64 = 1000;

// The draw rule of every search: a move after which the other side has not even a draw wins.
const RULE: u64 = 2;

// What a draw adds to the state.
const STATE_STEP: u64 = 0x9E3779B97F4A7C15;

// The most legal moves.
const MOVES: usize = 81;

// What the searches of both players are given, beside the pool: all but the budgets is common.
#[derive(Clone, Copy)]
pub struct Players {
    pub limit: u64,
    pub x_budget: u64,
    pub o_budget: u64,
    pub interval: u64,
    pub stay: Stay,
}

// The settings of a side's searches.
fn settings_for(c: Players, side: usize) -> Settings
    ensures { result ≡ settings_for c (player_of side) }
{
    Settings {
        rule: RULE,
        limit: c.limit,
        budget: if side == 0 { c.x_budget } else { c.o_budget },
        interval: c.interval,
        stay: c.stay,
    }
}

// The position after a legal move.
fn after(pos: Game, m: Move) -> Game
    requires { Movable pos.words 0 m.0 }
    ensures { (p : Position) → Holds p pos.words 0 → move_error p m.0 ≡ 0 → Holds (play p m.0) result.words 0 }
{
    let mut next = pos;
    game::apply_move(&mut next.words, 0, m);
    next
}

// Whether a search was answered False.
fn is_false(v: Evaluation) -> bool
    ensures { result ≡ is_false_verdict (verdict v) }
{
    matches!(v, Evaluation::False)
}

// The place of the first winning move among the legal moves, if there is one; and what was expanded to find out.
#[derive(Clone, Copy)]
pub struct Look {
    pub winner: Option<usize>,
    pub expanded: u64,
}

// Looks for a win among the legal moves of a position.
fn look_for_win(words: &mut [u32], pos: Game, moves: &[u8], s: Settings) -> Look
    requires { Lookable pos.words moves.now (length moves.now) words.old s }
    ensures { Looked pos.words moves.now (length moves.now) s words.old words.new result }
{
    let mut expanded: u64 = 0;
    for place in 0..moves.len() {
        let r = pn::search(words, after(pos, Move(moves[place])), s);
        expanded += r.expanded;
        if is_false(r.verdict) {
            return Look {
                winner: Some(place),
                expanded,
            };
        }
    }
    Look {
        winner: None,
        expanded,
    }
}

// The state after a draw.
fn next_state(state: u64) -> u64
    ensures { result ≡ next_state state }
{
    state.wrapping_add(STATE_STEP)
}

// The place of the move drawn, of n: the upper 32 bits of the state, modulo n.
fn drawn_place(state: u64, n: usize) -> usize
    requires { 0 < n }
    ensures { (result ≡ drawn_place state n) × (result < n) }
{
    (state >> 32) as usize % n
}

// A turn: the move, the state afterwards, and what was expanded.
#[derive(Clone, Copy)]
pub struct Turn {
    pub m: Move,
    pub state: u64,
    pub expanded: u64,
}

// The turn of a position in play.
fn take_turn(words: &mut [u32], pos: Game, c: Players, state: u64) -> Turn
    requires { Turnable pos.words words.old c }
    ensures { Turned pos.words c state words.old words.new result }
{
    let mut moves = [0u8; MOVES];
    let n = calls::write_moves(&pos.words, &mut moves);
    let legal = &moves[..n];
    let s = settings_for(c, game::side_to_move(&pos.words, 0));
    let look = look_for_win(words, pos, legal, s);
    if let Some(place) = look.winner {
        return Turn {
            m: Move(legal[place]),
            state,
            expanded: look.expanded,
        };
    }
    let next = next_state(state);
    let place = drawn_place(next, legal.len());
    Turn {
        m: Move(legal[place]),
        state: next,
        expanded: look.expanded,
    }
}

// Whether a position is in play.
fn in_play(pos: Game) -> bool
    requires { Held pos.words 0 }
    ensures { (p : Position) → Holds p pos.words 0 → result ≡ (game_state p == 0) }
{
    !game::game_state(&pos.words, 0).terminal()
}

// A game: its last position, the state afterwards, and what was expanded.
#[derive(Clone, Copy)]
pub struct Played {
    pub pos: Game,
    pub state: u64,
    pub expanded: u64,
}

// Plays a game from a position, turn after turn.
fn play_game(words: &mut [u32], start: Game, c: Players, seed: u64) -> Played
    requires { Ready start.words words.old c }
    ensures { GamePlayed start.words c seed words.old words.new result }
{
    let mut pos = start;
    let mut state = seed;
    let mut expanded: u64 = 0;
    while in_play(pos) {
        let t = take_turn(words, pos, c, state);
        pos = after(pos, t.m);
        state = t.state;
        expanded += t.expanded;
    }
    Played {
        pos,
        state,
        expanded,
    }
}

// The number of a game's state: 0 in play, 1 won by X, 2 by O, 3 drawn. A report counts by that number (Counts).
fn state_number(s: GameState) -> u64
    ensures { result ≡ state_number s }
{
    match s {
        GameState::InPlay => 0,
        GameState::Drawn => 3,
        GameState::Won(p) => match p {
            Player::X => 1,
            Player::O => 2,
        },
    }
}

// 1 if it is so, and otherwise 0.
fn one(b: bool) -> u64
    ensures { (result ≡ one b) × (result < 2) }
{
    b as u64
}

// The report: X's wins, O's wins, draws, and what was expanded in all.
#[derive(Clone, Copy)]
pub struct Report {
    pub x_wins: u64,
    pub o_wins: u64,
    pub draws: u64,
    pub expanded: u64,
}

// The report with one game more, which counts by the state of its last position.
fn count_game(r: Report, g: Played) -> Report
    requires { Countable r g }
    ensures { (p : Position) → Holds p g.pos.words 0 → Counts (game_state p) r g result }
{
    let state = state_number(game::game_state(&g.pos.words, 0));
    Report {
        x_wins: r.x_wins + one(state == 1),
        o_wins: r.o_wins + one(state == 2),
        draws: r.draws + one(state == 3),
        expanded: r.expanded + g.expanded,
    }
}

// Plays some games from a position, one after the other, the state carrying on.
fn play_match(words: &mut [u32], start: Game, c: Players, seed: u64, games: u64) -> Report
    requires { Ready start.words words.old c × (games ≤ match_most) }
    ensures { MatchPlayed start.words c seed games words.old words.new result }
{
    let mut report = Report {
        x_wins: 0,
        o_wins: 0,
        draws: 0,
        expanded: 0,
    };
    let mut state = seed;
    for i in 0..games {
        let g = play_game(words, start, c, state);
        report = count_game(report, g);
        state = g.state;
    }
    report
}

// The larger of the two budgets.
fn larger_budget(c: Players) -> u64
    ensures { result ≡ larger (players_of c) }
{
    c.x_budget.max(c.o_budget)
}

// All checks, in their order, of a pool with so many nodes: the position, or the first that refuses.
fn accept(bytes: &[u8], nodes: usize, c: Players, games: u64) -> Result<Game, Refusal>
    ensures code { refusal_code result ≡ simulate_refusal bytes.now nodes (players_of c) games }
    ensures position { IfOk result (λ g. Holds (position_of bytes.now) g.words 0) }
{
    let l = SearchLimits {
        limit: c.limit,
        budget: larger_budget(c),
        interval: c.interval,
        stay: c.stay,
    };
    let game = searches::accept(bytes, nodes, RULE, l)?;
    refusals::first(&[
        (games < LEAST_GAMES, Refusal::MatchGames),
        (games > MOST_GAMES, Refusal::MatchGames),
    ])?;
    Ok(game)
}

// Runs games of two players from a record's position.
pub fn simulate(
    bytes: &[u8],
    words: &mut [u32],
    c: Players,
    seed: u64,
    games: u64,
) -> Result<Report, Refusal>
    ensures result_value { simulated result ≡ simulate_call bytes.now (length words.old) (players_of c) seed games }
    ensures pool { PoolAfterSimulate (simulated result).number (in_play bytes.now) words.old words.new }
    ensures promised { PlayersStatement bytes.now (players_of c) seed games words.old words.new (simulated result) }
{
    let start = accept(bytes, node_pool::capacity(words), c, games)?;
    Ok(play_match(words, start, c, seed, games))
}
