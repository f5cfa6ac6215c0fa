// What a finished position is worth, ported from `evaluate` of pn.rs: for the root, for children and for the referee. The attacker is the root's side: True is
// its value.

#![tactic(auto)]

ghost use Rattle.std.specs.Prelude.{◌≡◌, cond};
ghost use Rattle.rules.specs.Rules.{Position, same, drawn};
ghost use Rattle.rules.specs.Record.{player_of};
ghost use Rattle.game.specs.Numbers.{state_number};
ghost use Rattle.game.specs.Words.{Holds, Held};
ghost use Rattle.machine.specs.Machine.{True, False};
ghost use Rattle.prove.specs.Numbers.{verdict};
ghost use Rattle.evaluate.specs.Final.{state_verdict, position_verdict};

use game::GameState;
use prove::Evaluation;

// Whether two sides, each 0 for X or 1 for O, are one. A side and a rule are numbers here: every number has an answer, and a narrower type would ask more of callers.
fn same_side(a: usize, b: usize) -> bool
    ensures { result ≡ same (player_of a) (player_of b) }
{
    (a == 0) == (b == 0)
}

// Whether a drawn position is True for the attacker. Rule 0 has it lost by its own side to move, rule 1 has it False, rule 2 True.
#[tactic(auto, unfolding(rules::specs::Rules::drawn))]
fn drawn_value(rule: u64, attacker: usize, side: usize) -> bool
    ensures { result ≡ drawn rule (player_of attacker) (player_of side) }
{
    match rule {
        0 => !same_side(attacker, side),
        1 => false,
        _ => true,
    }
}

// Unknown in play, and otherwise the value for the attacker.
pub fn evaluate(rule: u64, attacker: usize, side: usize, state: GameState) -> Evaluation
    ensures { verdict result ≡ state_verdict rule (player_of attacker) (player_of side) (state_number state) }
{
    match state {
        GameState::InPlay => Evaluation::Unknown,
        GameState::Drawn => Evaluation::from(drawn_value(rule, attacker, side)),
        GameState::Won(p) => Evaluation::from(same_side(attacker, p.as_bit())),
    }
}

// The same of a position in words.
pub fn evaluate_at(words: &[u16], base: usize, rule: u64, attacker: usize) -> Evaluation
    requires { Held words.now base }
    ensures { (p : Position) → Holds p words.now base → verdict result ≡ position_verdict rule (player_of attacker) p }
{
    evaluate(
        rule,
        attacker,
        game::side_to_move(words, base),
        game::game_state(words, base),
    )
}
