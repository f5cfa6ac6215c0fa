// The refusals of the table that are no move's errors (MANUAL, Turned back), by what is wrong, and checks in their order. Rests on the rules' Refusals.

#![tactic(auto)]

ghost use Rattle.std.specs.Prelude.{◌≡◌, map};
ghost use Rattle.rules.specs.Refusals.{first_refusal};
ghost use Rattle.refusals.specs.Numbers.{number, refusal_code, check_number};

// Why a call is turned back. Numbers 11 to 15 are the errors of a move (game's MoveError).
#[derive(Clone, Copy, Debug, PartialEq, Eq)]
pub enum Refusal {
    Length,
    Codes,
    Counts,
    TwoLines,
    LineOfBoards,
    DoneTarget,
    ShortOutput,
    NoNode,
    ManyNodes,
    Range,
    ManyOpenCells,
    BrokenBook,
    FullBook,
    Trainer,
    Games,
    Margin,
    ImpossibleChoice,
    MatchGames,
}

impl Refusal {
    // Its number in the table.
    pub fn number(self) -> u8
        ensures { result ≡ number self }
    {
        match self {
            Refusal::Length => 1,
            Refusal::Codes => 2,
            Refusal::Counts => 3,
            Refusal::TwoLines => 4,
            Refusal::LineOfBoards => 5,
            Refusal::DoneTarget => 6,
            Refusal::ShortOutput => 7,
            Refusal::NoNode => 8,
            Refusal::ManyNodes => 9,
            Refusal::Range => 10,
            Refusal::ManyOpenCells => 16,
            Refusal::BrokenBook => 17,
            Refusal::FullBook => 18,
            Refusal::Trainer => 19,
            Refusal::Games => 20,
            Refusal::Margin => 21,
            Refusal::ImpossibleChoice => 22,
            Refusal::MatchGames => 23,
        }
    }
}

// The first check whose fault is there turns the call back.
pub fn first(checks: &[(bool, Refusal)]) -> Result<(), Refusal>
    ensures { refusal_code result ≡ first_refusal (map check_number checks.now) }
{
    for &(wrong, refusal) in checks {
        if wrong {
            return Err(refusal);
        }
    }
    Ok(())
}
