// Proof and disproof numbers, ported from prove.rs: INFINITY, Evaluation, Bounds, the held sum and the less of two.

#![tactic(auto)]

ghost use Rattle.std.specs.Prelude.{◌≡◌, ◌||◌, ◌+◌, cond, min, eqb};
ghost use Rattle.machine.specs.Machine.{True, False};
ghost use Rattle.machine.specs.Tree.{u32_max, INFINITY as infinity};
ghost use Rattle.prove.specs.Numbers.{number, verdict, Pair};

// From here upward a number stands for infinity.
pub const INFINITY: u32 = 2147483648;

// The largest number: a sum is held there.
pub const MOST: u32 = u32::MAX;

// What is known of a position's value for the root's side.
#[derive(Clone, Copy, PartialEq, Eq)]
pub enum Evaluation {
    True,
    False,
    Unknown,
}

impl Evaluation {
    // A match and not the variants' discriminants: two of those may not be equal, and the edit true-is-two makes two numbers equal.
    pub fn number(self) -> u32
        ensures { result ≡ number self }
    {
        match self {
            Evaluation::Unknown => 0,
            Evaluation::True => 1,
            Evaluation::False => 2,
        }
    }
}

// A value that is known.
impl From<bool> for Evaluation {
    ghost from_gives = { λ value e. verdict e ≡ cond value True False };

    fn from(value: bool) -> Self {
        if value {
            Evaluation::True
        } else {
            Evaluation::False
        }
    }
}

// The proof and disproof numbers of a node, as its mover has them.
#[derive(Clone, Copy)]
pub struct Bounds {
    pub phi: u32,
    pub delta: u32,
}

impl Bounds {
    // A leaf won by its mover.
    pub fn winning() -> Self
        ensures { Pair result.phi result.delta 0 infinity }
    {
        Bounds {
            phi: 0,
            delta: INFINITY,
        }
    }

    // A leaf lost by its mover.
    pub fn losing() -> Self
        ensures { Pair result.phi result.delta infinity 0 }
    {
        Bounds {
            phi: INFINITY,
            delta: 0,
        }
    }

    // An open leaf.
    pub fn unity() -> Self
        ensures { Pair result.phi result.delta 1 1 }
    {
        Bounds { phi: 1, delta: 1 }
    }

    pub fn solved(self) -> bool
        ensures { result ≡ (eqb self.phi 0 || eqb self.delta 0) }
    {
        self.phi == 0 || self.delta == 0
    }
}

// The sum, held at the largest number. No search of an accepted position comes to that (plain/proofs/Unheld.antt).
pub fn held_sum(a: u32, b: u32) -> u32
    ensures { result ≡ min (a + b) u32_max }
{
    a.saturating_add(b)
}

// The less of two.
pub fn least(a: u32, b: u32) -> u32
    ensures { result ≡ min a b }
{
    a.min(b)
}
