// Staying on a line: the setting, its range, and the test of the child that was taken last.

#![tactic(auto)]

ghost use Rattle.std.specs.Prelude.{◌≡◌, true, false, ◌+◌, ◌*◌, ◌<◌, leb};
ghost use Rattle.std.specs.Float.Ieee.Exact.{HasValue};
ghost use Rattle.stay.specs.Margin.{steps_in, is_margin, stay_in_range, given};

// Off, or with a margin, as it was given. No Option: a rule of the project, document 01, names this enum.
#[derive(Clone, Copy)]
pub enum Stay {
    Off,
    Margin(f64),
}

// Whether to stay, and the margin, which is not read if not: a flag beside a value, since the C interface needs it.
pub fn given(staying: bool, margin: f64) -> Stay
    ensures { result ≡ given staying margin }
{
    if staying {
        Stay::Margin(margin)
    } else {
        Stay::Off
    }
}

// 1 plus the margin: no digit is lost.
fn factor(margin: f64) -> f64
    requires { is_margin margin ≡ true }
    ensures { HasValue result false (256 + steps_in margin) 256 }
{
    1.0 + margin
}

// Whether delta is at most phi times 1 plus the margin. The product loses no digit, so this is a test of whole numbers.
pub fn within(phi: u32, margin: f64, delta: u32) -> bool
    requires { (phi < 16777216) × (is_margin margin ≡ true) }
    ensures { result ≡ leb (256 * delta) (phi * (256 + steps_in margin)) }
{
    delta as f64 <= phi as f64 * factor(margin)
}

// Whether a float is one of 0/256, 1/256 .. 256/256; -0.0 equals 0.0.
fn is_margin(margin: f64) -> bool
    ensures { result ≡ is_margin margin }
{
    (0u32..257).any(|k| margin == k as f64 * 0.00390625)
}

// Check 21.
pub fn in_range(stay: Stay) -> bool
    ensures { result ≡ stay_in_range stay }
{
    match stay {
        Stay::Off => true,
        Stay::Margin(margin) => is_margin(margin),
    }
}
