// The interval of a stamp and its offset there (SPECIFICATION 2.3), the parity of the half that serves an interval, and the first stamp of a
// window (SPECIFICATION 5.5).
#![tactic(auto)]

ghost use Rattle.std.specs.Prelude.{◌≡◌, ◌%◌, ◌≤◌, ◌<◌};
ghost use Rattle.model.specs.Block.{interval, offset_of, opening};

use shape::Shape;
use words::power;

// The interval in which a tick lies.
pub fn interval(s: Shape, t: u32) -> u32
    requires { s.k ≤ 31 }
    ensures { result ≡ interval s t }
{
    t >> s.k
}

// Its offset there.
pub fn offset(s: Shape, t: u32) -> u32
    requires { s.k ≤ 31 }
    ensures { result ≡ offset_of s t }
{
    t % power(s.k)
}

// The parity of the half that serves an interval: a number and no enum, since the place of a level is computed from it.
pub fn parity(j: u32) -> u8
    ensures { result ≡ j % 2 }
{
    (j % 2) as u8
}

// The first stamp of a window above 0, which is 0 if the window exceeds the clock.
pub fn opening(clock: u32, window: u32) -> u32
    requires { 0 < window }
    ensures { result ≡ opening clock window }
{
    clock.saturating_sub(window - 1)
}
