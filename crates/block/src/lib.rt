// Reading one grade's block, on its part of the words: its soundness, its room, its sums.
#![tactic(auto)]

ghost use Rattle.std.specs.Prelude.{◌≡◌, ◌+◌, ◌%◌, ◌^◌, ◌≤◌, ltb, length, get_or};
ghost use Rattle.shape.specs.Layout.{block_head_len, total_start};
ghost use Rattle.model.specs.Words.{level_part, decode_half, decode_block};
ghost use Rattle.model.specs.Block.{interval, half_of, serving_index, answer, window_sum};
ghost use Rattle.model.specs.Sound.{sound_half, sound_block};
ghost use Rattle.laws.specs.Proper.{Sized, Whole};
ghost use Rattle.block.specs.Steps.{LevelIn};

use shape::Shape;
use stamp::{interval, offset, opening, parity};
use words::power;

// A block's words and its shape stay two parameters. A struct of both with `Sized` as its ghost field was tried: each clause then says
// `self.entry.words.now` and `self.entry.shape` for `block.now` and `s`, `Whole` stays a clause, and `erase` and `fill`, which write the same
// words, need a second type. So it is no plainer.

// How many decilitres a half takes at most.
fn capacity(s: Shape) -> u64
    requires { s.m ≤ 31 }
    ensures { result ≡ 2 ^ s.m }
{
    u64::from(power(s.m))
}

// The words of a level, in the half of a parity: shared here, exclusive in `erase` and `fill`. One function is not generic over that.
#[tactic(auto, using(crate::specs::Steps::level_bounds))]
pub fn level_at(block: &[u32], s: Shape, parity: u8, i: u8) -> &[u32]
    requires { LevelIn s parity i block.now }
    ensures { result.now ≡ level_part s parity i block.now }
{
    let a = s.level_start(parity, i);
    let e = a + s.level_len();
    &block[a..e]
}

// The total of the half that serves interval j.
pub fn total(block: &[u32], j: u32) -> u64
    requires { block_head_len ≤ length block.now }
    ensures { result ≡ get_or block.now (total_start (j % 2)) 0 }
{
    let at = (j % 2) as usize;
    u64::from(block[at])
}

// Whether the half that serves a stamp's interval has no room for a volume. The words may be any.
#[tactic(auto, using(crate::specs::Steps::totals))]
pub fn is_full(block: &[u32], s: Shape, stamp: u32, volume: u32) -> bool
    requires { Sized s block.now }
    ensures { result ≡ ltb (2 ^ s.m) ((half_of (interval s stamp) (decode_block s block.now)).total + volume) }
{
    let total = total(block, interval(s, stamp));
    capacity(s) < total + u64::from(volume)
}

// Whether the half of a parity is sound. The words may be any.
#[tactic(auto, using(crate::specs::Steps::half_checks))]
fn check_half(block: &[u32], s: Shape, parity: u8) -> bool
    requires { Sized s block.now × (parity ≤ 1) }
    ensures { result ≡ sound_half s parity block.now }
{
    let total = total(block, u32::from(parity));
    if capacity(s) < total {
        return false;
    }
    for level in 0..=s.last {
        if !sound::sound_level(level_at(block, s, parity, level), s, level, total) {
            return false;
        }
    }
    true
}

// Whether the block is sound. The words may be any.
#[tactic(auto, unfolding(model::specs::Sound::sound_block))]
pub fn check(block: &[u32], s: Shape) -> bool
    requires { Sized s block.now }
    ensures { result ≡ sound_block s block.now }
{
    check_half(block, s, 0) && check_half(block, s, 1)
}

// The finest level of a half whose F is at most a. The last level has F = 0, so it is not tested.
#[tactic(auto, using(crate::specs::Steps::level_search), unfolding(model::specs::Words::decode_level))]
pub fn finest(block: &[u32], s: Shape, parity: u8, a: u32) -> u8
    requires { Whole s block.now × (parity ≤ 1) }
    ensures { result ≡ serving_index a (decode_half s parity block.now).levels }
{
    for finest in 0..s.last {
        let level = level_at(block, s, parity, finest);
        if level[1] <= a {
            return finest;
        }
    }
    s.last
}

// The sum of a window that opens at tick `start`.
#[tactic(auto, using(crate::specs::Steps::sums))]
fn sum(block: &[u32], s: Shape, clock: u32, start: u32) -> u64
    requires { Whole s block.now }
    ensures { result ≡ answer s clock start (decode_block s block.now) }
{
    let from = interval(s, start);
    let current = interval(s, clock);
    let a = offset(s, start);
    let parity = parity(from);
    let i = finest(block, s, parity, a);
    let sum = scan::sum_from(level_at(block, s, parity, i), a);
    let rest = total(block, current);
    if from == current {
        return sum;
    }
    sum + rest
}

// The sum of a window. Window 0 covers no stamp, so nothing is read.
#[tactic(auto, using(crate::specs::Steps::window_cases))]
pub fn window_sum(block: &[u32], s: Shape, clock: u32, window: u32) -> u64
    requires { Whole s block.now }
    ensures { result ≡ window_sum s clock window (decode_block s block.now) }
{
    if window == 0 {
        return 0;
    }
    sum(block, s, clock, opening(clock, window))
}
