// Emptying one grade's block, on its part of the words: the whole block, or the halves that the clock empties.
#![tactic(auto)]

ghost use Rattle.std.specs.Prelude.{◌≡◌, ◌≤◌, length};
ghost use Rattle.shape.specs.Layout.{level_words};
ghost use Rattle.model.specs.Words.{decode_block, encode_block};
ghost use Rattle.model.specs.Block.{empty_half, advance};
ghost use Rattle.laws.specs.Proper.{Sized, Whole};
ghost use Rattle.laws.specs.BlockWrites.{with_level};
ghost use Rattle.laws.specs.HalfWrites.{empty_words, emptied};
ghost use Rattle.block.specs.Steps.{LevelIn};

use shape::{LEVEL_HEAD_LEN, Shape};
use stamp::{interval, parity};
use words::power;

// Where the width of a level's first slot stands.
const FIRST_WIDTH: usize = LEVEL_HEAD_LEN + 1;

// Writes level i of an empty half.
fn clear_level(level: &mut [u32], s: Shape, i: u8)
    requires { (length level.old ≡ level_words s) × (2 ≤ s.n) × (s.k ≤ 31) }
    ensures { level.new ≡ empty_words s i }
{
    level.fill(0);
    if 0 < i {
        level[0] = 1;
        level[FIRST_WIDTH] = power(s.k);
    }
}

// Empties one level in its place.
fn clear_at(block: &mut [u32], s: Shape, parity: u8, i: u8)
    requires { LevelIn s parity i block.old }
    ensures { block.new ≡ with_level s parity i (empty_words s i) block.old }
{
    let a = s.level_start(parity, i);
    let e = a + s.level_len();
    clear_level(&mut block[a..e], s, i);
}

// Empties the half of a parity: its total and all its levels.
fn clear_half(block: &mut [u32], s: Shape, parity: u8)
    requires { Sized s block.old × (parity ≤ 1) }
    ensures { block.new ≡ emptied s parity block.old }
{
    let at = parity as usize;
    block[at] = 0;
    for i in 0..=s.last {
        clear_at(block, s, parity, i);
    }
}

// Empties both halves. The words may be any.
pub fn clear(block: &mut [u32], s: Shape)
    requires { Sized s block.old }
    ensures { block.new ≡ encode_block s (record { even = empty_half s; odd = empty_half s }) }
{
    clear_half(block, s, 0);
    clear_half(block, s, 1);
}

// Empties the halves that the clock empties when it goes from one tick to another: SPECIFICATION 5.3. It stays a call, since within its caller it
// adds 240 bytes to the stack of every clock.
#[inline(never)]
pub fn advance(block: &mut [u32], s: Shape, old: u32, new: u32)
    requires { Whole s block.old }
    ensures { block.new ≡ encode_block s (advance s old new (decode_block s block.old)) }
{
    let from = interval(s, old);
    let to = interval(s, new);
    if to == from {
        return;
    }
    if to == from + 1 {
        clear_half(block, s, parity(to));
        return;
    }
    clear(block, s);
}
