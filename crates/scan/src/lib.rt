// Reading one level of a histogram, on its part of the words: the bucket that spans an offset, and the sum from an opening.
#![tactic(auto)]

ghost use Rattle.std.specs.Prelude.{◌≡◌, cond, ◌+◌, ◌*◌, ◌^◌, ◌<◌, ◌≤◌, leb, length, get_or};
ghost use Rattle.shape.specs.Layout.{slot_start};
ghost use Rattle.model.specs.Words.{decode_level};
ghost use Rattle.model.specs.Block.{sum_from};
ghost use Rattle.laws.specs.SlotOf.{slot_of, EndsRise};
ghost use Rattle.scan.specs.Search.{is_past, Spans};

use words::{Slot, slot_at, slots};

// Where a bucket ends.
fn end(b: Slot) -> u64
    ensures { result ≡ b.offset + b.width }
{
    u64::from(b.offset) + u64::from(b.width)
}

// Whether there is a slot `step` below `high`, and its bucket ends after offset x.
fn is_past(level: &[u32], high: usize, step: usize, x: u32) -> bool
    requires { (0 < step) × (slot_start high ≤ length level.now) }
    ensures { result ≡ is_past level.now high step x }
{
    if high < step {
        return false;
    }
    u64::from(x) < end(slot_at(level, high - step))
}

// The buckets of the slots before `low` end at or before an offset, those of the slots from `high` on end after it.
#[derive(Clone, Copy)]
struct Span {
    low: usize,
    high: usize,
}

// A span for offset x. It is searched from the upper end, in steps that double, because most offsets are near that end.
// It takes the level and not its slots, and searches by hand: the theorems `past-most` and `past-least`, which speak of such steps and of a
// level's words, may not change.
fn gallop(level: &[u32], x: u32) -> Span
    requires { EndsRise 0 (decode_level level.now).buckets × (slot_start (get_or level.now 0 0) ≤ length level.now) }
    ensures { Spans x level.now result }
{
    let mut high = level[0] as usize;
    let mut step: usize = 1;
    while is_past(level, high, step, x) {
        high -= step;
        step = step * 2;
    }
    if high < step {
        return Span { low: 0, high: high };
    }
    Span {
        low: high - step + 1,
        high: high,
    }
}

// How many leading buckets end at or before offset x: the slot of the first that ends after it, or the count.
pub fn find(level: &[u32], x: u32) -> usize
    requires { (slot_start (get_or level.now 0 0) ≤ length level.now) × EndsRise 0 (decode_level level.now).buckets }
    ensures { result ≡ slot_of x (decode_level level.now).buckets }
{
    let span = gallop(level, x);
    let searched = &slots(level, level[0] as usize)[span.low..span.high];
    span.low + searched.partition_point(|words| end(Slot::from(words)) <= u64::from(x))
}

// What a bucket adds to the sum from offset a on.
fn counted(b: Slot, a: u32) -> u64
    ensures { (result ≡ cond (leb a b.offset) b.weight 0) × (result < 2 ^ 32) }
{
    if a <= b.offset {
        u64::from(b.weight)
    } else {
        0
    }
}

// The sum of the weights of the buckets that start at a or later.
pub fn sum_from(level: &[u32], a: u32) -> u64
    requires { (slot_start (get_or level.now 0 0) ≤ length level.now) × (get_or level.now 0 0 ≤ 1024) }
    ensures { result ≡ sum_from a (decode_level level.now).buckets }
{
    let mut sum: u64 = 0;
    for words in slots(level, level[0] as usize) {
        sum += counted(Slot::from(words), a);
    }
    sum
}
