// Putting buckets into the slots of one level, and splitting them. If there is no room, the lowest bucket is evicted.
#![tactic(auto)]

ghost use Rattle.std.specs.Prelude.{cond, [], ◌∷◌, ◌≡◌, ◌+◌, ◌-◌, ◌*◌, ◌/◌, ◌^◌, ◌<◌, ◌≤◌, eqb, length, get_or, set};
ghost use Rattle.shape.specs.Layout.{level_head_len, slot_len, slot_start};
ghost use Rattle.model.specs.Words.{slot};
ghost use Rattle.laws.specs.Bucket.{halves};
ghost use Rattle.laws.specs.SlotWrites.{raise, lower, put_slot};
ghost use Rattle.words.specs.Slot.{content};
ghost use Rattle.buckets.specs.Steps.{Takes, Becomes};

use shape::{LEVEL_HEAD_LEN, SLOT_LEN};
use words::{Slot, power, slot_at};

// Where slot j starts.
fn start_of(j: usize) -> usize
    requires { slot_start j < 2 ^ 64 }
    ensures { result ≡ slot_start j }
{
    LEVEL_HEAD_LEN + SLOT_LEN * j
}

// Stores a bucket in slot j.
fn put_slot(level: &mut [u32], j: usize, b: Slot)
    requires { slot_start (j + 1) ≤ length level.old }
    ensures { level.new ≡ put_slot level.old (slot_start j) (content b) }
{
    let at = start_of(j);
    level[at] = b.offset;
    level[at + 1] = b.width;
    level[at + 2] = b.weight;
}

// The weight of the bucket in slot j grows by v.
pub fn gain(level: &mut [u32], j: usize, v: u64)
    requires { (slot_start (j + 1) ≤ length level.old) × ((slot level.old j).weight + v < 2 ^ 32) }
    ensures { level.new ≡ set level.old (slot_start j + 2) ((slot level.old j).weight + v) }
{
    let at = start_of(j);
    let weight = u64::from(level[at + 2]);
    level[at + 2] = (weight + v) as u32;
}

// Puts a bucket into slot j of `count` slots: the slots from j on move up by one.
fn put_in(level: &mut [u32], j: usize, count: usize, b: Slot)
    requires { (j ≤ count) × (slot_start (count + 1) ≤ length level.old) × (count < 1024) }
    ensures { level.new ≡ set (put_slot (raise level.old (slot_start j) (slot_len * (count - j))) (slot_start j) (content b)) 0 (count + 1) }
{
    level.copy_within(start_of(j)..start_of(count), start_of(j + 1));
    put_slot(level, j, b);
    level[0] = (count + 1) as u32;
}

// Drops the lowest bucket and puts another into slot j: the slots up to j move down by one.
fn shift_in(level: &mut [u32], j: usize, b: Slot)
    requires { slot_start (j + 1) ≤ length level.old }
    ensures { level.new ≡ put_slot (lower level.old level_head_len (slot_len * j)) (slot_start j) (content b) }
{
    level.copy_within(start_of(1)..start_of(j + 1), start_of(0));
    put_slot(level, j, b);
}

// F after the lowest bucket of level i was evicted: it was at `offset`, and the next one is at `next`.
fn first_after(i: u8, offset: u32, next: u32) -> u32
    requires { offset < 2 ^ 31 }
    ensures { result ≡ cond (eqb i 0) (offset + 1) next }
{
    if i == 0 { offset + 1 } else { next }
}

// Puts a bucket into slot j of level i. If there is no room the lowest bucket is evicted, which may be the new one itself. Returns the slot
// after the new one's. The words, n and i stay parameters of their own, since `insert_splitting` keeps them as variables, for a debugger.
pub fn put_at(level: &mut [u32], n: usize, i: u8, j: usize, b: Slot) -> usize
    requires { Takes n j level.old × (b.offset < 2 ^ 31) × (0 < i → j < get_or level.old 0 0) }
    ensures { Becomes n i j [] (content b ∷ []) level.old level.new result }
{
    let count = level[0] as usize;
    if count < n {
        put_in(level, j, count, b);
        return j + 1;
    }
    let lowest = level[LEVEL_HEAD_LEN];
    if j == 0 {
        level[1] = first_after(i, b.offset, lowest);
        return j;
    }
    shift_in(level, j - 1, b);
    level[1] = first_after(i, lowest, level[LEVEL_HEAD_LEN]);
    j
}

// Splits the bucket of slot j of level i. If there is no room the lowest bucket is evicted, which may be the lower half. Returns the upper
// half's slot.
pub fn split_at(level: &mut [u32], n: usize, i: u8, j: usize, half: u32) -> usize
    requires { Takes n j level.old × (j < get_or level.old 0 0) × (half ≡ (slot level.old j).width / 2) × ((slot level.old j).offset + half < 2 ^ 31) × (i ≤ 31) }
    ensures { Becomes n i j (slot level.old j ∷ []) (halves i (slot level.old j)) level.old level.new result }
{
    let lower = Slot {
        offset: slot_at(level, j).offset,
        width: half,
        weight: power(i),
    };
    let upper = Slot {
        offset: lower.offset + half,
        ..lower
    };
    put_slot(level, j, upper);
    put_at(level, n, i, j, lower)
}
