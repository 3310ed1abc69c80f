// The check of a level's buckets: the quick pass first, and the exact pass if its tests fail.
#![tactic(auto)]

ghost use Rattle.std.specs.Prelude.{◌≡◌, ◌+◌, ◌*◌, ◌%◌, ◌^◌, ◌≤◌, ◌&&◌, length, map, nat_le, slice_index};
ghost use Rattle.model.specs.Words.{slots};
ghost use Rattle.model.specs.Sound.{weight_of, sound_buckets};
ghost use Rattle.words.specs.Slot.{front};
ghost use Rattle.quick_laws.specs.Quick.{most_of, is_enough, is_tried, weighs};

use pass::{judge_seen, least_of};
use quick_laws::Quick;
use shape::SLOT_LEN;
use turns::quick_buckets;
use words::{Slot, implied, power, slots};

// The sum of the weights modulo 2 ^ 32.
fn weight_of(slots: &[[u32; SLOT_LEN]]) -> u32
    ensures { result ≡ weight_of (map front slots.now) % 2 ^ 32 }
{
    let mut sum: u32 = 0;
    for words in slots {
        sum = sum.wrapping_add(Slot::from(words).weight);
    }
    sum
}

// How much the weight of a bucket wider than 1 may be above the least one.
fn most_of(count: usize, i: u8) -> u32
    requires { i ≤ 30 }
    ensures { result ≡ most_of count i }
{
    if 2 <= count {
        power(i) - 1
    } else {
        2 * power(i) - 1
    }
}

// Whether the tests of the quick pass hold. Then the buckets are sound and, if the least weight is at most 2 ^ 20, their weights add up to
// less than 2 ^ 32.
fn is_enough(t: Quick, first: u32, k: u8) -> bool
    requires { k ≤ 31 }
    ensures { result ≡ is_enough k first t }
{
    let top = power(k);
    (first < top) & (t.faults == 0) & (t.reach / 2 < top) & (t.end == top) & (t.extra < 2097152)
}

// Whether the quick pass is tried: only if the least weight is at most 2 ^ 20, since then 1024 weights that pass its tests add up to less
// than 2 ^ 32.
fn is_tried(count: usize, i: u8) -> bool
    requires { i ≤ 24 }
    ensures { result ≡ is_tried count i }
{
    (0 < i) & (0 < count) & (least_of(count, i) <= 1048576)
}

// Whether `count` weights, each at most `extra` above `least`, are at most the total together.
fn is_bounded(least: u32, extra: u32, count: usize, total: u64) -> bool
    requires { count ≤ 1024 }
    ensures { result ≡ nat_le ((least + extra) * count) total }
{
    let top = u64::from(least) + u64::from(extra);
    top * count as u64 <= total
}

// Whether a level's weight is what its half's total asks.
fn weighs(weight: u64, first: u32, total: u64) -> bool
    ensures { result ≡ weighs first total weight }
{
    (weight <= total) & implied(first == 0, weight == total)
}

// Whether a level's buckets are sound and weigh what its half's total asks. Level and count stay two parameters, since `turns::quick_buckets` has
// them so. The quick pass answers if its tests hold. If F is above 0 the
// weights must only be at most the total; then none is added if the count times the largest weight that the pass may have seen is at most
// the total. The quick pass is called in both branches: a function that is called once is put into its caller, and there the compiler no
// longer finds the rows.
pub fn sound_buckets(level: &[u32], count: usize, k: u8, i: u8, total: u64) -> bool
    requires { (2 + 3 * count ≤ length level.now) × (count ≤ 1024) × (k ≤ 20) × (i ≤ 24) }
    ensures { result ≡ (sound_buckets k i (slice_index level.now 1) (slots level.now 0 count)
        && weighs (slice_index level.now 1) total (weight_of (slots level.now 0 count))) }
{
    let first = level[1];
    if is_tried(count, i) {
        let low = least_of(count, i);
        let high = most_of(count, i);
        if 0 < first {
            let t = quick_buckets(level, count, low, high);
            if is_enough(t, first, k) {
                if is_bounded(low, t.extra, count, total) {
                    return true;
                }
                return weighs(u64::from(weight_of(slots(level, count))), first, total);
            }
        } else {
            let t = quick_buckets(level, count, low, high);
            if is_enough(t, first, k) {
                return weighs(u64::from(weight_of(slots(level, count))), first, total);
            }
        }
    }
    let v = judge_seen(slots(level, count), first, k, i);
    let right = weighs(v.weight, first, total);
    v.sound & right
}
