// The exact pass over the buckets of a level: it decides whether they are sound, and adds their weights.
#![tactic(auto)]

ghost use Rattle.std.specs.Prelude.{◌≡◌, ◌+◌, ◌≤◌, length, map};
ghost use Rattle.words.specs.Slot.{content, front};
ghost use Rattle.pass_laws.specs.Pass.{unseen, below, spread, see_single, see_bucket, see_one, least_of, seen_level, weight_seen, sound_seen, Judged};

use pass_laws::{Seen, Verdict};
use shape::SLOT_LEN;
use words::{Slot, implied, power};

// Before the first bucket.
fn unseen(first: u32) -> Seen
    ensures { result ≡ unseen first }
{
    Seen {
        end: first,
        faults: 0,
        reach: 0,
        heavy: 0,
        short: 0,
        low: 0,
        high: 0,
    }
}

// 1 if x is less than y, else 0.
fn below(x: u32, y: u32) -> u32
    ensures { (result ≡ below x y) × (result ≤ 1) }
{
    u32::from(x < y)
}

// The weight of a bucket wider than 1, else 0.
fn spread(b: Slot) -> u32
    ensures { result ≡ spread (content b) }
{
    if b.width == 1 { 0 } else { b.weight }
}

// A bucket of level 0.
fn see_single(t: Seen, b: Slot) -> Seen
    requires { (t.short ≤ 2048) × (t.high ≤ 67108864) }
    ensures { (result ≡ see_single t (content b)) × (result.short ≤ t.short + 2) × (result.high ≤ t.high + 65535) }
{
    Seen {
        end: b.offset.wrapping_add(1),
        faults: t.faults | (b.width ^ 1),
        reach: t.reach | b.offset,
        short: t.short + (below(b.offset, t.end) + below(b.weight, 1)),
        low: t.low.wrapping_add(b.weight),
        high: t.high + b.weight / 65536,
        ..t
    }
}

// A bucket of a level from 1 on. A power of two shares no bit with the number before it, and neither does a multiple of it. If F and every
// width are within 2 ^ k, an end wraps only after more buckets than a level has.
fn see_bucket(t: Seen, b: Slot, least: u32) -> Seen
    requires { (t.short ≤ 2048) × (t.high ≤ 67108864) }
    ensures { (result ≡ see_bucket least t (content b)) × (result.short ≤ t.short + 1) × (result.high ≤ t.high + 65535) }
{
    let less = b.width.wrapping_sub(1);
    Seen {
        end: b.offset.wrapping_add(b.width),
        faults: t.faults | (t.end ^ b.offset) | (b.width & less) | (b.offset & less),
        reach: t.reach | less,
        heavy: t.heavy | spread(b),
        short: t.short + below(b.weight, least),
        low: t.low.wrapping_add(b.weight),
        high: t.high + b.weight / 65536,
    }
}

// A bucket of level i. The level is the same for a whole pass, so the compiler makes two loops of this one. The step is no closure, because its
// contract would have to repeat the two bounds and what a bucket adds to them.
fn see_one(t: Seen, b: Slot, i: u8, least: u32) -> Seen
    requires { (t.short ≤ 2048) × (t.high ≤ 67108864) }
    ensures { (result ≡ see_one i least t (content b)) × (result.short ≤ t.short + 2) × (result.high ≤ t.high + 65535) }
{
    if i == 0 {
        return see_single(t, b);
    }
    see_bucket(t, b, least)
}

// The least weight that a bucket of level i from 1 on must have.
pub fn least_of(count: usize, i: u8) -> u32
    requires { i ≤ 31 }
    ensures { result ≡ least_of count i }
{
    if 2 <= count { power(i) } else { 0 }
}

// One pass over the buckets of level i.
fn seen_level(slots: &[[u32; SLOT_LEN]], first: u32, i: u8) -> Seen
    requires { (length slots.now ≤ 1024) × (i ≤ 31) }
    ensures { result ≡ seen_level i first (map front slots.now) }
{
    let low = least_of(slots.len(), i);
    let mut t = unseen(first);
    for words in slots {
        t = see_one(t, Slot::from(words), i, low);
    }
    t
}

// The sum of the weights. Their lower 16 bits add up to less than 2 ^ 32, so the remainder is all of it. It is written as the definition has it.
fn weight_seen(t: Seen) -> u64
    ensures { result ≡ weight_seen t }
{
    let high = 65536 * u64::from(t.high);
    high + (u64::from(t.low) + (4294967296 - high % 4294967296)) % 4294967296
}

// Whether the buckets of level i are sound, by what a pass collected.
fn sound_seen(t: Seen, first: u32, k: u8, i: u8) -> bool
    requires { (k ≤ 31) × (i ≤ 30) }
    ensures { result ≡ sound_seen k i first t }
{
    let top = power(k);
    let high = 2 * power(i);
    let ended = implied(0 < i, t.end == top);
    (first < top) & (t.faults == 0) & (t.reach < top) & (t.heavy < high) & (t.short == 0) & ended
}

// Exact verdict and weight.
pub fn judge_seen(slots: &[[u32; SLOT_LEN]], first: u32, k: u8, i: u8) -> Verdict
    requires { (length slots.now ≤ 1024) × (k ≤ 20) × (i ≤ 24) }
    ensures { Judged k i first (map front slots.now) result }
{
    let t = seen_level(slots, first, i);
    Verdict {
        weight: weight_seen(t),
        sound: sound_seen(t, first, k, i),
    }
}
