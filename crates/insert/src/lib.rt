// Writing one level of a histogram, on its part of the words: SPECIFICATION 4.5 and 4.6.
#![tactic(auto)]

ghost use Rattle.std.specs.Prelude.{true, ◌≡◌, ◌+◌, ◌^◌, ◌<◌, ◌≤◌, length, get_or};
ghost use Rattle.shape.specs.Layout.{slot_start};
ghost use Rattle.model.specs.Level.{insert, insert_splits};
ghost use Rattle.model.specs.Words.{slot, decode_level, encode_level};
ghost use Rattle.laws.specs.Proper.{Insertable};
ghost use Rattle.insert.specs.Ready.{Ready};
ghost use Rattle.insert.specs.Loop.{gets_full, Continues};
ghost use Rattle.insert.specs.Entry.{At};

use buckets::{gain, put_at, split_at};
use scan::find;
use shape::Shape;
use words::{Slot, power, slot_at};

// How an insertion goes on after a split: what is left to insert, and the slot of the half that spans the offset.
#[derive(Clone, Copy)]
struct Onward {
    rest: u64,
    slot: usize,
}

// Whether v more make the bucket of slot j full, so that it is split.
fn gets_full(level: &[u32], i: u8, v: u64, j: usize) -> bool
    requires { (slot_start (j + 1) ≤ length level.now) × (i ≤ 31) × ((slot level.now j).weight + v < 2 ^ 32) }
    ensures { result ≡ gets_full i v (slot level.now j) }
{
    let b = slot_at(level, j);
    1 < b.width && 2 * u64::from(power(i)) <= u64::from(b.weight) + v
}

// The bucket of slot j spans x, and v more make it full. Fills it and splits it (document 01's 'fill, halve'). Returns what is left of v and
// the slot of the half that spans x, or none if this half was evicted (document 01's 'given up').
fn split(level: &mut [u32], n: usize, i: u8, x: u32, v: u64, j: usize) -> Option<Onward>
    requires { Ready n i x v j level.old × (gets_full i v (slot level.old j) ≡ true) }
    ensures { Continues n i x v j level.old level.new result }
{
    let b = slot_at(level, j);
    let rest = u64::from(b.weight) + v - 2 * u64::from(power(i));
    let half = b.width / 2;
    let up = split_at(level, n, i, j, half);
    if b.offset + half <= x {
        return Some(Onward { rest, slot: up });
    }
    if up == 0 {
        return None;
    }
    Some(Onward { rest, slot: up - 1 })
}

// Level i from 1: inserts v at offset x into the bucket of slot j, which spans x (document 01's 'pour', bucket by bucket). As long as the
// bucket gets full it is split, and the rest goes into the half that spans x. If that half was evicted, the rest is ignored. What is left to
// insert (`rest`), the slot of its bucket (`slot`) and the level (`level`, of number `i`) are variables of this one function, so that a
// debugger which shows a single frame has all of them. Returns the number of splits; that which evicts the half of x is one of them.
fn insert_splitting(level: &mut [u32], n: usize, i: u8, x: u32, v: u64, j: usize) -> u32
    requires { Ready n i x v j level.old }
    ensures words { level.new ≡ encode_level n (insert n i x v (decode_level level.old)) }
    ensures count { result ≡ insert_splits n i x v (decode_level level.old) }
{
    let mut rest = v;
    let mut slot = j;
    let mut splits: u32 = 0;
    while gets_full(level, i, rest, slot) {
        splits += 1;
        let Some(next) = split(level, n, i, x, rest, slot) else {
            return splits;
        };
        rest = next.rest;
        slot = next.slot;
    }
    gain(level, slot, rest);
    splits
}

// Whether slot j has the bucket of offset x.
fn is_at(level: &[u32], j: usize, x: u32) -> bool
    requires { (slot_start (get_or level.now 0 0) ≤ length level.now) × (j ≤ get_or level.now 0 0) }
    ensures { At j x level.now result }
{
    j < level[0] as usize && slot_at(level, j).offset == x
}

// Level 0: the bucket of offset x gains v; if there is none, one of weight v is made.
fn insert_single(level: &mut [u32], s: Shape, x: u32, v: u64)
    requires { Insertable s 0 x v level.old × (get_or level.old 1 0 ≤ x) }
    ensures { level.new ≡ encode_level s.n (insert s.n 0 x v (decode_level level.old)) }
{
    let j = find(level, x);
    if is_at(level, j, x) {
        gain(level, j, v);
        return;
    }
    let single = Slot {
        offset: x,
        width: 1,
        weight: v as u32,
    };
    put_at(level, s.n as usize, 0, j, single);
}

// Inserts v decilitres at offset x into level i (document 01's 'pour'). Below F they are ignored. Returns the number of splits (document 02's
// 'halvings'): those that the decilitres make one after another, at most k. Level 0 makes none.
pub fn insert(level: &mut [u32], s: Shape, i: u8, x: u32, v: u64) -> u32
    requires { Insertable s i x v level.old }
    ensures words { level.new ≡ encode_level s.n (insert s.n i x v (decode_level level.old)) }
    ensures count { result ≡ insert_splits s.n i x v (decode_level level.old) }
    ensures most { result ≤ s.k }
{
    if x < level[1] {
        return 0;
    }
    if i == 0 {
        insert_single(level, s, x, v);
        return 0; // Buckets of width 1 never split.
    }
    let j = find(level, x);
    insert_splitting(level, s.n as usize, i, x, v, j)
}
