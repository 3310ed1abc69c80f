// The quick pass over the buckets of a level: sixteen slots a turn, then the slots that are left, one by one.
#![tactic(auto)]

ghost use Rattle.std.specs.Prelude.{◌≡◌, ◌+◌, ◌-◌, ◌*◌, ◌<◌, ◌≤◌, ◌&&◌, length, ◌==◌, nat_le};
ghost use Rattle.model.specs.Words.{slots};
ghost use Rattle.quick_laws.specs.Quick.{fresh, mark, quick_each};
ghost use Rattle.quick_laws.specs.Rows.{join_rows, ReadRows, ByRows};

use quick_laws::{Quick, Rows};
use row::{quick_bucket, quick_turn};
use words::slot_at;

// Before the first bucket, which has this width.
fn fresh(first: u32, width: u32) -> Quick
    ensures { result ≡ fresh first width }
{
    Quick {
        end: first,
        faults: 0,
        reach: width.wrapping_sub(1),
        extra: 0,
    }
}

// Marks the end: it must be within reach, so that it has not wrapped.
fn mark(t: Quick) -> Quick
    ensures { result ≡ mark t }
{
    Quick {
        reach: t.reach | t.end,
        ..t
    }
}

// The slots from `from` on, one by one. Tried over `words::slots`, without an index: a delivery on the site shape took 9 % longer.
fn quick_rest(t: Quick, level: &[u32], from: usize, count: usize, least: u32, most: u32) -> Quick
    requires { 2 + 3 * count ≤ length level.now }
    ensures { result ≡ quick_each least most t (slots level.now from (count - from)) }
{
    let mut seen = t;
    for next in from..count {
        seen = mark(quick_bucket(seen, slot_at(level, next), least, most));
    }
    seen
}

// Whether sixteen more slots are read at once. If rows do not join, the buckets are unsound. The compiler would take a loop without this
// test for one over single words, which is slower.
fn goes_on(t: Rows, at: usize, count: usize) -> bool
    requires { at ≤ 1024 }
    ensures { result ≡ (nat_le (at + 16) count && t.gap == 0) }
{
    (at + 16 <= count) & (t.gap == 0)
}

// The rows, and how many slots they have read.
#[derive(Clone, Copy)]
struct Turned {
    rows: Rows,
    at: usize,
}

// The slots in turns of sixteen. Tried with `for` over the number of the turn: a delivery on the site shape took 8 % longer.
fn quick_turns(level: &[u32], count: usize, least: u32, most: u32) -> Turned
    requires { (2 + 3 * count ≤ length level.now) × (count ≤ 1024) × (0 < count) }
    ensures { ReadRows least most level.now count result.rows result.at }
{
    let mut t = Rows {
        one: fresh(level[1], level[3]),
        two: fresh(0, 1),
        three: fresh(0, 1),
        four: fresh(0, 1),
        gap: 0,
        end: level[1],
    };
    let mut rest = &level[2..];
    let mut at: usize = 0;
    while goes_on(t, at, count) {
        t = quick_turn(t, rest, least, most);
        rest = &rest[48..];
        at += 16;
    }
    Turned { rows: t, at: at }
}

// What all rows have collected together.
fn join_rows(t: Rows) -> Quick
    ensures { result ≡ join_rows t }
{
    let one = t.one;
    let two = t.two;
    let three = t.three;
    let four = t.four;
    Quick {
        end: t.end,
        faults: one.faults | two.faults | three.faults | four.faults | t.gap,
        reach: one.reach | two.reach | three.reach | four.reach | t.end,
        extra: one.extra | two.extra | three.extra | four.extra,
    }
}

// The level and the count of its slots stay two parameters: a turn reads 48 words at once, and not slot by slot.
pub fn quick_buckets(level: &[u32], count: usize, least: u32, most: u32) -> Quick
    requires { (2 + 3 * count ≤ length level.now) × (count ≤ 1024) × (0 < count) }
    ensures { ByRows least most level.now count result }
{
    let turned = quick_turns(level, count, least, most);
    let rows = turned.rows;
    quick_rest(join_rows(rows), level, turned.at, count, least, most)
}
