// What the quick pass collects of a bucket, of a row of four slots, and of a turn of four rows.
#![tactic(auto)]

ghost use Rattle.std.specs.Prelude.{◌≡◌, ◌+◌, ◌≤◌, length};
ghost use Rattle.words.specs.Slot.{content};
ghost use Rattle.quick_laws.specs.Quick.{mask, quick_bucket};
ghost use Rattle.quick_laws.specs.Rows.{open_row, quick_row, end_at, seam_at, quick_turn};

use quick_laws::{Quick, Rows};
use words::{Slot, slot_from};

// All bits if x is more than y, both taken as signed words, as the definition takes them, else none. The machine compares four signed words in
// one operation, and needs more for unsigned ones.
fn mask(x: u32, y: u32) -> u32
    ensures { result ≡ mask x y }
{
    if 2147483648 ^ y < 2147483648 ^ x {
        4294967295
    } else {
        0
    }
}

// A bucket whose weight must be `least` or more and, if it is wider than 1, at most `most` above that. The two stay two parameters, as the
// definitions have them: a struct of both would only name them again in each clause.
pub fn quick_bucket(t: Quick, b: Slot, least: u32, most: u32) -> Quick
    ensures { result ≡ quick_bucket least most t (content b) }
{
    let before = b.width.wrapping_sub(1);
    let extra = b.weight.wrapping_sub(least);
    Quick {
        end: b.offset.wrapping_add(b.width),
        faults: t.faults
            | (t.end ^ b.offset)
            | (b.width & before)
            | (b.offset & before)
            | (mask(extra, most) & before),
        extra: t.extra | extra,
        ..t
    }
}

// Each row takes its first offset as its start; the seam test links the rows. An end at most doubles from bucket to bucket, so none of a
// row's ends wraps if its first offset is within reach.
fn open_row(t: Quick, offset: u32) -> Quick
    ensures { result ≡ open_row t offset }
{
    Quick {
        end: offset,
        reach: t.reach | offset,
        ..t
    }
}

// The four slots from word `at` on.
fn quick_row(t: Quick, rest: &[u32], at: usize, least: u32, most: u32) -> Quick
    requires { at + 12 ≤ length rest.now }
    ensures { result ≡ quick_row least most t rest.now at }
{
    let none = open_row(t, rest[at]);
    let one = quick_bucket(none, slot_from(rest, at), least, most);
    let two = quick_bucket(one, slot_from(rest, at + 3), least, most);
    let three = quick_bucket(two, slot_from(rest, at + 6), least, most);
    quick_bucket(three, slot_from(rest, at + 9), least, most)
}

// Where the bucket at word `at` ends.
fn end_at(rest: &[u32], at: usize) -> u32
    requires { at + 2 ≤ length rest.now }
    ensures { result ≡ end_at rest.now at }
{
    rest[at].wrapping_add(rest[at + 1])
}

// 0 if the bucket at word `at` ends at the offset of the next.
fn seam_at(rest: &[u32], at: usize) -> u32
    requires { at + 4 ≤ length rest.now }
    ensures { result ≡ seam_at rest.now at }
{
    end_at(rest, at) ^ rest[at + 3]
}

// A turn: four rows of four slots. The compiler reads a row's words whole and works on the four rows at once.
pub fn quick_turn(t: Rows, rest: &[u32], least: u32, most: u32) -> Rows
    requires { 48 ≤ length rest.now }
    ensures { result ≡ quick_turn least most t rest.now }
{
    let one = t.one;
    let two = t.two;
    let three = t.three;
    let four = t.four;
    Rows {
        one: quick_row(one, rest, 0, least, most),
        two: quick_row(two, rest, 12, least, most),
        three: quick_row(three, rest, 24, least, most),
        four: quick_row(four, rest, 36, least, most),
        gap: t.gap | (t.end ^ rest[0]) | seam_at(rest, 9) | seam_at(rest, 21) | seam_at(rest, 33),
        end: end_at(rest, 45),
    }
}
