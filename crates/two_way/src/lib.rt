// The two-way merge of the records of two days by their clocks. At equal clock it takes those of the first day first. Only `merge` uses it: a
// caller is not promised this order.
#![tactic(auto)]

ghost use Rattle.std.specs.Prelude.{◌≡◌, ◌++◌, ◌+◌, ◌*◌, ◌%◌, ◌^◌, ◌≤◌, ◌<◌, length, take};
ghost use Rattle.model.specs.Trace.{record_words};
ghost use Rattle.model.specs.Merge.{clock_after};
ghost use Rattle.days.specs.Records.{record_count};
ghost use Rattle.merge_laws.specs.FirstNamed.{record_part, merged_words};
ghost use Rattle.merge_laws.specs.Merging.{first_next, Merging};

use days::record_at;
use model::{RECORD_WORDS, Record};
use order::clock_after;

// How far a day is merged: how many of its records are taken, and the clock of the last. Where none is taken yet, the clock is 0.
#[derive(Clone, Copy)]
pub struct Taken {
    pub count: usize,
    pub clock: u32,
}

impl Taken {
    // The same once the day's next record is taken too.
    fn past(self, it: Record) -> Taken
        requires { self.count + 1 < 2 ^ 64 }
        ensures { result ≡ record { count = self.count + 1; clock = clock_after self.clock it } }
    {
        Taken {
            count: self.count + 1,
            clock: clock_after(self.clock, it),
        }
    }
}

// Where the merge stands in both days. Their words stay two slices beside it, as the definitions have them.
#[derive(Clone, Copy)]
pub struct Place {
    pub first: Taken,
    pub second: Taken,
}

// Whether the next record is one of the first day. At equal clock it is.
fn takes_first(a: &[u32], b: &[u32], p: Place) -> bool
    ensures { result ≡ first_next a.now p.first.count p.first.clock b.now p.second.count p.second.clock }
{
    let i = p.first.count;
    let j = p.second.count;
    if a.len() / RECORD_WORDS <= i {
        return false;
    }
    if b.len() / RECORD_WORDS <= j {
        return true;
    }
    clock_after(p.first.clock, record_at(a, i)) <= clock_after(p.second.clock, record_at(b, j))
}

// Writes a record after `to` others.
fn put_record(out: &mut [u32], to: usize, it: Record)
    requires { record_words * (to + 1) ≤ length out.old }
    ensures { take (record_words * (to + 1)) out.new ≡ take (record_words * to) out.old ++ record_part it }
{
    let at = RECORD_WORDS * to;
    out[at] = it.kind;
    out[at + 1] = it.first;
    out[at + 2] = it.second;
    out[at + 3] = it.third;
}

// Writes the next record.
fn take_next(a: &[u32], b: &[u32], p: Place, out: &mut [u32]) -> Place
    requires { Merging a.now b.now p.first.count p.first.clock p.second.count p.second.clock out.old × (p.first.count + p.second.count < record_count out.old) }
    ensures { Merging a.now b.now result.first.count result.first.clock result.second.count result.second.clock out.new × (result.first.count + result.second.count ≡ p.first.count + p.second.count + 1) }
{
    let to = p.first.count + p.second.count;
    if takes_first(a, b, p) {
        let it = record_at(a, p.first.count);
        put_record(out, to, it);
        return Place {
            first: p.first.past(it),
            second: p.second,
        };
    }
    let it = record_at(b, p.second.count);
    put_record(out, to, it);
    Place {
        first: p.first,
        second: p.second.past(it),
    }
}

// Writes the records of both days, which are whole records.
pub fn merge_records(a: &[u32], b: &[u32], out: &mut [u32])
    requires { (length a.now % record_words ≡ 0) × (length b.now % record_words ≡ 0) × (length out.old ≡ length a.now + length b.now) }
    ensures { out.new ≡ merged_words a.now b.now }
{
    let none = Taken { count: 0, clock: 0 };
    let mut p = Place {
        first: none,
        second: none,
    };
    for to in 0..out.len() / RECORD_WORDS {
        p = take_next(a, b, p, out);
    }
}
