// One day from two traces (SPECIFICATION 19). At equal clock it takes the records of the first-named trace first: `merge_first` promises it,
// `merge` does not.
#![tactic(auto)]

ghost use Rattle.std.specs.Prelude.{true, ◌≡◌, ◌+◌, ◌<◌, ltb, eqb};
ghost use Rattle.model.specs.Calls.{outcome_of};
ghost use Rattle.model.specs.Reply.{done_reply};
ghost use Rattle.model.specs.Trace.{sound_day, day_count, day_part, sound_trace};
ghost use Rattle.model.specs.Merge.{Merges};
ghost use Rattle.merge_laws.specs.FirstNamed.{merge_days, merge_first};

use days::{day_at, pair_at};
use model::Refusal;
use order::is_mergeable;
use trace::is_sound_trace;
use two_way::merge_records;

// Whether x and y make up the sum. x + y might not fit a usize.
fn is_sum(sum: usize, x: usize, y: usize) -> bool
    ensures { result ≡ eqb sum (x + y) }
{
    x.checked_add(y) == Some(sum)
}

// Merges two sound days, or refuses their order or the output's length.
fn merge_days(a: &[u32], b: &[u32], out: &mut [u32]) -> Result<(), Refusal>
    requires { (sound_day a.now ≡ true) × (sound_day b.now ≡ true) }
    ensures { outcome_of (done_reply result) out.new ≡ merge_days a.now b.now out.old }
{
    let ordered = is_mergeable(a) & is_mergeable(b);
    let fits = is_sum(out.len(), a.len(), b.len());
    if !ordered {
        return Err(Refusal::Order);
    }
    if !fits {
        return Err(Refusal::Output);
    }
    merge_records(a, b, out);
    Ok(())
}

// Whether the trace has such a day, by its count of days. One without words has none.
fn has_day(trace: &[u32], day: u32) -> bool
    ensures { result ≡ ltb day (day_count trace.now) }
{
    if trace.len() == 0 {
        return false;
    }
    day < trace[0]
}

// The words of a day of a sound trace.
fn day_part(trace: &[u32], day: u32) -> &[u32]
    requires { (sound_trace trace.now ≡ true) × (day < day_count trace.now) }
    ensures { result.now ≡ day_part trace.now day }
{
    day_at(trace, pair_at(trace, day as usize))
}

// The merge that takes the first-named trace first.
fn merge_first(
    first: &[u32],
    i: u32,
    second: &[u32],
    j: u32,
    out: &mut [u32],
) -> Result<(), Refusal>
    ensures { outcome_of (done_reply result) out.new ≡ merge_first first.now i second.now j out.old }
{
    let sound = is_sound_trace(first) & is_sound_trace(second);
    let there = has_day(first, i) & has_day(second, j);
    if !sound {
        return Err(Refusal::Trace);
    }
    if !there {
        return Err(Refusal::Day);
    }
    merge_days(day_part(first, i), day_part(second, j), out)
}

// Writes a merged day of a day of each trace. In which order records of equal clock stand is undecided.
pub fn merge(first: &[u32], i: u32, second: &[u32], j: u32, out: &mut [u32]) -> Result<(), Refusal>
    ensures { Merges first.now i second.now j out.old (done_reply result) out.new }
{
    merge_first(first, i, second, j, out)
}
