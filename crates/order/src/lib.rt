// The clocks of a day's records, and whether the day may be merged (SPECIFICATION 19.1 and 19.3).
#![tactic(auto)]

ghost use Rattle.std.specs.Prelude.{◌≡◌};
ghost use Rattle.model.specs.Trace.{records_of};
ghost use Rattle.model.specs.Merge.{clock_after, orderly, mergeable};

use days::{is_clock, record_at};
use model::{MAX_CLOCK, RECORD_WORDS, Record};

// The clock of a record; `before` is that of the record before.
pub fn clock_after(before: u32, it: Record) -> u32
    ensures { result ≡ clock_after before it }
{
    if is_clock(it) { it.first } else { before }
}

// Whether no clock falls or passes the largest.
fn is_orderly(day: &[u32]) -> bool
    ensures { result ≡ orderly 0 (records_of day.now) }
{
    let mut clock: u32 = 0;
    for i in 0..day.len() / RECORD_WORDS {
        let next = clock_after(clock, record_at(day, i));
        if next < clock {
            return false;
        }
        if MAX_CLOCK < next {
            return false;
        }
        clock = next;
    }
    true
}

// Whether a day may be merged: it has no record, or opens with a clock, and its clocks are in order.
pub fn is_mergeable(day: &[u32]) -> bool
    ensures { result ≡ mergeable (records_of day.now) }
{
    if day.len() < RECORD_WORDS {
        return true;
    }
    let opening = record_at(day, 0);
    if !is_clock(opening) {
        return false;
    }
    is_orderly(day)
}
