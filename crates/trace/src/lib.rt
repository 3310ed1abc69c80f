// A trace of recorded days: the check of its layout, and a day as a part of the caller's words (SPECIFICATION 16).
#![tactic(auto)]

ghost use Rattle.std.specs.Prelude.{true, ◌≡◌, ◌≤◌, length};
ghost use Rattle.model.specs.Sound.{all_from};
ghost use Rattle.model.specs.Trace.{sound_day, pair_start, day_part, laid, sound_trace, day_reply, found_day};
ghost use Rattle.trace.specs.Found.{found_of};

use days::{Pair, day_at, is_sound_day, pair_at};
use model::{MAX_DAYS, Refusal};

// Whether the days lie end to end, from the last pair to the end of the trace.
fn is_laid(trace: &[u32], days: usize) -> bool
    requires { pair_start days ≤ length trace.now }
    ensures { result ≡ laid trace.now (pair_start days) 0 days }
{
    let mut at = 1 + 2 * days;
    for j in 0..days {
        let pair = pair_at(trace, j);
        if pair.start as usize != at {
            return false;
        }
        let length = pair.length as usize;
        if trace.len() - at < length {
            return false;
        }
        at += length;
    }
    at == trace.len()
}

// Whether every day is whole records, each sound.
fn are_sound_days(trace: &[u32], days: usize) -> bool
    requires { (pair_start days ≤ length trace.now) × (laid trace.now (pair_start days) 0 days ≡ true) }
    ensures { result ≡ all_from (λ j. sound_day (day_part trace.now j)) 0 days }
{
    (0..days).all(|j| is_sound_day(day_at(trace, pair_at(trace, j))))
}

// Whether the trace is sound: its layout, and every record of every day.
pub fn is_sound_trace(trace: &[u32]) -> bool
    ensures { result ≡ sound_trace trace.now }
{
    if trace.len() == 0 {
        return false;
    }
    let days = trace[0] as usize;
    if MAX_DAYS < days {
        return false;
    }
    // Without this the pairs could not be read.
    if trace.len() < 1 + 2 * days {
        return false;
    }
    if !is_laid(trace, days) {
        return false;
    }
    are_sound_days(trace, days)
}

// Where a day lies, or why there is none. Trace and day stay two parameters, here and in `merge` and `replay`: the calls from C have them so.
pub fn judge_day(trace: &[u32], day: u32) -> Result<Pair, Refusal>
    ensures { found_of result ≡ day_reply trace.now day }
{
    if !is_sound_trace(trace) {
        return Err(Refusal::Trace);
    }
    if trace[0] <= day {
        return Err(Refusal::Day);
    }
    Ok(pair_at(trace, day as usize))
}

// The words of a day, uncopied: a part of the caller's trace. It is empty where `judge_day` refuses.
pub fn find_day(trace: &[u32], day: u32) -> &[u32]
    ensures { result.now ≡ found_day trace.now day }
{
    match judge_day(trace, day) {
        Ok(pair) => day_at(trace, pair),
        Err(_) => &trace[..0],
    }
}
