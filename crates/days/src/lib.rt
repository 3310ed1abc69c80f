// Reading a trace: the pair of a day, the words of a day, its records, and a record as a call (SPECIFICATION 16.1 and 16.2).
#![tactic(auto)]

ghost use Rattle.std.specs.Prelude.{◌≡◌, ◌+◌, ◌*◌, ◌≤◌, eqb, length, take, drop};
ghost use Rattle.model.specs.Trace.{record_words, delivery_kind, query_kind, record_at, sound_record, call_of, sound_day, pair_start};
ghost use Rattle.model.specs.Merge.{is_clock};
ghost use Rattle.days.specs.Kind.{kind_of};
ghost use Rattle.days.specs.Pair.{pair_at};

use model::{CLOCK_KIND, Call, DELIVERY_KIND, QUERY_KIND, RECORD_WORDS, Record};

// Where a day starts in the trace, and how many words it has.
#[derive(Clone, Copy)]
pub struct Pair {
    pub start: u32,
    pub length: u32,
}

pub fn pair_at(trace: &[u32], j: usize) -> Pair
    requires { pair_start (j + 1) ≤ length trace.now }
    ensures { result ≡ pair_at trace.now j }
{
    let at = 1 + 2 * j;
    Pair {
        start: trace[at],
        length: trace[at + 1],
    }
}

// The words of a day: a part of the trace.
pub fn day_at(trace: &[u32], pair: Pair) -> &[u32]
    requires { pair.start + pair.length ≤ length trace.now }
    ensures { result.now ≡ take pair.length (drop pair.start trace.now) }
{
    let start = pair.start as usize;
    let end = start + pair.length as usize;
    &trace[start..end]
}

// By the number of the record, as the definitions have it. No `From` the four words: it would have to stand in `model`, which has no function.
pub fn record_at(day: &[u32], i: usize) -> Record
    requires { record_words * (i + 1) ≤ length day.now }
    ensures { result ≡ record_at day.now i }
{
    let at = RECORD_WORDS * i;
    Record {
        kind: day[at],
        first: day[at + 1],
        second: day[at + 2],
        third: day[at + 3],
    }
}

// The kinds of record: that of a clock, of a delivery and of a question.
#[derive(Clone, Copy, PartialEq, Eq)]
pub enum Kind {
    Clock,
    Delivery,
    Query,
}

// The kind that a record's first word names, if it names one.
pub fn kind_of(word: u32) -> Option<Kind>
    ensures { result ≡ kind_of word }
{
    match word {
        CLOCK_KIND => Some(Kind::Clock),
        DELIVERY_KIND => Some(Kind::Delivery),
        QUERY_KIND => Some(Kind::Query),
        _ => None,
    }
}

// A record of no kind is never played: whatever call it gives, its trace is unsound.
pub fn call_of(it: Record) -> Call
    ensures { result ≡ call_of it }
{
    match kind_of(it.kind).unwrap_or(Kind::Query) {
        Kind::Clock => Call::Clock { clock: it.first },
        Kind::Delivery => Call::Delivery {
            grade: it.first,
            stamp: it.second,
            volume: it.third,
        },
        Kind::Query => Call::Query {
            grade: it.first,
            window: it.second,
        },
    }
}

// Whether a record is a clock, and below whether it is a delivery or a question. They are three functions, since only so does the compiler make
// one test of each. It makes three tests of a match on the kind, the deliveries' not the first, and where one function takes the kind, a day of
// deliveries is found no sooner: in half as much time again with either.
pub fn is_clock(it: Record) -> bool
    ensures { result ≡ is_clock it }
{
    kind_of(it.kind) == Some(Kind::Clock)
}

fn is_delivery(it: Record) -> bool
    ensures { result ≡ eqb it.kind delivery_kind }
{
    kind_of(it.kind) == Some(Kind::Delivery)
}

fn is_query(it: Record) -> bool
    ensures { result ≡ eqb it.kind query_kind }
{
    kind_of(it.kind) == Some(Kind::Query)
}

// Whether a record has one of the kinds, and zero where its call has no number. One test for all that is no delivery was tried: it is faster where
// kinds stand in any order, but a day of clocks alone took half as much time again.
fn is_sound_record(it: Record) -> bool
    ensures { result ≡ sound_record it }
{
    if is_clock(it) {
        return (it.second == 0) & (it.third == 0);
    }
    is_delivery(it) || is_query(it) & (it.third == 0)
}

// Whether the words are whole records, each sound.
pub fn is_sound_day(day: &[u32]) -> bool
    ensures { result ≡ sound_day day.now }
{
    if day.len() % RECORD_WORDS != 0 {
        return false;
    }
    (0..day.len() / RECORD_WORDS).all(|i| is_sound_record(record_at(day, i)))
}
