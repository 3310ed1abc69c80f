// A call with its numbers, which may be any; why a call, finding a day, a replay or a merge is refused (SPECIFICATION 6.2, with its
// number); the answer to an accepted call; the ground of a sum (SPECIFICATION 20); and a record of a trace (SPECIFICATION 16.2).
#![tactic(auto)]

// The numbers of a call stay apart, here and where functions take them: the calls from C have them one by one, and so has every definition.
#[derive(Clone, Copy)]
pub enum Call {
    Make { k: u32, n: u32, m: u32, g: u32 },
    Clock { clock: u32 },
    Delivery { grade: u32, stamp: u32, volume: u32 },
    Query { grade: u32, window: u32 }, // The customer's question.
}

#[derive(Clone, Copy)]
pub enum Refusal {
    Shape = 1, // The shape is outside its limits.
    Length = 2, // The words are not as many as the shape needs.
    Grade = 3, // No such grade.
    Volume = 4, // The volume is outside its limits.
    Window = 5, // The window is longer than an interval.
    Limit = 6, // The new clock is above its limit.
    Head = 7, // The head is unsound.
    Ahead = 8, // The stamp is ahead of the clock.
    Late = 9, // The stamp is an interval or more behind the clock.
    Back = 10, // The new clock is below the clock.
    Block = 11, // A block is unsound.
    Full = 12, // The interval has no room for the volume.
    Trace = 13, // The trace is unsound: its layout, or a record of any of its days.
    Day = 14, // The trace has no such day.
    Room = 15, // The answers need more words.
    Order = 16, // A day to merge does not open with a clock, or its clocks fall or pass their limit.
    Output = 17, // The output is not as long as the two days together.
}

// What an accepted call answers.
#[derive(Clone, Copy)]
pub enum Answer {
    Done, // A make or a clock.
    Splits(u32), // A delivery: how many buckets it split.
    Sum(u64), // A question.
}

// F of the next finer level, or why it is not told. No Result: window 0 and level 0 are answers, with numbers of their own for C, and no failures.
#[derive(Clone, Copy)]
pub enum Finer {
    WindowZero, // The window is 0, so no level was read.
    LevelZero, // Level 0 was used for another window; no level is finer.
    First(u32), // F of the next finer level.
}

// The ground of a sum: the sum, the level used, the limit of error, and F of the next finer level.
#[derive(Clone, Copy)]
pub struct Ground {
    pub sum: u64,
    pub level: u8,
    pub limit: u64,
    pub finer: Finer,
}

// A record's kind and its call's numbers; the rest is zero. The kind stays a word, since a record is read from any words, and 13 refuses what is
// no kind.
#[derive(Clone, Copy)]
pub struct Record {
    pub kind: u32,
    pub first: u32,
    pub second: u32,
    pub third: u32,
}

// The largest clock.
pub const MAX_CLOCK: u32 = 2000000000;

// The most days of a trace.
pub const MAX_DAYS: usize = 64;

// The words of a record, and those of its answer.
pub const RECORD_WORDS: usize = 4;

pub const ANSWER_WORDS: usize = 2;

// The kinds of record.
pub const CLOCK_KIND: u32 = 1;

pub const DELIVERY_KIND: u32 = 2;

pub const QUERY_KIND: u32 = 3;
