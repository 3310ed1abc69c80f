// The calls for programs in C and Rust: SPECIFICATION 12. A slice is a pointer and a length for them. Each call but `litres_words` returns 0
// or the number of the refusal.
#![tactic(auto)]

ghost use Rattle.std.specs.Prelude.{◌≡◌, cond};
ghost use Rattle.shape.specs.Limits.{within, shaped, number_only};
ghost use Rattle.shape.specs.Layout.{book_words};
ghost use Rattle.model.specs.declared.Call.TheVariants as Call;
ghost use Rattle.model.specs.Calls.{perform};
ghost use Rattle.model.specs.Trace.{day_reply};
ghost use Rattle.model.specs.Replay.{replay};
ghost use Rattle.model.specs.Merge.{Merges};
ghost use Rattle.model.specs.Ground.{ground};
ghost use Rattle.capi.specs.Told.{code_of, delivery_of, sum_of, ground_told, place_of, replay_of};

use shape::Shape;

// How many words a book of this shape needs; 0 if the shape is outside its limits.
#[unsafe(no_mangle)]
pub extern "C" fn litres_words(k: u32, n: u32, m: u32, g: u32) -> usize
    ensures { result ≡ cond (within k n m g) (book_words (shaped k n m g)) 0 }
{
    Shape::new(k, n, m, g).map_or(0, Shape::book_len)
}

#[unsafe(no_mangle)]
pub extern "C" fn litres_make(book: &mut [u32], k: u32, n: u32, m: u32, g: u32) -> u32
    ensures { (result, book.new) ≡ code_of (perform book.old (Call.Make k n m g)) }
{
    codes::answer_number(summary::make(book, k, n, m, g))
}

#[unsafe(no_mangle)]
pub extern "C" fn litres_clock(book: &mut [u32], clock: u32) -> u32
    ensures { (result, book.new) ≡ code_of (perform book.old (Call.Clock clock)) }
{
    codes::answer_number(summary::clock(book, clock))
}

// `halvings` is always written: the number of splits, 0 if the delivery is refused.
#[unsafe(no_mangle)]
pub extern "C" fn litres_delivery(
    book: &mut [u32],
    grade: u32,
    stamp: u32,
    volume: u32,
    halvings: &mut u32,
) -> u32
    ensures { (result, book.new, halvings.new) ≡ delivery_of (perform book.old (Call.Delivery grade stamp volume)) }
{
    let answer = summary::delivery(book, grade, stamp, volume);
    *halvings = answer.unwrap_or(0);
    codes::answer_number(answer)
}

// `sum` is written only if the question is answered.
#[unsafe(no_mangle)]
pub extern "C" fn litres_query(book: &[u32], grade: u32, window: u32, sum: &mut u64) -> u32
    ensures { (result, sum.new) ≡ sum_of (perform book.now (Call.Query grade window)).reply sum.old }
{
    match summary::query(book, grade, window) {
        Ok(total) => {
            *sum = total;
            0
        }
        Err(why) => codes::number(why),
    }
}

// `values` are written only if the ground is given: sum, level, limit, which case, and F or 0.
#[unsafe(no_mangle)]
pub extern "C" fn litres_ground(book: &[u32], grade: u32, window: u32, values: &mut [u64; 5]) -> u32
    ensures { (result, values.new) ≡ ground_told (ground book.now grade window) values.old }
{
    match ground::ground(book, grade, window) {
        Ok(g) => {
            ground::store(g, values);
            0
        }
        Err(why) => codes::number(why),
    }
}

// Where the day starts in the trace, and how many words it has; both 0 if it is refused.
#[unsafe(no_mangle)]
pub extern "C" fn litres_day(trace: &[u32], day: u32, start: &mut usize, length: &mut usize) -> u32
    ensures { (result, start.new, length.new) ≡ place_of (day_reply trace.now day) }
{
    match trace::judge_day(trace, day) {
        Ok(pair) => {
            *start = pair.start as usize;
            *length = pair.length as usize;
            0
        }
        Err(why) => {
            *start = 0;
            *length = 0;
            codes::number(why)
        }
    }
}

// `book` and `answers` are written only if the replay is accepted.
#[unsafe(no_mangle)]
pub extern "C" fn litres_replay(
    book: &mut [u32],
    trace: &[u32],
    day: u32,
    answers: &mut [u32],
) -> u32
    ensures { (result, book.new, answers.new) ≡ replay_of (replay book.old trace.now day answers.old) }
{
    codes::answer_number(replay::replay(book, trace, day, answers))
}

// `out` is written only if the merge is accepted.
#[unsafe(no_mangle)]
pub extern "C" fn litres_merge(
    first: &[u32],
    i: u32,
    second: &[u32],
    j: u32,
    out: &mut [u32],
) -> u32
    ensures { Merges first.now i second.now j out.old (number_only result) out.new }
{
    codes::answer_number(merge::merge(first, i, second, j, out))
}
