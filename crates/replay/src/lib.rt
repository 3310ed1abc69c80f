// A day of a trace replayed on a book: each record's call, and its answer in two words (SPECIFICATION 17).
#![tactic(auto)]

ghost use Rattle.std.specs.Prelude.{◌≡◌, map, ◌+◌, ◌*◌, ◌^◌, ◌≤◌, ◌<◌, length, get_or, set};
ghost use Rattle.model.specs.Reply.{reply_of, done_reply};
ghost use Rattle.model.specs.Calls.{perform};
ghost use Rattle.model.specs.Trace.{records_of, call_of};
ghost use Rattle.model.specs.Replay.{answer_words, left_by, replies_to, with_answers, replay};
ghost use Rattle.replay.specs.Part.{replay_part};

use days::{call_of, day_at, record_at};
use model::{ANSWER_WORDS, Answer, RECORD_WORDS, Record, Refusal};
use trace::judge_day;

// The sum of an answered question, else 0. All cases are named, so that a new one is not overlooked.
fn answer_sum(answer: Result<Answer, Refusal>) -> u32
    requires { get_or (reply_of answer).values 0 0 < 2 ^ 32 }
    ensures { result ≡ get_or (reply_of answer).values 0 0 }
{
    match answer {
        Ok(Answer::Sum(sum)) => sum as u32,
        Ok(Answer::Done) => 0,
        Ok(Answer::Splits(_)) => 0,
        Err(_) => 0,
    }
}

// The call of one record, and its answer from word `to` on.
fn play(book: &mut [u32], it: Record, answers: &mut [u32], to: usize)
    requires { to + answer_words ≤ length answers.old }
    ensures left { book.new ≡ (perform book.old (call_of it)).left }
    ensures told { answers.new ≡ set (set answers.old to (perform book.old (call_of it)).reply.number) (to + 1) (get_or (perform book.old (call_of it)).reply.values 0 0) }
{
    let answer = summary::perform(book, call_of(it));
    answers[to] = codes::answer_number(answer);
    answers[to + 1] = answer_sum(answer);
}

// The records of a day, one after another.
fn play_day(book: &mut [u32], day: &[u32], answers: &mut [u32])
    requires { answer_words * length (records_of day.now) ≤ length answers.old }
    ensures left { book.new ≡ left_by book.old (map call_of (records_of day.now)) }
    ensures told { answers.new ≡ with_answers (replies_to book.old (map call_of (records_of day.now))) answers.old }
{
    for i in 0..day.len() / RECORD_WORDS {
        play(book, record_at(day, i), answers, ANSWER_WORDS * i);
    }
}

// A day that was found, if there is room for its answers.
fn replay_part(book: &mut [u32], day: &[u32], answers: &mut [u32]) -> Result<(), Refusal>
    ensures { record { reply = done_reply result; book = book.new; answers = answers.new } ≡ replay_part book.old day.now answers.old }
{
    if answers.len() < ANSWER_WORDS * (day.len() / RECORD_WORDS) {
        return Err(Refusal::Room);
    }
    play_day(book, day, answers);
    Ok(())
}

// A day of a trace: on any words, any trace and any number of answer words. A refused replay changes no word.
pub fn replay(book: &mut [u32], trace: &[u32], day: u32, answers: &mut [u32]) -> Result<(), Refusal>
    ensures { record { reply = done_reply result; book = book.new; answers = answers.new } ≡ replay book.old trace.now day answers.old }
{
    let pair = judge_day(trace, day)?;
    replay_part(book, day_at(trace, pair), answers)
}
