// What a line does to the bench program's buffer (SPECIFICATION 11.2): how many words its call is lent, the call on them, and the answer.
#![tactic(auto)]

ghost use Rattle.std.specs.Prelude.{◌≡◌, ◌≤◌, length};
ghost use Rattle.model.specs.Reply.{reply_of};
ghost use Rattle.model.specs.Calls.{outcome_of};
ghost use Rattle.lent.specs.Lent.{lent_to_make, lent_to, lent_after, perform_on, after_line};
ghost use Rattle.lent.specs.Said.{after_of};

use model::{Answer, Call, Refusal};
use shape::Shape;

// The answer to a line, none if it is unread, and how many words are lent after it. That stays a number beside the whole buffer, since a later
// make may be lent more of it.
#[derive(Clone, Copy)]
pub struct Answered {
    pub said: Option<Result<Answer, Refusal>>,
    pub lent: usize,
}

fn lent_to_make(all: usize, k: u32, n: u32, m: u32, g: u32) -> usize
    ensures { result ≡ lent_to_make all k n m g }
{
    match Shape::new(k, n, m, g) {
        Some(shape) => shape.book_len().min(all),
        None => all,
    }
}

// How many words a call is lent.
fn lent_to(all: usize, lent: usize, call: Call) -> usize
    ensures { result ≡ lent_to all lent call }
{
    match call {
        Call::Make { k, n, m, g } => lent_to_make(all, k, n, m, g),
        Call::Clock { .. } | Call::Delivery { .. } | Call::Query { .. } => lent,
    }
}

// A call on the words that it is lent.
fn perform_on(book: &mut [u32], lent: usize, call: Call) -> Result<Answer, Refusal>
    requires { lent ≤ length book.old }
    ensures { outcome_of (reply_of result) book.new ≡ perform_on lent book.old call }
{
    summary::perform(&mut book[..lent], call)
}

// How many words are lent after a call that was lent `lent`. A refused call changes nothing.
#[tactic(auto, using(laws::specs::Refusals::number_of_pos), unfolding(model::specs::Reply::reply_by))]
fn lent_after(answer: Result<Answer, Refusal>, before: usize, lent: usize) -> usize
    ensures { result ≡ lent_after (reply_of answer) before lent }
{
    match answer {
        Ok(_) => lent,
        Err(_) => before,
    }
}

// A whole line: performs its call on the words that it is lent.
pub fn answer_line(book: &mut [u32], before: usize, parsed: Option<Call>) -> Answered
    requires { before ≤ length book.old }
    ensures book_after { after_of result book.new ≡ after_line book.old before parsed }
    ensures lent_in_bounds { result.lent ≤ length book.old }
{
    match parsed {
        Some(call) => {
            let all = book.len();
            let lent = lent_to(all, before, call);
            let answer = perform_on(book, lent, call);
            let after = lent_after(answer, before, lent);
            Answered {
                said: Some(answer),
                lent: after,
            }
        }
        None => Answered {
            said: None,
            lent: before,
        },
    }
}
