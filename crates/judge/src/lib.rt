// Judging a call on a book: its refusals in the order of SPECIFICATION 6.3, before a word is written.
#![tactic(auto)]

mod admit;

ghost use Rattle.std.specs.Prelude.{◌≡◌};
ghost use Rattle.model.specs.declared.Call.TheVariants as Call;
ghost use Rattle.book.specs.Judgement.{opened_of, judgement, first_refusal};

use admit::judge_delivery_in;
use book::{Opened, all_sound, block_sound, open};
use model::{MAX_CLOCK, Refusal};

pub fn judge_clock(book: &[u32], to: u32) -> Result<Opened, Refusal>
    ensures { opened_of result ≡ judgement (first_refusal book.now (Call.Clock to)) book.now }
{
    let opened = open(book)?;
    let past = MAX_CLOCK < to;
    let back = to < opened.clock;
    if past {
        return Err(Refusal::Limit);
    }
    if back {
        return Err(Refusal::Back);
    }
    if !all_sound(book, opened.shape) {
        return Err(Refusal::Block);
    }
    Ok(opened)
}

pub fn judge_delivery(book: &[u32], grade: u32, stamp: u32, volume: u32) -> Result<Opened, Refusal>
    ensures { opened_of result ≡ judgement (first_refusal book.now (Call.Delivery grade stamp volume)) book.now }
{
    let opened = open(book)?;
    judge_delivery_in(book, opened, grade, stamp, volume)
}

pub fn judge_query(book: &[u32], grade: u32, window: u32) -> Result<Opened, Refusal>
    ensures { opened_of result ≡ judgement (first_refusal book.now (Call.Query grade window)) book.now }
{
    let opened = open(book)?;
    let widest = words::power(opened.shape.k);
    let known = grade < u32::from(opened.shape.g);
    let wide = widest < window;
    if !known {
        return Err(Refusal::Grade);
    }
    if wide {
        return Err(Refusal::Window);
    }
    if !block_sound(book, opened.shape, grade) {
        return Err(Refusal::Block);
    }
    Ok(opened)
}
