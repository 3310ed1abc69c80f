// Judging a delivery on a book whose head is sound: the refusals that are left, in the order of SPECIFICATION 6.3.
ghost use Rattle.std.specs.Prelude.{◌||◌, ◌≡◌, ltb, eqb};
ghost use Rattle.model.specs.declared.Call.TheVariants as Call;
ghost use Rattle.book.specs.Judgement.{opened_of, judgement, first_refusal};
ghost use Rattle.judge.specs.Judge.{Open, Due};

use book::{Opened, block_full, block_sound};
use model::Refusal;

// The largest volume.
const MAX_VOLUME: u32 = 65535;

// Whether a volume is outside its limits.
fn is_outside(volume: u32) -> bool
    ensures { result ≡ (eqb volume 0 || ltb 65535 volume) }
{
    (volume == 0) | (MAX_VOLUME < volume)
}

// 11 and 12, by the words of the named block.
fn judge_room(
    book: &[u32],
    opened: Opened,
    grade: u32,
    stamp: u32,
    volume: u32,
) -> Result<Opened, Refusal>
    requires { Due book.now opened.shape opened.clock grade stamp volume }
    ensures { opened_of result ≡ judgement (first_refusal book.now (Call.Delivery grade stamp volume)) book.now }
{
    let sound = block_sound(book, opened.shape, grade);
    let full = block_full(book, opened.shape, grade, stamp, volume);
    if !sound {
        return Err(Refusal::Block);
    }
    if full {
        return Err(Refusal::Full);
    }
    Ok(opened)
}

// 3, 4, 8 and 9, by the numbers alone. Only then is the block read.
pub fn judge_delivery_in(
    book: &[u32],
    opened: Opened,
    grade: u32,
    stamp: u32,
    volume: u32,
) -> Result<Opened, Refusal>
    requires { Open book.now opened.shape opened.clock }
    ensures { opened_of result ≡ judgement (first_refusal book.now (Call.Delivery grade stamp volume)) book.now }
{
    let known = grade < u32::from(opened.shape.g);
    let outside = is_outside(volume);
    if !known {
        return Err(Refusal::Grade);
    }
    if outside {
        return Err(Refusal::Volume);
    }
    if opened.clock < stamp {
        return Err(Refusal::Ahead);
    }
    if stamp + words::power(opened.shape.k) <= opened.clock {
        return Err(Refusal::Late);
    }
    judge_room(book, opened, grade, stamp, volume)
}
