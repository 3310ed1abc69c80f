// The head of a book: its shape and its clock, or why the call is refused. SPECIFICATION 3.2 and 7.1.
ghost use Rattle.std.specs.Prelude.{◌≡◌, ◌≤◌, length};
ghost use Rattle.shape.specs.Layout.{head_len};
ghost use Rattle.book.specs.Judgement.{opened_of, judgement, opened_number};
ghost use Rattle.book.specs.Head.{Shaped, is_blank};

use model::{MAX_CLOCK, Refusal};
use shape::{HEAD_LEN, Shape};

// What opening a book, or judging a call, gives: the shape and the clock of the book.
#[derive(Clone, Copy)]
pub struct Opened {
    pub shape: Shape,
    pub clock: u32,
}

// Whether the last three words of the head are zero.
fn is_blank(book: &[u32]) -> bool
    requires { head_len ≤ length book.now }
    ensures { result ≡ is_blank book.now }
{
    (book[5] == 0) & (book[6] == 0) & (book[7] == 0)
}

// A book of this shape: tests its clock, the last words of its head and its length.
fn with_shape(book: &[u32], shape: Shape) -> Result<Opened, Refusal>
    requires { Shaped book.now shape }
    ensures { opened_of result ≡ judgement (opened_number book.now) book.now }
{
    let clock = book[4];
    let blank = is_blank(book);
    let whole = book.len() == shape.book_len();
    if MAX_CLOCK < clock {
        return Err(Refusal::Head);
    }
    if !blank {
        Err(Refusal::Head)
    } else if !whole {
        Err(Refusal::Length)
    } else {
        Ok(Opened { shape, clock })
    }
}

// Opens words of any length and content.
pub fn open(book: &[u32]) -> Result<Opened, Refusal>
    ensures { opened_of result ≡ judgement (opened_number book.now) book.now }
{
    if book.len() < HEAD_LEN {
        return Err(Refusal::Length);
    }
    let shape = Shape::new(book[0], book[1], book[2], book[3]).ok_or(Refusal::Head)?;
    with_shape(book, shape)
}
