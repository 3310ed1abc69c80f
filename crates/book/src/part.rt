// The blocks of a book, each handed on as a part of it.
ghost use Rattle.std.specs.Prelude.{◌≡◌, ◌+◌, ◌^◌, ltb, length};
ghost use Rattle.shape.specs.Layout.{book_words};
ghost use Rattle.model.specs.Block.{interval, half_of};
ghost use Rattle.model.specs.Words.{block_part, decode_block};
ghost use Rattle.model.specs.Sound.{all_from, sound_block};
ghost use Rattle.laws.specs.Proper.{Proper};
ghost use Rattle.book.specs.Part.{InBook};

use shape::Shape;

// The book, the shape and the grade stay three parameters: `sweep` and `summary` write the same words, so a type that holds them would be needed
// twice, shared and exclusive.

// The words of a grade's block, as a part of the book: shared here, exclusive in `sweep` and `summary`. One function is not generic over that.
#[tactic(auto, using(crate::specs::Part::block_within))]
pub fn block_at(book: &[u32], s: Shape, grade: u32) -> &[u32]
    requires { InBook s grade book.now }
    ensures { result.now ≡ block_part s grade book.now }
{
    let a = s.block_start(grade);
    let e = a + s.block_len();
    &book[a..e]
}

// Whether the block of a grade is sound.
#[tactic(auto, using(crate::specs::Part::part_length))]
pub fn block_sound(book: &[u32], s: Shape, grade: u32) -> bool
    requires { InBook s grade book.now }
    ensures { result ≡ sound_block s (block_part s grade book.now) }
{
    block::check(block_at(book, s, grade), s)
}

// Whether a grade's half for the interval of a stamp has no room for a volume.
#[tactic(auto, using(crate::specs::Part::part_length))]
pub fn block_full(book: &[u32], s: Shape, grade: u32, stamp: u32, volume: u32) -> bool
    requires { InBook s grade book.now }
    ensures { result ≡ ltb (2 ^ s.m) ((half_of (interval s stamp) (decode_block s (block_part s grade book.now))).total + volume) }
{
    block::is_full(block_at(book, s, grade), s, stamp, volume)
}

// Whether every block is sound.
pub fn all_sound(book: &[u32], s: Shape) -> bool
    requires { (length book.now ≡ book_words s) × Proper s }
    ensures { result ≡ all_from (λ grade. sound_block s (block_part s grade book.now)) 0 s.g }
{
    (0..u32::from(s.g)).all(|grade| block_sound(book, s, grade))
}
