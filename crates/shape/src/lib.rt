// The shape of a book: its limits, and how many words its parts take.
#![tactic(auto)]

ghost use Rattle.std.specs.Prelude.{◌≡◌};
ghost use Rattle.shape.specs.Layout.{book_words, block_words, block_start, level_words, level_start};
ghost use Rattle.shape.specs.Limits.{between, reply_of, checked};

// The words of the book's head.
pub const HEAD_LEN: usize = 8;

// The words of a block before its levels: the totals of its two halves.
pub const BLOCK_HEAD_LEN: usize = 2;

// The words of a level before its slots: its count and its first kept offset.
pub const LEVEL_HEAD_LEN: usize = 2;

// The words of a slot.
pub const SLOT_LEN: usize = 3;

// The shape of a book: SPECIFICATION 2.2. Only what `Shape::new` gives is held to the limits, and only that has the lengths of SPECIFICATION
// 3.6. Every method is defined on any fields, and definitions speak of shapes outside the limits (`shape_of`). So the limits are no invariant of
// the type, and what needs k, n or a level within them says so.
#[derive(Clone, Copy)]
pub struct Shape {
    // An interval is 2 ^ k ticks.
    pub k: u8,
    // The buckets that a level has room for.
    pub n: u16,
    // M in the customer's paper: levels run from 0 to m, and a half takes at most 2 ^ m decilitres.
    pub m: u8,
    // The number of grades.
    pub g: u8,
    // The coarsest level that the book keeps.
    pub last: u8,
}

// Whether a number lies between two limits, both included.
fn is_between(low: u32, x: u32, high: u32) -> bool
    ensures { result ≡ between low x high }
{
    (low..=high).contains(&x)
}

impl Shape {
    pub const K_MIN: u32 = 2;

    pub const K_MAX: u32 = 20;

    pub const N_MIN: u32 = 2;

    pub const N_MAX: u32 = 1024;

    pub const M_MIN: u32 = 1;

    pub const M_MAX: u32 = 24;

    pub const G_MIN: u32 = 1;

    pub const G_MAX: u32 = 8;

    // The shape of these numbers, or none if one is outside its limits.
    pub fn new(k: u32, n: u32, m: u32, g: u32) -> Option<Shape>
        ensures { reply_of result ≡ checked k n m g }
    {
        if !is_between(Self::K_MIN, k, Self::K_MAX) {
            return None;
        }
        if !is_between(Self::N_MIN, n, Self::N_MAX) {
            return None;
        }
        if !is_between(Self::M_MIN, m, Self::M_MAX) {
            return None;
        }
        if !is_between(Self::G_MIN, g, Self::G_MAX) {
            return None;
        }
        Some(Shape {
            k: k as u8,
            n: n as u16,
            m: m as u8,
            g: g as u8,
            last: m as u8,
        })
    }

    // The words of one level: SPECIFICATION 3.6, as for the methods below.
    pub fn level_len(self) -> usize
        ensures { result ≡ level_words self }
    {
        LEVEL_HEAD_LEN + SLOT_LEN * (self.n as usize)
    }

    // The words of one grade's block.
    pub fn block_len(self) -> usize
        ensures { result ≡ block_words self }
    {
        BLOCK_HEAD_LEN + 2 * (self.last as usize + 1) * self.level_len()
    }

    // The words of the whole book.
    pub fn book_len(self) -> usize
        ensures { result ≡ book_words self }
    {
        HEAD_LEN + (self.g as usize) * self.block_len()
    }

    // Where a grade's block starts in the book.
    pub fn block_start(self, grade: u32) -> usize
        ensures { result ≡ block_start self grade }
    {
        HEAD_LEN + (grade as usize) * self.block_len()
    }

    // Where a level starts in the block, in the half of this parity.
    pub fn level_start(self, parity: u8, level: u8) -> usize
        ensures { result ≡ level_start self parity level }
    {
        BLOCK_HEAD_LEN
            + ((parity as usize) * (self.last as usize + 1) + (level as usize)) * self.level_len()
    }
}
