// Whether the words of one level are sound: SPECIFICATION 7.3.
#![tactic(auto)]

ghost use Rattle.std.specs.Prelude.{◌≡◌, ◌&&◌, ◌≤◌, eqb, length, drop, fold};
ghost use Rattle.std.specs.Int.Bits.{bit_or};
ghost use Rattle.shape.specs.Layout.{level_words};
ghost use Rattle.model.specs.Sound.{zeros, sound_level};

use quick::sound_buckets;
use shape::{LEVEL_HEAD_LEN, SLOT_LEN, Shape};
use words::implied;

// The joined bits of the words of a, b and c and of as many words of d. With four streams at once the compiler takes eight vectors a turn.
fn joined(a: &[u32], b: &[u32], c: &[u32], d: &[u32]) -> u32
    requires { (length b.now ≡ length a.now) × (length c.now ≡ length a.now) × (length a.now ≤ length d.now) }
    ensures { (eqb result 0 && zeros (drop (length a.now) d.now))
        ≡ ((zeros a.now && zeros b.now) && (zeros c.now && zeros d.now)) }
{
    let mut all: u32 = 0;
    for at in 0..a.len() {
        all = all | a[at] | b[at] | c[at] | d[at];
    }
    all
}

// The joined bits of the words from `from` on.
fn bits_from(level: &[u32], from: usize) -> u32
    requires { from ≤ length level.now }
    ensures { result ≡ fold bit_or 0 (drop from level.now) }
{
    level[from..].iter().fold(0, |all, word| all | *word)
}

// Whether all words from `from` on are zero. Their bits are joined and tested once. After four parts of equal length at most three words are
// left.
fn is_zero(level: &[u32], from: usize) -> bool
    ensures { result ≡ zeros (drop from level.now) }
{
    let len = level.len();
    if len <= from {
        return true;
    }
    let part = (len - from) / 4;
    let two = from + part;
    let three = two + part;
    let four = three + part;
    let all = joined(
        &level[from..two],
        &level[two..three],
        &level[three..four],
        &level[four..],
    );
    all | bits_from(level, four + part) == 0
}

// Whether the words of level i are sound in a half of this total. The words may be any.
pub fn sound_level(level: &[u32], s: Shape, i: u8, total: u64) -> bool
    requires { (length level.now ≡ level_words s) × (s.n ≤ 1024) × (s.k ≤ 20) × (i ≤ 24) }
    ensures { result ≡ sound_level s i total level.now }
{
    let count = level[0] as usize;
    let first = level[1];
    let n = s.n as usize;
    if n < count {
        return false;
    }
    let unused = is_zero(level, LEVEL_HEAD_LEN + SLOT_LEN * count);
    let right = sound_buckets(level, count, s.k, i, total);
    unused & right & implied(0 < first, count == n)
}
