// What several crates do with words: a power of two, whether one test implies another, and the words of a slot.
#![tactic(auto)]

ghost use Rattle.std.specs.Prelude.{◌≡◌, ◌+◌, ◌*◌, ◌^◌, ◌<◌, ◌≤◌, length, drop, map};
ghost use Rattle.shape.specs.Layout.{slot_len, slot_start};
ghost use Rattle.model.specs.Words.{slot, slots};
ghost use Rattle.model.specs.Sound.{implies};
ghost use Rattle.words.specs.Slot.{content, front};

use shape::{LEVEL_HEAD_LEN, SLOT_LEN};

pub fn power(k: u8) -> u32
    requires { k ≤ 31 }
    ensures { result ≡ 2 ^ k }
{
    1 << k
}

// Whether b holds where a does.
pub fn implied(a: bool, b: bool) -> bool
    ensures { result ≡ implies a b }
{
    if a { b } else { true }
}

// The words of one slot.
#[derive(Clone, Copy)]
pub struct Slot {
    pub offset: u32,
    pub width: u32,
    pub weight: u32,
}

impl From<&[u32; SLOT_LEN]> for Slot {
    ghost from_gives = { λ ws r. content r ≡ front ws.now };

    fn from(words: &[u32; SLOT_LEN]) -> Slot {
        let [offset, width, weight] = *words;
        Slot {
            offset: offset,
            width: width,
            weight: weight,
        }
    }
}

// The words of the first `count` slots of a level, slot by slot.
pub fn slots(level: &[u32], count: usize) -> &[[u32; SLOT_LEN]]
    requires { slot_start count ≤ length level.now }
    ensures { (map front result.now ≡ slots level.now 0 count) × (length result.now ≡ count) }
{
    let (all, _) = level[LEVEL_HEAD_LEN..].as_chunks::<SLOT_LEN>();
    &all[..count]
}

pub fn slot_at(level: &[u32], j: usize) -> Slot
    requires { slot_start (j + 1) ≤ length level.now }
    ensures { content result ≡ slot level.now j }
{
    slot_from(level, LEVEL_HEAD_LEN + SLOT_LEN * j)
}

// The slot whose words start at `at`.
pub fn slot_from(rest: &[u32], at: usize) -> Slot
    requires { at + slot_len ≤ length rest.now }
    ensures { content result ≡ front (drop at rest.now) }
{
    Slot::from(&[rest[at], rest[at + 1], rest[at + 2]])
}
