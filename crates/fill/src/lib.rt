// A delivery into one block: each level of the stamp's half is handed on as a part of the block.
#![tactic(auto)]

ghost use Rattle.std.specs.Prelude.{◌≡◌, ◌≤◌};
ghost use Rattle.model.specs.Level.{insert, insert_splits};
ghost use Rattle.model.specs.Block.{deliver, deliver_splits};
ghost use Rattle.model.specs.Words.{level_part, decode_level, encode_level, decode_block, encode_block};
ghost use Rattle.laws.specs.BlockWrites.{with_level};
ghost use Rattle.laws.specs.Proper.{Insertable};
ghost use Rattle.block.specs.Steps.{LevelIn};
ghost use Rattle.fill.specs.Fill.{Deliverable, Fills};

use shape::Shape;

// Inserts into one level, in its place in the block. Returns the number of splits.
fn insert_at(block: &mut [u32], s: Shape, parity: u8, i: u8, x: u32, v: u64) -> u32
    requires { LevelIn s parity i block.old × Insertable s i x v (level_part s parity i block.old) }
    ensures words { block.new ≡ with_level s parity i (encode_level s.n (insert s.n i x v (decode_level (level_part s parity i block.old)))) block.old }
    ensures count { result ≡ insert_splits s.n i x v (decode_level (level_part s parity i block.old)) }
    ensures most { result ≤ s.k }
{
    let a = s.level_start(parity, i);
    let e = a + s.level_len();
    insert::insert(&mut block[a..e], s, i, x, v)
}

// Raises the total of the half and inserts into each of its levels. Returns the number of splits over all of them. Its numbers stay apart, as
// `deliver` and `insert` of the definitions have them.
fn fill(block: &mut [u32], s: Shape, stamp: u32, parity: u8, x: u32, v: u64) -> u32
    requires { Fills s stamp parity x v block.old }
    ensures words { block.new ≡ encode_block s (deliver s stamp v (decode_block s block.old)) }
    ensures count { result ≡ deliver_splits s stamp v (decode_block s block.old) }
{
    let at = parity as usize;
    let total = u64::from(block[at]) + v;
    block[at] = total as u32;
    let mut splits: u32 = 0;
    for i in 0..=s.last {
        splits += insert_at(block, s, parity, i, x, v);
    }
    splits
}

// A delivery into a block whose half for the stamp has room. Returns the number of splits.
pub fn deliver_block(block: &mut [u32], s: Shape, stamp: u32, v: u32) -> u32
    requires { Deliverable s stamp v block.old }
    ensures words { block.new ≡ encode_block s (deliver s stamp v (decode_block s block.old)) }
    ensures count { result ≡ deliver_splits s stamp v (decode_block s block.old) }
{
    let parity = stamp::parity(stamp::interval(s, stamp));
    let x = stamp::offset(s, stamp);
    fill(block, s, stamp, parity, x, u64::from(v))
}
