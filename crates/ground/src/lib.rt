// The ground of a sum: the level used, F of the next finer level, the limit of error (SPECIFICATION 20). No word of the book is written.
#![tactic(auto)]

ghost use Rattle.std.specs.Prelude.{◌≡◌, ◌≤◌, ◌<◌, length};
ghost use Rattle.model.specs.Words.{decode_half, decode_block};
ghost use Rattle.model.specs.Ground.{error_limit, finer_than, ground_of, ground_reply, ground_values, ground};
ghost use Rattle.laws.specs.Proper.{Whole};
ghost use Rattle.block.specs.Steps.{LevelIn};

use block::{finest, level_at, window_sum};
use book::{Opened, block_at};
use judge::judge_query;
use model::{Finer, Ground, Refusal};
use shape::Shape;
use stamp::{interval, offset, opening, parity};

// The limit of error of a level.
fn error_limit(k: u8, level: u8) -> u64
    requires { (k ≤ 20) × (level ≤ 24) }
    ensures { result ≡ error_limit k level }
{
    if level == 0 {
        return 0;
    }
    (1u64 << level) * (u64::from(k) + 1)
}

// What stands for F of the next finer level, in the half of a parity.
fn finer_than(block: &[u32], s: Shape, parity: u8, level: u8) -> Finer
    requires { LevelIn s parity level block.now }
    ensures { result ≡ finer_than (decode_half s parity block.now).levels level }
{
    if level == 0 {
        return Finer::LevelZero;
    }
    let words = level_at(block, s, parity, level - 1);
    Finer::First(words[1])
}

// The ground of a window above 0: level and F are those of the half in which the window opens.
fn opened_ground(block: &[u32], opened: Opened, window: u32) -> Ground
    requires { Whole opened.shape block.now × (0 < window) }
    ensures { result ≡ ground_of opened.shape opened.clock window (decode_block opened.shape block.now) }
{
    let s = opened.shape;
    let start = opening(opened.clock, window);
    let parity = parity(interval(s, start));
    let level = finest(block, s, parity, offset(s, start));
    let sum = window_sum(block, s, opened.clock, window);
    let limit = error_limit(s.k, level);
    let finer = finer_than(block, s, parity, level);
    Ground {
        sum,
        level,
        limit,
        finer,
    }
}

// The ground of a window. Window 0 covers no stamp, so nothing is read.
fn block_ground(block: &[u32], opened: Opened, window: u32) -> Ground
    requires { Whole opened.shape block.now }
    ensures { result ≡ ground_of opened.shape opened.clock window (decode_block opened.shape block.now) }
{
    if window == 0 {
        return Ground {
            sum: 0,
            level: 0,
            limit: 0,
            finer: Finer::WindowZero,
        };
    }
    opened_ground(block, opened, window)
}

// Refused as a question is. Only the block of the grade is handed on.
pub fn ground(book: &[u32], grade: u32, window: u32) -> Result<Ground, Refusal>
    ensures { ground_reply result ≡ ground book.now grade window }
{
    let opened = judge_query(book, grade, window)?;
    let words = block_at(book, opened.shape, grade);
    let ground = block_ground(words, opened, window);
    Ok(ground)
}

// Writes the five values of a ground.
pub fn store(g: Ground, out: &mut [u64; 5])
    ensures { out.new ≡ ground_values g }
{
    let [case, first] = codes::finer_values(g.finer);
    *out = [g.sum, u64::from(g.level), g.limit, case, first];
}
