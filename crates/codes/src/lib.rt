// The number of a refusal (SPECIFICATION 6.2) and of an answer (5.1), and the values of what a ground says of the next finer level (20.2);
// used by `text`, `replay`, `ground` and `capi`.
#![tactic(auto)]

ghost use Rattle.std.specs.Prelude.{◌≡◌, []};
ghost use Rattle.shape.specs.Limits.{accepted};
ghost use Rattle.model.specs.Reply.{number_of, reply_by};
ghost use Rattle.model.specs.Ground.{finer_values};

use model::{Finer, Refusal};

// No `From`: it would have to stand in `model`, which has no function.
pub fn number(why: Refusal) -> u32
    ensures { result ≡ number_of why }
{
    why as u32
}

// 0 where the call is accepted, whatever it says then.
pub fn answer_number<T: Drop>(answer: Result<T, Refusal>) -> u32
    ensures { result ≡ (reply_by (λ (_ : T). accepted []) answer).number }
{
    match answer {
        Ok(_) => 0,
        Err(why) => number(why),
    }
}

// What C is told of F of the next finer level: which case it is, and F, or 0 in the other cases.
pub fn finer_values(finer: Finer) -> [u64; 2]
    ensures { result ≡ finer_values finer }
{
    match finer {
        Finer::WindowZero => [0, 0],
        Finer::LevelZero => [1, 0],
        Finer::First(first) => [2, u64::from(first)],
    }
}
