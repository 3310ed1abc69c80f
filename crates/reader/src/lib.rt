// Reading a line of the bench program (SPECIFICATION 11.3): one more byte, and the call that a letter and its numbers make.
#![tactic(auto)]

ghost use Rattle.std.specs.Prelude.{◌≡◌, ◌∷◌, [], ◌++◌};
ghost use Rattle.grammar.specs.Grammar.{called, reading_of};
ghost use Rattle.grammar.specs.Machine.{numbers_of, spaced, grown, moved};

use grammar::{Numbers, State};
use model::Call;

const SPACE: u8 = b' ';

// A space after a number. No call has more than four numbers. The letter, the numbers and the value stand apart here and below, as the match
// on `State` leaves them: a struct around them would be no plainer.
fn space(letter: u8, kept: Numbers, value: u32) -> State
    ensures { result ≡ spaced letter kept value }
{
    match kept {
        Numbers::None => State::Space(letter, Numbers::One(value)),
        Numbers::One(a) => State::Space(letter, Numbers::Two(a, value)),
        Numbers::Two(a, b) => State::Space(letter, Numbers::Three(a, b, value)),
        Numbers::Three(_, _, _) => State::Broken,
    }
}

// One more digit of a number.
fn grow(letter: u8, kept: Numbers, value: u32, byte: u8) -> State
    ensures { result ≡ grown letter kept value byte }
{
    if !byte.is_ascii_digit() || value == 0 {
        return State::Broken;
    }
    match u32::try_from(10 * u64::from(value) + u64::from(byte - b'0')) {
        Ok(next) => State::Number(letter, kept, next),
        Err(_) => State::Broken,
    }
}

pub fn advance(state: State, byte: u8) -> State
    ensures { result ≡ moved state byte }
{
    match state {
        State::Start => {
            if byte == SPACE {
                State::Broken
            } else {
                State::Letter(byte)
            }
        }
        State::Letter(letter) => {
            if byte == SPACE {
                State::Space(letter, Numbers::None)
            } else {
                State::Broken
            }
        }
        State::Space(letter, kept) => {
            if byte.is_ascii_digit() {
                State::Number(letter, kept, u32::from(byte - b'0'))
            } else {
                State::Broken
            }
        }
        State::Number(letter, kept, value) => {
            if byte == SPACE {
                space(letter, kept, value)
            } else {
                grow(letter, kept, value, byte)
            }
        }
        State::Broken => State::Broken,
    }
}

// The call that a letter and its numbers make.
#[tactic(auto, unfolding(grammar::specs::Grammar::reading_of))]
pub fn call(letter: u8, kept: Numbers, last: u32) -> Option<Call>
    ensures { reading_of result ≡ called letter (numbers_of kept ++ last ∷ []) }
{
    match (letter, kept) {
        (b'c', Numbers::None) => Some(Call::Clock { clock: last }),
        (b'q', Numbers::One(grade)) => Some(Call::Query {
            grade,
            window: last,
        }),
        (b'd', Numbers::Two(grade, stamp)) => Some(Call::Delivery {
            grade,
            stamp,
            volume: last,
        }),
        (b'm', Numbers::Three(k, n, m)) => Some(Call::Make { k, n, m, g: last }),
        _ => None,
    }
}
