// One line of the bench program, from bytes to a call, byte by byte.
#![tactic(auto)]

ghost use Rattle.std.specs.Prelude.{◌≡◌};
ghost use Rattle.grammar.specs.Grammar.{grammar, reading_of};
ghost use Rattle.lines.specs.Bytes.{started, stepped, finished};

use grammar::State;
use model::Call;
use reader::{advance, call};

// A line of any length, as far as it has been read.
#[derive(Clone, Copy)]
pub struct Line {
    state: State,
}

impl Line {
    // The line before its first byte. No `Default`: that would not say which state it is.
    #[tactic(auto, unfolding(crate::specs::Bytes::started))]
    pub fn start() -> Self
        ensures { result ≡ started }
    {
        Line {
            state: State::Start,
        }
    }

    // The line with one more byte.
    #[tactic(auto, unfolding(crate::specs::Bytes::stepped))]
    pub fn step(self, byte: u8) -> Self
        ensures { result ≡ stepped self byte }
    {
        Line {
            state: advance(self.state, byte),
        }
    }

    // What the line asks for if it ends here.
    #[tactic(auto, unfolding(crate::specs::Bytes::finished, grammar::specs::Grammar::reading_of))]
    pub fn finish(self) -> Option<Call>
        ensures { reading_of result ≡ finished self }
    {
        match self.state {
            State::Number(letter, kept, value) => call(letter, kept, value),
            State::Start | State::Letter(_) | State::Space(_, _) | State::Broken => None,
        }
    }
}

// What a whole line asks for. It is given without its newline.
pub fn parse(bytes: &[u8]) -> Option<Call>
    ensures { reading_of result ≡ grammar bytes.now }
{
    bytes
        .iter()
        .fold(Line::start(), |line, byte| line.step(*byte))
        .finish()
}
