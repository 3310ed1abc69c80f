// The state of reading a line of the bench program (SPECIFICATION 11.3).
#![tactic(auto)]

// The numbers before the current one. No Vec: the memory is fixed.
#[derive(Clone, Copy)]
pub enum Numbers {
    None,
    One(u32),
    Two(u32, u32),
    Three(u32, u32, u32),
}

// How much of a line has been read.
#[derive(Clone, Copy)]
pub enum State {
    // No byte yet.
    Start,
    // One byte, which may be the letter of a call.
    Letter(u8),
    // The letter, some whole numbers, and a space after them.
    Space(u8, Numbers),
    // The letter, some whole numbers, and the value of the digits after them.
    Number(u8, Numbers, u32),
    // Bytes with which no call starts: the line is unread, whatever follows.
    Broken,
}
