// Reading a book: its head, and its blocks as parts of it.
#![tactic(auto)]

mod head;
mod part;

pub use head::{Opened, open};
pub use part::{all_sound, block_at, block_full, block_sound};
