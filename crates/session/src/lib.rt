// The bench program between its input and its output, byte by byte: SPECIFICATION 11.
#![tactic(auto)]

ghost use Rattle.std.specs.Prelude.{◌≡◌, ℕ, ◌+◌, ◌*◌, ◌≤◌, length, take};
ghost use mathlib.Core.List.{List, ◌++◌, foldl};
ghost use Rattle.text.specs.Text.{written, stored};
ghost use Rattle.lent.specs.Said.{said_text};
ghost use Rattle.session.specs.Protocol.{zero_buffer};
ghost use Rattle.session.specs.Session.{initial, end_line, feed_byte, end_input, written_out, bench_of};

use lines::Line;
use model::{Answer, Refusal};

// The state between two bytes of the input. The buffer of words and the bytes of the output are lent beside it and not in it: the clauses
// `bench` of `begin`, `feed` and `end_input`, which may not change, have them apart.
#[derive(Clone, Copy)]
pub struct Session {
    // The line as far as it has been read, none if it has no byte yet.
    line: Option<Line>,
    // How many words a call is lent.
    lent: usize,
    // How many bytes at the front of the output wait to be written. The bytes after them are left open. A length beside a lent buffer, and no
    // Vec: the memory is fixed.
    pub used: usize,
}

// Writes the line of an answer to the front of the buffer. Returns its length.
fn spell(said: Option<Result<Answer, Refusal>>, out: &mut [u8]) -> usize
    ensures value { result ≡ written (said_text said) out.old }
    ensures out_after { out.new ≡ stored (said_text said) out.old }
{
    match said {
        Some(answer) => text::answer(answer, out),
        None => text::unread(out),
    }
}

// Writes the line of an answer after the bytes that wait. Returns how many wait then.
fn append(out: &mut [u8], used: usize, said: Option<Result<Answer, Refusal>>) -> usize
    requires { used + 32 ≤ length out.old }
    ensures out_after { take result out.new ≡ take used out.old ++ said_text said }
    ensures bounds { result ≤ used + 32 }
{
    let added = spell(said, &mut out[used..]);
    used + added
}

// The line ends: its call is performed, and the answer waits in the output.
fn end_line(book: &mut [u32], out: &mut [u8], s: Session) -> Session
    requires { (s.lent ≤ length book.old) × (s.used + 32 ≤ length out.old) }
    ensures bench { bench_of result book.new out.new ≡ end_line (bench_of s book.old out.old) }
    ensures bounds { (result.lent ≤ length book.old) × (result.used ≤ s.used + 32) }
{
    let line = s.line.unwrap_or(Line::start());
    let answered = lent::answer_line(book, s.lent, line.finish());
    Session {
        line: None,
        lent: answered.lent,
        used: append(out, s.used, answered.said),
    }
}

// One byte of the input.
#[tactic(auto, using(crate::specs::SessionLaws::byte_added, crate::specs::SessionLaws::at_newline, crate::specs::SessionLaws::at_other))]
fn feed_byte(book: &mut [u32], out: &mut [u8], s: Session, byte: u8) -> Session
    requires { (s.lent ≤ length book.old) × (s.used + 32 ≤ length out.old) }
    ensures bench { bench_of result book.new out.new ≡ feed_byte (bench_of s book.old out.old) byte }
    ensures bounds { (result.lent ≤ length book.old) × (result.used ≤ s.used + 32) }
{
    if byte == b'\n' {
        return end_line(book, out, s);
    }
    let line = s.line.unwrap_or(Line::start());
    Session {
        line: Some(line.step(byte)),
        ..s
    }
}

// The next bytes of the input. The output has room for an answer to each.
pub fn feed(book: &mut [u32], out: &mut [u8], s: Session, bytes: &[u8]) -> Session
    requires { (s.lent ≤ length book.old) × (s.used + 32 * length bytes.now ≤ length out.old) }
    ensures bench { bench_of result book.new out.new ≡ foldl feed_byte (bench_of s book.old out.old) bytes.now }
    ensures bounds { (result.lent ≤ length book.old) × (result.used ≤ s.used + 32 * length bytes.now) }
{
    let mut session = s;
    for byte in bytes {
        session = feed_byte(book, out, session, *byte);
    }
    session
}

// The end of the input. The last line may lack its newline.
#[tactic(auto, using(crate::specs::SessionLaws::at_end, crate::specs::SessionLaws::at_end_none))]
pub fn end_input(book: &mut [u32], out: &mut [u8], s: Session) -> Session
    requires { (s.lent ≤ length book.old) × (s.used + 32 ≤ length out.old) }
    ensures bench { bench_of result book.new out.new ≡ end_input (bench_of s book.old out.old) }
    ensures bounds { result.used ≤ s.used + 32 }
{
    if s.line.is_some() {
        end_line(book, out, s)
    } else {
        s
    }
}

// The state before the first byte. The buffer is zero, as at the start.
pub fn begin(book: &[u32]) -> Session
    requires { book.now ≡ zero_buffer }
    ensures bench { (out : List ℕ) → bench_of result book.now out ≡ initial }
    ensures bounds { (result.lent ≤ length book.now) × (result.used ≡ 0) }
{
    Session {
        line: None,
        lent: book.len(),
        used: 0,
    }
}

// The state after the waiting bytes were written out.
#[tactic(auto, unfolding(crate::specs::Session::written_out))]
pub fn written_out(s: Session) -> Session
    ensures bench { (words out : List ℕ) → bench_of result words out ≡ written_out (bench_of s words out) }
    ensures bounds { (result.lent ≡ s.lent) × (result.used ≡ 0) }
{
    Session { used: 0, ..s }
}
