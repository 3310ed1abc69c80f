// The bytes of an answer of the bench program: one line.
#![tactic(auto)]

ghost use Rattle.std.specs.Prelude.{◌≡◌, ◌+◌, ◌≤◌, length};
ghost use Rattle.std.proofs.lemmas.List.Edits.{sets};
ghost use Rattle.model.specs.Reply.{reply_of};
ghost use Rattle.text.specs.Text.{numbered, text_of, unread_text, written, stored};

use itoa::Buffer;
use model::{Answer, Refusal};

// Writes a text into the buffer from `at` on. Returns where it ends. No `Display` and no String: the memory is fixed, and the clauses `value` and
// `out_after` of `answer` say how many bytes are written and that the rest stays.
fn copy(text: &[u8], out: &mut [u8], at: usize) -> usize
    requires { at + length text.now ≤ length out.old }
    ensures value { result ≡ at + length text.now }
    ensures out_after { out.new ≡ sets out.old at text.now }
{
    let end = at + text.len();
    out[at..end].copy_from_slice(text);
    end
}

// Writes a word and a number as one line. Returns its length.
fn line_of(word: &[u8], x: u64, out: &mut [u8]) -> usize
    requires { (length word.now ≤ 8) × (32 ≤ length out.old) }
    ensures value { result ≡ length (numbered word.now x) }
    ensures out_after { out.new ≡ sets out.old 0 (numbered word.now x) }
{
    let at = copy(word, out, 0);
    let end = copy(Buffer::new().format(x).as_bytes(), out, at);
    copy(b"\n", out, end)
}

// Writes the line of an answer to the front of the buffer. Returns its length. If the buffer is shorter than 32 bytes, it writes nothing and
// returns 0, and no None, since its clause `value` has `written`, which is 0 there.
pub fn answer(a: Result<Answer, Refusal>, out: &mut [u8]) -> usize
    ensures value { result ≡ written (text_of (reply_of a)) out.old }
    ensures out_after { out.new ≡ stored (text_of (reply_of a)) out.old }
{
    if out.len() < 32 {
        return 0;
    }
    match a {
        Ok(Answer::Done) => copy(b"ok\n", out, 0),
        Ok(Answer::Splits(_)) => copy(b"ok\n", out, 0),
        Ok(Answer::Sum(sum)) => line_of(b"= ", sum, out),
        Err(why) => line_of(b"refused ", u64::from(codes::number(why)), out),
    }
}

// The same for a line that is unread. It tests the length itself, since one function for both would only put the test before a match.
pub fn unread(out: &mut [u8]) -> usize
    ensures value { result ≡ written unread_text out.old }
    ensures out_after { out.new ≡ stored unread_text out.old }
{
    if out.len() < 32 {
        return 0;
    }
    copy(b"unread\n", out, 0)
}
