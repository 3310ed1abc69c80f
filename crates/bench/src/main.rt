// The bench program (SPECIFICATION 11): calls over standard input, one to a line, and their answers over standard output.
#![tactic(auto)]

ghost use Rattle.std.specs.Prelude.{◌≡◌, ◌*◌, ◌≤◌, length};
ghost use Rattle.session.specs.Protocol.{zero_buffer};

use std::io::{Read, Write};

// Writes out the bytes that wait. A write that fails loses its bytes.
fn write_out(rt: &HostRuntime, out: &[u8]) {
    let _ = rt.stdout().write_all(out);
}

// Reads the next bytes. Returns how many there are: none if the input has ended or cannot be read.
fn read(rt: &HostRuntime, chunk: &mut [u8]) -> usize
    ensures { result ≤ length chunk.new }
{
    rt.stdin().read(chunk).unwrap_or(0)
}

// The waiting bytes are written out before each read, so each line is answered when it has been read. A byte of input adds at most 32 bytes
// to them. A proved loop has to end, so this one has a number of turns that no input uses up.
fn serve(rt: &HostRuntime, book: &mut [u32], out: &mut [u8], chunk: &mut [u8])
    requires { (book.old ≡ zero_buffer) × (32 ≤ length out.old) × (32 * length chunk.old ≤ length out.old) }
{
    let mut session = session::begin(&book[..]);
    for _ in 0..u64::MAX {
        let n = read(rt, chunk);
        if n == 0 {
            break;
        }
        let fed = session::feed(book, out, session, &chunk[..n]);
        write_out(rt, &out[..fed.used]);
        session = session::written_out(fed);
    }
    let last = session::end_input(book, out, session);
    write_out(rt, &out[..last.used]);
}

#[tactic(auto, unfolding(session::specs::Protocol::zero_buffer))]
fn main(rt: HostRuntime) {
    let mut book = [0u32; 14836];
    let mut out = [0u8; 65536];
    let mut chunk = [0u8; 2048];
    serve(&rt, &mut book, &mut out, &mut chunk);
}
