// Standard input and output: a read or a write that fails is told from one that does not.
#![tactic(auto)]

ghost use Rattle.std.specs.Prelude.{◌≡◌, ◌≤◌, length, IfOk};
ghost use Rattle.stdio.specs.Input.{read_answer};

use std::io;
use std::io::{Read, Write};

// What a read says: it failed, it gave so many bytes, or, where it gave none, the input has ended.
fn read_answer(answer: io::Result<usize>) -> io::Result<Option<usize>>
    ensures { result ≡ read_answer answer }
{
    match answer {
        Ok(0) => Ok(None),
        Ok(n) => Ok(Some(n)),
        Err(e) => Err(e),
    }
}

// Reads standard input to its end, or until the buffer is full, and answers how many bytes stand in it.
pub fn read_input(rt: &HostRuntime, buf: &mut [u8]) -> io::Result<usize>
    ensures { IfOk result (λ n. n ≤ length buf.new) }
{
    let mut done = 0;
    while done < buf.len() {
        let Some(n) = read_answer(rt.stdin().read(&mut buf[done..]))? else {
            return Ok(done);
        };
        done += n;
    }
    Ok(done)
}

// Writes all of some bytes to standard output; where that fails, says so on standard error.
pub fn print(rt: &HostRuntime, bytes: &[u8]) {
    if rt.stdout().write_all(bytes).is_err() {
        let _ = rt.stderr().write_all(b"unwritable\n");
    }
}

// Says that the input could not be read.
pub fn print_unreadable(rt: &HostRuntime) {
    print(rt, b"unreadable\n");
}
