// What a program takes from outside: all that a reader gives, put into a lent buffer, and how many words the program was started with. What it
// writes goes through the standard library's own `write_all`, and a word comes by its own `arg`.
#![tactic(auto)]

ghost use Rattle.std.specs.Prelude.{◌≡◌, ℕ, ◌≤◌, ◌<◌, take, length, IfOk, OnErr};
ghost use Rattle.io.specs.Counts.{IsPrefixLen};
ghost use Rattle.std.specs.Io.KnownBytes.{Consumes, IsAtEnd};

use std::env::{Env, FillError};
use std::io;
use std::io::Read;

// Reads until the buffer is full or the input ends, and answers how many bytes stand at its front: all that the input gave. A read that fails
// is the error; what the input gave before it stands at the front as well, which the library's own `read_exact` does not promise.
pub fn read_full<R: Read>(from: &mut R, buf: &mut [u8]) -> io::Result<usize>
    ensures in_bounds { IfOk result (λ n. IsPrefixLen n buf.new) }
    ensures bytes { IfOk result (λ n. Consumes (R.remaining from.old) (R.remaining from.new) (take n buf.new)) }
    ensures end { IfOk result (λ n. n < length buf.new → IsAtEnd (R.remaining from.new)) }
    ensures err { OnErr result ((n : ℕ) × (n ≤ length buf.new) × Consumes (R.remaining from.old) (R.remaining from.new) (take n buf.new)) }
    ensures buf_len_unchanged { length buf.new ≡ length buf.old }
{
    let mut at = 0;
    while at < buf.len() {
        let n = from.read(&mut buf[at..])?;
        if n == 0 {
            return Ok(at);
        }
        at += n;
    }
    Ok(at)
}

// How many words the program was started with, its own name among them.
pub fn argument_count<E: Env>(env: &E) -> usize {
    (0..usize::MAX)
        .find(|i| matches!(env.arg(*i, &mut []), Err(FillError::NotPresent)))
        .unwrap_or(usize::MAX)
}
