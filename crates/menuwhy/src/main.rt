// Tells where a row went astray: takes a net, a log and perhaps a box's last state, each a file, and prints the steps of the log, the event that is
// refused and why, and how the last state stands to it. What is told, phrase by phrase, is decided and proved in the crate why, and how a
// phrase becomes text in the crate phrases. Here are the words, and what reads and writes.
#![tactic(auto)]

mod table;

ghost use Rattle.std.specs.Prelude.{◌+◌, ◌≤◌, ◌≡◌, length, IfOk, IfSome};
ghost use Rattle.why.specs.Said.{about, Reached};
ghost use Rattle.menuwhy.specs.Room.{phrase_most};

use phrases::arguments::{Asked, Misuse, Request};
use phrases::names;
use std::env::Env;
use std::fs::File;
use std::io::Write;
use std::{io, str};
use why::found::Wish;
use why::telling;
use why::telling::Begun;

// How long the buffers are. A file is shorter: one that fills its buffer is not taken.
const BUFFER: usize = 65536;

// And one for a word that the program is started with. A longer one arrives with no bytes.
const WORD_MOST: usize = 4096;

// And one for the system's words on an error, which are far fewer.
const WORDS_MOST: usize = 256;

fn usage<W: Write>(to: &mut W) -> io::Result<()> {
    to.write_all(b"usage: menuwhy [--all] [--states] [--names FILE] NET LOG [LAST]\n")
}

// Takes the words behind the program's own name.
fn take_arguments<E: Env>(env: &E) -> Result<Request, Misuse> {
    let mut asked = Asked::default();
    for i in 1..streams::argument_count(env) {
        let mut word = [0u8; WORD_MOST];
        let n = env.arg(i, &mut word).unwrap_or(0);
        asked = asked.take(i, &word[..n])?;
    }
    asked.complete()
}

// The text in front of this one, or all of it.
fn in_front<'a>(text: &'a str, of: &str) -> &'a str {
    text.split_once(of).map_or(text, |(words, _)| words)
}

// Says on standard error why a file was not opened.
fn tell_unopened(rt: &HostRuntime, name: &str, error: &io::Error) -> io::Result<()> {
    let mut text = [0u8; WORDS_MOST];
    let mut rest = &mut text[..];
    if write!(rest, "{error}").is_err() {
        return eprintln!(rt; "{name}: not opened");
    }
    match str::from_utf8(&text) {
        Ok(words) => {
            // without the number that the library puts behind the words, and the rest of the buffer
            let said = in_front(in_front(words, "\0"), " (os error ");
            eprintln!(rt; "{name}: {said}")
        }
        Err(_) => eprintln!(rt; "{name}: not opened"),
    }
}

// Fills the buffer from the file of this name, and answers how many bytes it has; or says on standard error why there are none.
fn read_named(rt: &HostRuntime, name: &str, buf: &mut [u8]) -> io::Result<Option<usize>>
    ensures in_bounds { IfOk result (λ read. IfSome read (λ n. n ≤ length buf.new)) }
    ensures buf_len_unchanged { length buf.new ≡ length buf.old }
{
    let mut file = match File::open(rt, name) {
        Ok(file) => file,
        Err(error) => {
            tell_unopened(rt, name, &error)?;
            return Ok(None);
        }
    };
    let got = streams::read_full(&mut file, buf)?;
    if got == buf.len() {
        eprintln!(rt; "{name}: longer than 65535 bytes")?;
        return Ok(None);
    }
    Ok(Some(got))
}

// The same, of the file that argument i names. A name that is no text is none that a file can be opened by here.
fn read_file(rt: &HostRuntime, i: usize, buf: &mut [u8]) -> io::Result<Option<usize>>
    ensures in_bounds { IfOk result (λ read. IfSome read (λ n. n ≤ length buf.new)) }
    ensures buf_len_unchanged { length buf.new ≡ length buf.old }
{
    let mut word = [0u8; WORD_MOST];
    let n = rt.arg(i, &mut word).unwrap_or(0);
    match str::from_utf8(&word[..n]) {
        Ok(name) => read_named(rt, name, buf),
        Err(_) => {
            let mut stderr = rt.stderr();
            stderr.write_all(&word[..n])?;
            stderr.write_all(b": not a text\n")?;
            Ok(None)
        }
    }
}

// Writes what has been put into the buffer.
fn flush<W: Write>(to: &mut W, out: &[u8], end: usize) -> io::Result<()>
    requires { end ≤ length out.now }
{
    to.write_all(&out[..end])
}

// Where the next phrase goes: behind the last one, or at the front once the buffer is written, where it might not have room for one more.
fn make_room<W: Write>(to: &mut W, out: &[u8], end: usize) -> io::Result<usize>
    requires { (end ≤ length out.now) × (phrase_most ≤ length out.now) }
    ensures { IfOk result (λ at. at + phrase_most ≤ length out.now) }
{
    if out.len() - end < table::PHRASE_MOST {
        flush(to, out, end)?;
        Ok(0)
    } else {
        Ok(end)
    }
}

// Tells the lines of the file of names that cannot be read.
fn tell_bad_names<W: Write>(to: &mut W, names: &[u8], out: &mut [u8]) -> io::Result<()>
    requires { phrase_most ≤ length out.old }
    ensures { length out.new ≡ length out.old }
{
    let mut line = 0;
    while let Some(bad) = names::next_bad(names, line) {
        let end = table::put_bad_name(out, bad, names);
        flush(to, out, end)?;
        line = bad;
    }
    Ok(())
}

// Tells phrase after phrase, from where the telling begins.
fn tell_all<W: Write>(
    to: &mut W,
    begun: Begun,
    state: &mut [u8],
    portion: &mut [u8],
    names: &[u8],
    out: &mut [u8],
) -> io::Result<()>
    requires reached { Reached (about begun.telling state.old) state.old begun.cursor }
    requires log_in_bounds { (length begun.telling.log.now ≤ length portion.old) × (phrase_most ≤ length out.old) }
{
    let telling = begun.telling;
    let mut next = Some(begun.cursor);
    let mut end = 0;
    while let Some(cursor) = next {
        let said = telling.next(state, portion, cursor);
        next = said.cursor;
        let at = make_room(to, out, end)?;
        end = table::put(out, at, said.phrase, names);
    }
    flush(to, out, end)
}

// The same, of an argument that may not be given: then there is no file, and no bytes.
fn read_if_given(rt: &HostRuntime, i: Option<usize>, buf: &mut [u8]) -> io::Result<Option<usize>>
    ensures in_bounds { IfOk result (λ read. IfSome read (λ n. n ≤ length buf.new)) }
    ensures buf_len_unchanged { length buf.new ≡ length buf.old }
{
    match i {
        Some(i) => read_file(rt, i, buf),
        None => Ok(Some(0)),
    }
}

// Tells what there is to tell of the files.
fn tell<W: Write>(
    to: &mut W,
    net: &[u8],
    log: &[u8],
    last: Option<&mut [u8]>,
    names: &[u8],
    request: Request,
    out: &mut [u8],
) -> io::Result<()>
    requires { (length log.now ≤ 65536) × (phrase_most ≤ length out.old) }
{
    let mut state = [0u8; BUFFER];
    let mut portion = [0u8; BUFFER];
    let wish = Wish {
        all: request.all,
        states: request.states,
    };
    tell_bad_names(to, names, out)?;
    let begun = telling::begin(net, log, &mut state, last, wish);
    tell_all(to, begun, &mut state, &mut portion, names, out)
}

// Reads the files, and tells.
fn serve(rt: &HostRuntime, request: Request) -> io::Result<()> {
    let mut net = [0u8; BUFFER];
    let Some(n) = read_file(rt, request.net, &mut net)? else {
        return Ok(());
    };
    let mut log = [0u8; BUFFER];
    let Some(l) = read_file(rt, request.log, &mut log)? else {
        return Ok(());
    };
    let mut last = [0u8; BUFFER];
    let Some(s) = read_if_given(rt, request.last, &mut last)? else {
        return Ok(());
    };
    let mut names = [0u8; BUFFER];
    let Some(m) = read_if_given(rt, request.names, &mut names)? else {
        return Ok(());
    };
    let mut out = [0u8; BUFFER];
    let mut stdout = rt.stdout();
    tell(
        &mut stdout,
        &net[..n],
        &log[..l],
        request.last.is_some().then_some(&mut last[..s]),
        &names[..m],
        request,
        &mut out,
    )
}

fn main(rt: HostRuntime) -> io::Result<()> {
    match take_arguments(&rt) {
        Ok(request) => serve(&rt, request),
        Err(_) => {
            let mut stderr = rt.stderr();
            usage(&mut stderr)
        }
    }
}
