// Pieces and lines from an input, and answers to standard output, for the programs. How a line is taken from the pieces that are read is promised by an equation
// (specs/Taking.antt), and so is that a failed write closes the output for good (specs/Writing.antt). No contract can say what is read or written.
#![tactic(auto)]

ghost use Rattle.std.specs.Prelude.{◌≡◌, ◌≤◌, length, IfSome};
ghost use Rattle.stream.specs.Taking.{pushed, Takes, Inside};
ghost use Rattle.stream.specs.Reading.{piece_of, nothing_read, Reads, last_line, taken_with, over_with};
ghost use Rattle.stream.specs.Writing.{outcome_of, Within, after_write, Flushed, Roomed, Free, Leaves};

mod failure;

pub use failure::fail;
use std::io::{Error, ErrorKind, Print, Read};
use std::thread;

// A line that is still read: how many of its bytes are held, or none where there were too many.
pub type Held = Option<usize>;

// The output of a run: where its next byte goes, or none after a write that failed. Nothing is put and nothing is written then, so what came out is a start of the answers.
pub type Output = Option<usize>;

// An input that could not be read, or whose answers nobody takes any more. What there is to say of it was said on standard error.
#[derive(Clone, Copy)]
pub struct Failed;

// What was taken of a piece of the input: the line so far, and the place after the line feed that ended it, where one did.
#[derive(Clone, Copy)]
struct Taken {
    pub held: Held,
    pub next: Option<usize>,
}

// The line with one byte more, where there is room for it.
fn push(held: Held, b: u8, line: &mut [u8]) -> Held
    ensures { record { held = result; buffer = line.new } ≡ pushed held line.old b }
{
    let n = held?;
    if n < line.len() {
        line[n] = b;
        Some(n + 1)
    } else {
        None
    }
}

// Takes the bytes of a piece from `from` on, up to the end of the line that is held or of the piece.
fn take_line(held: Held, piece: &[u8], from: usize, line: &mut [u8]) -> Taken
    ensures { Takes held piece.now from line.old result line.new }
{
    let mut held = held;
    for i in from..piece.len() {
        let b = piece[i];
        if b == b'\n' {
            let next = Some(i + 1);
            return Taken { held, next };
        }
        held = push(held, b, line);
    }
    Taken { held, next: None }
}

// Reads a piece of an input as it comes, no byte at its end; a failure's line names the input.
pub fn read_some<R: Read, E: Print>(
    input: &mut R,
    errors: &E,
    what: &[u8],
    piece: &mut [u8],
) -> Result<usize, Failed>
    ensures { Inside result piece.new }
{
    input.read(piece).map_err(|why| {
        fail(errors, what, &why);
        Failed
    })
}

// Whether a write that took nothing may be tried again: where a signal interrupted it, or a pipe that does not block is full.
fn passes(why: &Error) -> bool {
    matches!(why.kind(), ErrorKind::Interrupted | ErrorKind::WouldBlock)
}

// What a write came to, by how many bytes it took: so many, none where it may be tried again, or that it failed.
fn outcome(taken: usize, again: bool) -> Option<usize>
    ensures { result ≡ outcome_of taken again }
{
    if taken > 0 || again {
        Some(taken)
    } else {
        None
    }
}

// One write of a part of a buffer; `why` is its error, where it has one.
fn write_part<W: Print>(to: &W, part: &[u8], why: &mut Error) -> Option<usize>
    ensures { Within result part.now }
{
    match to.write_some(part) {
        Ok(taken) => outcome(taken, false),
        Err(error) => {
            let again = passes(&error);
            *why = error;
            outcome(0, again)
        }
    }
}

// Writes bytes, and goes on from where a write stopped. The error is the last that a write had. A proved loop has to end: its turns are counted, up to a number that no run uses up.
fn write_first<W: Print>(to: &W, bytes: &[u8]) -> Result<(), Error> {
    let mut why = no_error();
    let mut from = 0;
    for _ in 0..u64::MAX {
        if from >= bytes.len() {
            return Ok(());
        }
        match write_part(to, &bytes[from..], &mut why) {
            Some(0) => thread::yield_now(),
            Some(n) => from += n,
            None => return Err(why),
        }
    }
    Err(why)
}

// The output after a write: its start where all was written, or closed.
fn after(whole: bool) -> Output
    ensures { result ≡ after_write whole }
{
    whole.then_some(0)
}

// No error yet: what a write that takes nothing and has no error is told as.
fn no_error() -> Error {
    Error::from_raw_os_error(0)
}

// Writes what is filled of the output. Answers where to go on: at the start, or nowhere, after a line on standard error.
pub fn flush<W: Print, E: Print>(to: &W, errors: &E, out: &[u8], output: Output) -> Output
    ensures { Flushed output result }
{
    let at = output?;
    let written = write_first(to, &out[..at.min(out.len())]);
    if let Err(why) = &written {
        fail(errors, b"standard output", why);
    }
    after(written.is_ok())
}

// Flushes where less than half of the output is free. Answers where to go on.
pub fn make_room<W: Print, E: Print>(to: &W, errors: &E, out: &[u8], output: Output) -> Output
    ensures { Roomed output out.now result }
{
    match output {
        Some(at) if at < out.len() / 2 => output,
        _ => flush(to, errors, out, output),
    }
}

// Writes bytes to standard error. Nothing is left to say where that fails.
fn say_all<E: Print>(errors: &E, bytes: &[u8]) {
    let _ = write_first(errors, bytes);
}

// Writes what is filled of a buffer to standard error.
pub fn say<E: Print>(errors: &E, out: &[u8], at: usize) {
    say_all(errors, &out[..at.min(out.len())]);
}

// An input that is read in pieces: the bytes of the last piece that are left, and whether the input has ended.
// stays: a flag beside the places, since bytes are left where the input has ended.
#[derive(Clone, Copy)]
pub struct Reader {
    pub from: usize,
    pub end: usize,
    pub ended: bool,
}

// The next line of an input, or that there is none, with the input and the output after it.
#[derive(Clone, Copy)]
pub struct Next {
    pub line: Result<Option<Held>, Failed>,
    pub reader: Reader,
    pub output: Output,
}

// A piece of n bytes of which none is taken.
fn piece_of(n: usize) -> Reader
    ensures { result ≡ piece_of n }
{
    Reader {
        from: 0,
        end: n,
        ended: false,
    }
}

// An input of which nothing is read.
pub fn unread() -> Reader
    ensures { result ≡ nothing_read }
{
    piece_of(0)
}

// Reads the next piece; no byte after the input's end, and none where the output is closed.
fn read_next<R: Read, E: Print>(
    input: &mut R,
    errors: &E,
    what: &[u8],
    piece: &mut [u8],
    ended: bool,
    output: Output,
) -> Result<usize, Failed>
    ensures { Reads ended output piece.old result piece.new }
{
    if ended {
        return Ok(0);
    }
    match output {
        Some(_) => read_some(input, errors, what, piece),
        None => Err(Failed),
    }
}

// The last line of an input, where bytes of one are held.
fn last_line(held: Held) -> Option<Held>
    ensures { result ≡ last_line held }
{
    match held {
        Some(0) => None,
        _ => Some(held),
    }
}

// A line that ended, with the input from the next on.
fn taken_with(held: Held, next: usize, reader: Reader, output: Output) -> Next
    ensures { result ≡ taken_with held next reader output }
{
    Next {
        line: Ok(Some(held)),
        reader: Reader {
            from: next,
            ..reader
        },
        output,
    }
}

// No further line of an input: its reader is at the end.
fn over(line: Result<Option<Held>, Failed>, output: Output) -> Next
    ensures { result ≡ over_with line output }
{
    Next {
        line,
        reader: Reader {
            from: 0,
            end: 0,
            ended: true,
        },
        output,
    }
}

// The next line of an input. Before each read what is filled of the output is written, so that whoever asks has the answers. A proved loop has to end, and nothing says
// that the input does: so its turns are counted, up to a number that no run uses up.
// stays: places lent beside counts, and no Vec, since nothing is on the heap; each by itself, since one struct of them would be made anew for each line, and no plainer.
pub fn next_line<R: Read, W: Print, E: Print>(
    input: &mut R,
    to: &W,
    errors: &E,
    what: &[u8],
    reader: Reader,
    piece: &mut [u8],
    line: &mut [u8],
    out: &[u8],
    output: Output,
) -> Next
    requires { (reader.end ≤ length piece.old) × Free output out.now }
    ensures { (result.reader.end ≤ length piece.new) × Leaves output out.now result.output out.now }
{
    let mut held = Some(0);
    let mut reader = reader;
    let mut output = output;
    for _ in 0..u64::MAX {
        let taken = take_line(held, &piece[..reader.end], reader.from, line);
        held = taken.held;
        if let Some(next) = taken.next {
            return taken_with(held, next, reader, output);
        }
        output = flush(to, errors, out, output);
        match read_next(input, errors, what, piece, reader.ended, output) {
            Ok(0) => return over(Ok(last_line(held)), output),
            Ok(n) => reader = piece_of(n),
            Err(Failed) => return over(Err(Failed), output),
        }
    }
    over(Err(Failed), output)
}
