// The line on standard error that tells a failure: what failed, a colon and the system's words.
ghost use Rattle.std.specs.Prelude.{◌≤◌, length};

use crate::{say, say_all};
use std::io::{Cursor, Error, Print, Write};

// the longest words that are told
const ROOM: usize = 256;

// Where the words of the system's error end: before its number, which std puts behind them in brackets.
fn before_number(words: &[u8]) -> usize
    ensures { result ≤ length words.now }
{
    match words.iter().rposition(|b| *b == b'(') {
        Some(i) => i.saturating_sub(1),
        None => words.len(),
    }
}

// Writes the words of an error.
fn say_words<E: Print>(errors: &E, words: &[u8], why: &Error) {
    let end = match why.raw_os_error() {
        Some(_) => before_number(words),
        None => words.len(),
    };
    say(errors, words, end);
}

// Writes a line to standard error: what failed, as the caller names it, a colon and the words of the error, as far as there is room for them.
pub fn fail<E: Print>(errors: &E, what: &[u8], why: &Error) {
    let mut words = Cursor::new([0u8; ROOM]);
    let _ = write!(words, "{why}");
    let end = words.position() as usize;
    let words = words.into_inner();
    say_all(errors, what);
    say_all(errors, b": ");
    say_words(errors, &words[..end.min(ROOM)], why);
    say_all(errors, b"\n");
}
