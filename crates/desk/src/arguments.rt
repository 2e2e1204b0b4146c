// The arguments, read one by one, and the files that they name.
ghost use Rattle.std.specs.Prelude.{◌≡◌, ◌≤◌, map, length};
ghost use Rattle.desk.specs.Names.{shown_byte};

use crate::buffers::{ARGUMENT, zeros};
use forms::arguments;
use forms::arguments::{Form, Words};
use std::env::FillError;
use std::io::Error;
use std::rt::{Env, Files};
use std::{fs, io, str};
use stream::Failed;

// the system's numbers of the errors that a name can have: it is too long, or it is no text
// stays: numbers, since the system's words for them are printed
const TOO_LONG: i32 = 36;

const NO_TEXT: i32 = 84;

// The words with the one that an argument is. One that is too long to be had is no word of a form.
fn see<R: Env>(rt: &R, words: Words, i: usize) -> Words {
    let mut text = zeros::<ARGUMENT>();
    let n = rt.arg(i, &mut text).unwrap_or(0);
    arguments::with_word(words, i, &text[..n])
}

// Whether there is no argument i.
fn missing<R: Env>(rt: &R, i: usize) -> bool {
    let mut text = [0u8; 1];
    matches!(rt.arg(i, &mut text), Err(FillError::NotPresent))
}

// How many arguments there are, the program's name among them.
fn count<R: Env>(rt: &R) -> usize {
    for n in 0..usize::MAX {
        if missing(rt, n) {
            return n;
        }
    }
    usize::MAX
}

// The form of the arguments.
pub(crate) fn read<R: Env>(rt: &R) -> Form {
    let count = count(rt);
    let mut words = arguments::none();
    for i in 1..count {
        words = see(rt, words, i);
    }
    arguments::form_of(count, words)
}

// A byte of a file's name, `?` for a control byte, which would steer a terminal.
fn shown(b: u8) -> u8
    ensures { result ≡ shown_byte b }
{
    if b < 32 || b == 127 { b'?' } else { b }
}

// Puts `?` for each control byte.
fn hide(name: &mut [u8])
    ensures { name.new ≡ map shown_byte name.old }
{
    for b in name.iter_mut() {
        *b = shown(*b);
    }
}

// Puts the name of the file that an argument is into the buffer, as a line on standard error shows it. Answers its length.
pub(crate) fn show<R: Env>(rt: &R, i: usize, name: &mut [u8]) -> usize
    ensures { result ≤ length name.new }
{
    let n = rt.arg(i, name).unwrap_or(0);
    hide(name);
    n
}

// Opens the file of a name. One that is no text in UTF-8 names no file that std can open.
fn open_named<R: Files>(rt: &R, path: &[u8]) -> io::Result<R::File> {
    match str::from_utf8(path) {
        Ok(text) => fs::open(rt, text),
        Err(_) => Err(Error::from_raw_os_error(NO_TEXT)),
    }
}

// Opens the file that an argument names. It is not read after a line on standard error that shows the name.
pub(crate) fn open<R: Files + Env, E: Print>(
    rt: &R,
    errors: &E,
    i: usize,
    name: &[u8],
) -> Result<R::File, Failed> {
    let mut path = zeros::<ARGUMENT>();
    let Ok(n) = rt.arg(i, &mut path) else {
        stream::fail(
            errors,
            b"the name of a file",
            &Error::from_raw_os_error(TOO_LONG),
        );
        return Err(Failed);
    };
    open_named(rt, &path[..n]).map_err(|why| {
        stream::fail(errors, name, &why);
        Failed
    })
}
