// `keys walk`: a question is read line by line, four numbers a line: first A, c, h, mK, then c, h, calorific value, q for each step; and its walk is printed.
// Nothing is printed before the whole question is read, and nothing but a line on standard error where a line is not four numbers.
ghost use Rattle.std.specs.Prelude.{◌≤◌, ◌≡◌, length};
ghost use Rattle.console.specs.Limits.{page_room};

use crate::buffers::{ARGUMENT, PIECE, zeros};
use crate::pages::say;
use crate::{arguments, lines};
use console::inner::JudgedSheet;
use forms::questions::BadLine;
use forms::{pages, questions};
use refusal::Refusal;
use std::io;
use std::io::Read;
use std::rt::{Env, Files};
use stream::{Failed, Held};
use walk::Course;

// Prints the walk of the question in a file, or on standard input.
pub(crate) fn print<R: Files + Env + io::Input + Print, E: Print>(
    rt: &R,
    errors: &E,
    named: Option<usize>,
    judged: JudgedSheet<'_>,
) {
    match named {
        None => print_from(&mut rt.reader(), rt, errors, b"standard input", judged),
        Some(i) => print_file(rt, errors, i, judged),
    }
}

// Prints the walk of the question in the file that an argument names.
fn print_file<R: Files + Env + Print, E: Print>(
    rt: &R,
    errors: &E,
    i: usize,
    judged: JudgedSheet<'_>,
) {
    let mut name = zeros::<ARGUMENT>();
    let n = arguments::show(rt, i, &mut name);
    if let Ok(mut file) = arguments::open(rt, errors, i, &name[..n]) {
        print_from(&mut file, rt, errors, &name[..n], judged);
    }
}

// Prints the walk of an input's question, or says what is wrong with it.
fn print_from<I: Read, W: Print, E: Print>(
    input: &mut I,
    to: &W,
    errors: &E,
    name: &[u8],
    judged: JudgedSheet<'_>,
) {
    let mut piece = zeros::<PIECE>();
    let mut line = lines::places();
    let mut numbers = questions::places();
    if let Ok(question) = read_all(input, to, errors, name, &mut piece, &mut line, &mut numbers) {
        print_question(to, errors, question, &numbers, judged);
    }
}

// Prints the walk of a question, or says which line is wrong.
fn print_question<W: Print, E: Print>(
    to: &W,
    errors: &E,
    question: Result<u64, BadLine>,
    numbers: &[i64; questions::KEPT_NUMBERS],
    judged: JudgedSheet<'_>,
) {
    match question {
        Ok(0) => say_bad(errors, 1),
        Ok(lines) => print_walk(to, errors, lines, numbers, judged),
        Err(BadLine::Numbers(line)) => say_bad(errors, line),
        Err(BadLine::Returned(line)) => say_returned(errors, line),
    }
}

// The question with the line that is held. A line that is too long is not four numbers.
fn take_held(
    question: Result<u64, BadLine>,
    held: Held,
    line: &[u8],
    numbers: &mut [i64],
) -> Result<u64, BadLine> {
    let n = held.unwrap_or(0);
    questions::take(question, lines::first_bytes(n, line), numbers)
}

// The whole question of an input, its turns counted.
fn read_all<I: Read, W: Print, E: Print>(
    input: &mut I,
    to: &W,
    errors: &E,
    name: &[u8],
    piece: &mut [u8],
    line: &mut [u8],
    numbers: &mut [i64],
) -> Result<Result<u64, BadLine>, Failed> {
    let mut question = Ok(0);
    let mut reader = stream::unread();
    for _ in 0..u64::MAX {
        let next = stream::next_line(input, to, errors, name, reader, piece, line, b"", Some(0));
        reader = next.reader;
        let Some(held) = next.line? else {
            break;
        };
        question = take_held(question, held, line, numbers);
    }
    Ok(question)
}

// Places for a printed walk.
// stays: a function of its own, since its clause says that PAGE_ROOM is the page's room of the limits
fn page() -> [u8; console::PAGE_ROOM]
    ensures { page_room ≡ length result }
{
    zeros()
}

// Prints the walk of a question of so many lines.
fn print_walk<W: Print, E: Print>(
    to: &W,
    errors: &E,
    lines: u64,
    numbers: &[i64; questions::KEPT_NUMBERS],
    judged: JudgedSheet<'_>,
)
    requires { 1 ≤ lines }
{
    let mut out = page();
    let printed = questions::put_page_with_list(lines, numbers, judged, &mut out, 0);
    stream::flush(to, errors, &out, Some(printed.end));
    say_refusal(errors, judged.sheet.map(|_| ()), printed.answer);
}

// Says on standard error whose refusal the page ends in, where it ends in one.
fn say_refusal<E: Print>(
    errors: &E,
    verdict: Result<(), Refusal>,
    answer: Result<Course, Refusal>,
) {
    say(errors, |out| pages::put_refusal_note(verdict, answer, out));
}

// Says on standard error which line is not what was expected.
fn say_bad<E: Print>(errors: &E, line: u64) {
    say(errors, |out| pages::put_line_bad(line, out));
}

// Says on standard error which line has a carriage return.
fn say_returned<E: Print>(errors: &E, line: u64) {
    say(errors, |out| pages::put_line_returned(line, out));
}
