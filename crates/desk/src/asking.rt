// `keys ask`: every line of standard input is answered. Answers are written in large pieces, and before each read, so that whoever asks has them. After a write that
// failed nothing is read, put or written any more.
ghost use Rattle.std.specs.Prelude.{◌≡◌, ◌+◌, ◌*◌, ◌≤◌, length};
ghost use Rattle.text.specs.Puts.{Stands, WroteAtMost};
ghost use Rattle.console.specs.Limits.{answer_room};
ghost use Rattle.console.specs.Answers.{verdict_in, list_in};
ghost use Rattle.stream.specs.Writing.{Free, Leaves};
ghost use Rattle.desk.specs.Limits.{output_room};
ghost use Rattle.desk.specs.Asking.{held_answer};

use crate::buffers::{PIECE, zeros};
use crate::lines;
use console::inner::{JudgedSheet, Table};
use std::io::Read;
use stream::{Held, Output};
use text::Pen;

// answers are written where they fill half of this
const OUTPUT: usize = 8 * console::ANSWER_ROOM;

// Places for the answers.
// stays: a function of its own, since its clause says that OUTPUT is the output's room of the limits
fn output() -> [u8; OUTPUT]
    ensures { output_room ≡ length result }
{
    zeros()
}

// Answers every line of standard input.
pub(crate) fn ask<R: Input + Print, E: Print>(
    rt: &R,
    errors: &E,
    judged: JudgedSheet<'_>,
    table: Table<'_>,
) {
    let mut input = rt.reader();
    let mut piece = zeros::<PIECE>();
    let mut line = lines::places();
    let mut out = output();
    answer_lines(
        &mut input, rt, errors, judged, table, &mut piece, &mut line, &mut out,
    );
}

// Answers the lines of standard input one after the other; its turns are counted.
fn answer_lines<I: Read, W: Print, E: Print>(
    input: &mut I,
    to: &W,
    errors: &E,
    judged: JudgedSheet<'_>,
    table: Table<'_>,
    piece: &mut [u8],
    line: &mut [u8],
    out: &mut [u8],
)
    requires { 2 * answer_room ≤ length out.old }
{
    let mut reader = stream::unread();
    let mut output = Some(0);
    for _ in 0..u64::MAX {
        let next = stream::next_line(
            input,
            to,
            errors,
            b"standard input",
            reader,
            piece,
            line,
            out,
            output,
        );
        reader = next.reader;
        let Ok(Some(held)) = next.line else {
            return;
        };
        output = answer_held(to, errors, held, line, judged, table, out, next.output);
    }
}

// Answers the line that is held, and writes the answers where they fill half of the output: so the next one has its room.
fn answer_held<W: Print, E: Print>(
    to: &W,
    errors: &E,
    held: Held,
    line: &[u8],
    judged: JudgedSheet<'_>,
    table: Table<'_>,
    out: &mut [u8],
    output: Output,
) -> Output
    requires { (2 * answer_room ≤ length out.old) × Free output out.old }
    ensures { Leaves output out.old result out.new }
{
    let at = output?;
    let next = put_answer(held, line, judged, table, out, at);
    stream::make_room(to, errors, out, Some(next))
}

// The answer to the line that is held: the whole of it stands in the buffer, whatever the line and the sheet.
fn put_answer(
    held: Held,
    line: &[u8],
    judged: JudgedSheet<'_>,
    table: Table<'_>,
    out: &mut [u8],
    at: usize,
) -> usize
    requires { at + answer_room ≤ length out.old }
    ensures { Stands (held_answer (verdict_in judged.entry.sheet) (list_in judged.entry.sheet) held line.now) out.old at result out.new }
{
    let mut pen = Pen { buf: out, at };
    put_held(held, line, judged, table, &mut pen);
    pen.at
}

// The same with a pen.
fn put_held(held: Held, line: &[u8], judged: JudgedSheet<'_>, table: Table<'_>, pen: &mut Pen<'_>)
    ensures { WroteAtMost answer_room (held_answer (verdict_in judged.entry.sheet) (list_in judged.entry.sheet) held line.now) pen.old pen.new }
{
    match held {
        Some(n) => console::inner::answer_with_list(
            lines::first_bytes(n, line),
            judged,
            table,
            pen,
        ),
        None => pen.put_text(b"error\tthe line is too long\n"),
    }
}
