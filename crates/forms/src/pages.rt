// What is printed whole, and the lines on standard error (specs/Pages.antt).
ghost use Rattle.std.specs.Prelude.{◌+◌, ◌≤◌, ◌≡◌, ◌++◌, length};
ghost use Rattle.refusal.specs.Refusals.{numbered};
ghost use Rattle.text.specs.Bytes.{bytes_of};
ghost use Rattle.text.specs.Decimal.{decimal};
ghost use Rattle.text.specs.Puts.{Stands, WroteAtMost};
ghost use Rattle.walk.specs.Walk.{paper_walk};
ghost use Rattle.console.specs.Answers.{verdict_in, list_in};
ghost use Rattle.forms.specs.Limits.{usage_room, example_room, note_room};
ghost use Rattle.forms.specs.Pages.{usage_text, example_page, version_text, misplaced_text, row_returned, line_returned, expected, line_bad, sheet_note, verdict_note, walk_note, refusal_note, return_note};

use air::Millikelvin;
use console::inner::JudgedSheet;
use refusal::Refusal;
use sheet::AcceptedSheet;
use text::Pen;
use walk::Course;

// the example is no longer: a printed walk, a line feed and how to go on (specs/Limits.antt)
pub const EXAMPLE_ROOM: usize = console::PAGE_ROOM + 1 + 318;

// How to go on.
fn put_usage(pen: &mut Pen<'_>)
    ensures { WroteAtMost usage_room usage_text pen.old pen.new }
{
    pen.put_text(
        b"keys walk [FILE]   prints the walk of a question, from FILE or standard input\n\
          keys ask           answers requests, one a line, from standard input\n\
          keys sheet [FILE]  judges a sheet, from FILE or standard input\n\
          keys write         prints the text of the sheet\n\
          ..   --sheet FILE  with another sheet than the built-in one\n",
    );
}

// How to go on, alone.
// stays: any buffer with the room, here and below, and no array or pen: the clauses of these functions, that the whole text stands, may not change.
pub fn put_help(out: &mut [u8]) -> usize
    requires { usage_room ≤ length out.old }
    ensures { Stands usage_text out.old 0 result out.new }
{
    let mut help = Pen { buf: out, at: 0 };
    put_usage(&mut help);
    help.at
}

// The version, and which sheet is built in.
pub fn put_version(out: &mut [u8]) -> usize
    requires { note_room ≤ length out.old }
    ensures { Stands version_text out.old 0 result out.new }
{
    let mut pen = Pen { buf: out, at: 0 };
    pen.put_text(b"gas keys 2, built-in sheet: R. & M. 3099, Table 5\n");
    pen.at
}

// Where `--sheet FILE` belongs.
pub fn put_misplaced(out: &mut [u8]) -> usize
    requires { note_room ≤ length out.old }
    ensures { Stands misplaced_text out.old 0 result out.new }
{
    let mut pen = Pen { buf: out, at: 0 };
    pen.put_text(b"keys: --sheet FILE stands at the end\n");
    pen.at
}

// That the arguments are no form, and which there are.
pub fn put_no_form(out: &mut [u8]) -> usize
    requires { 19 + usage_room ≤ length out.old }
    ensures { Stands (bytes_of "keys: no such form\n" ++ usage_text) out.old 0 result out.new }
{
    let mut pen = Pen { buf: out, at: 0 };
    pen.put_text(b"keys: no such form\n");
    put_usage(&mut pen);
    pen.at
}

// Document 01's walk, A 1, no fuel, from 200,000 mK, and how to go on, over a sheet, accepted or refused.
pub fn put_example(sheet: Result<AcceptedSheet<'_>, Refusal>, out: &mut [u8]) -> usize
    requires { example_room ≤ length out.old }
    ensures { Stands (example_page (verdict_in sheet.entry) (list_in sheet.entry)) out.old 0 result out.new }
{
    let steps: [i64; 8] = [0, 0, 0, 1_200_000_001, 0, 0, 0, 2_400_000];
    let start = burning::inner::charge_in(&[1i64, 0, 0]);
    let mut pen = Pen { buf: out, at: 0 };
    let _ = console::inner::print_judged(start, Millikelvin(200_000), &steps, sheet, &mut pen);
    pen.put_byte(10);
    put_usage(&mut pen);
    pen.at
}

// The same over a sheet with the list that it was judged on, as the program prints it.
pub fn put_example_with_list(judged: JudgedSheet<'_>, out: &mut [u8]) -> usize
    requires { example_room ≤ length out.old }
    ensures { Stands (example_page (verdict_in judged.entry.sheet) (list_in judged.entry.sheet)) out.old 0 result out.new }
{
    let steps = [0i64, 0, 0, 1_200_000_001, 0, 0, 0, 2_400_000];
    let start = burning::inner::charge_in(&[1i64, 0, 0]);
    let mut pen = Pen { buf: out, at: 0 };
    let _ = console::inner::print_with_list(start, Millikelvin(200_000), &steps, judged, &mut pen);
    pen.put_byte(10);
    put_usage(&mut pen);
    pen.at
}

// A word, a number and what is said of it.
fn put_note(word: &[u8], number: u64, said: &[u8], pen: &mut Pen<'_>)
    ensures { WroteAtMost ((length word.now + 20) + length said.now) ((word.now ++ decimal number) ++ said.now) pen.old pen.new }
{
    pen.put_text(word);
    pen.put_decimal(number);
    pen.put_text(said);
}

// That a carriage return stands in the row for which a sheet's text is refused, where it decided so.
pub fn put_return_note(verdict: Result<(), Refusal>, returned: bool, out: &mut [u8]) -> usize
    requires { note_room ≤ length out.old }
    ensures { Stands (return_note verdict returned) out.old 0 result out.new }
{
    let Err(refusal) = verdict else {
        return 0;
    };
    match refusal.row() {
        Some(row) if returned => put_row_returned(row, out),
        _ => 0,
    }
}

// Which row of a sheet's text has a carriage return.
fn put_row_returned(row: u32, out: &mut [u8]) -> usize
    requires { note_room ≤ length out.old }
    ensures { Stands (row_returned row) out.old 0 result out.new }
{
    let mut pen = Pen { buf: out, at: 0 };
    put_note(
        b"row ",
        u64::from(row),
        b" has a carriage return; lines end in a line feed alone\n",
        &mut pen,
    );
    pen.at
}

// Which line of a question has a carriage return.
pub fn put_line_returned(line: u64, out: &mut [u8]) -> usize
    requires { note_room ≤ length out.old }
    ensures { Stands (line_returned line) out.old 0 result out.new }
{
    let mut pen = Pen { buf: out, at: 0 };
    put_note(
        b"line ",
        line,
        b": a carriage return; lines end in a line feed alone\n",
        &mut pen,
    );
    pen.at
}

// What the numbers of a line are.
fn put_expected(line: u64, pen: &mut Pen<'_>)
    ensures { WroteAtMost 25 (expected line) pen.old pen.new }
{
    if line == 1 {
        pen.put_text(b"A, c, h, mK\n");
    } else {
        pen.put_text(b"c, h, calorific value, q\n");
    }
}

// Which line of a question is not what was expected.
pub fn put_line_bad(line: u64, out: &mut [u8]) -> usize
    requires { note_room ≤ length out.old }
    ensures { Stands (line_bad line) out.old 0 result out.new }
{
    let mut pen = Pen { buf: out, at: 0 };
    put_note(
        b"line ",
        line,
        b": expected four whole numbers parted by tabs: ",
        &mut pen,
    );
    put_expected(line, &mut pen);
    pen.at
}

// A number that ends a line.
fn put_last(number: u32, pen: &mut Pen<'_>)
    ensures { WroteAtMost 21 (decimal number ++ bytes_of "\n") pen.old pen.new }
{
    pen.put_decimal(u64::from(number));
    pen.put_byte(10);
}

// What the sheet was refused with, and at which row.
fn put_sheet_note(refusal: Refusal, pen: &mut Pen<'_>)
    ensures { WroteAtMost note_room (sheet_note (numbered refusal)) pen.old pen.new }
{
    let number = u64::from(refusal.number());
    match refusal.row() {
        None => put_note(b"the sheet is refused with ", number, b"\n", pen),
        Some(row) => {
            put_note(b"the sheet is refused with ", number, b" at row ", pen);
            put_last(row, pen);
        }
    }
}

// What the sheet was refused with, where it was.
pub fn put_verdict_note(verdict: Result<(), Refusal>, out: &mut [u8]) -> usize
    requires { note_room ≤ length out.old }
    ensures { Stands (verdict_note verdict) out.old 0 result out.new }
{
    let mut pen = Pen { buf: out, at: 0 };
    put_verdict(verdict, &mut pen);
    pen.at
}

// The same with a pen.
fn put_verdict(verdict: Result<(), Refusal>, pen: &mut Pen<'_>)
    requires { pen.old.at ≤ length pen.old.buf.now }
    ensures { WroteAtMost note_room (verdict_note verdict) pen.old pen.new }
{
    if let Err(refusal) = verdict {
        put_sheet_note(refusal, pen);
    }
}

// What the start, or which step, was refused with.
fn put_walk_note(answer: Result<Course, Refusal>, pen: &mut Pen<'_>)
    requires { pen.old.at ≤ length pen.old.buf.now }
    ensures { WroteAtMost note_room (walk_note (paper_walk answer)) pen.old pen.new }
{
    match answer {
        Ok(course) => put_stop_note(course, pen),
        Err(refusal) => put_note(
            b"the start is refused with ",
            u64::from(refusal.number()),
            b"\n",
            pen,
        ),
    }
}

// Which step of a walk that began was refused, and with what.
fn put_stop_note(course: Course, pen: &mut Pen<'_>)
    requires { pen.old.at ≤ length pen.old.buf.now }
    ensures { WroteAtMost note_room (walk_note (paper_walk (Ok course))) pen.old pen.new }
{
    if let Some(refusal) = course.stop {
        let step = u64::from(course.steps) + 1;
        put_note(b"step ", step, b" is refused with ", pen);
        put_last(refusal.number(), pen);
    }
}

// Whose refusal a printed walk ends in, where it ends in one: the page shows its number alone.
pub fn put_refusal_note(
    verdict: Result<(), Refusal>,
    answer: Result<Course, Refusal>,
    out: &mut [u8],
) -> usize
    requires { note_room ≤ length out.old }
    ensures { Stands (refusal_note verdict (paper_walk answer)) out.old 0 result out.new }
{
    let mut pen = Pen { buf: out, at: 0 };
    put_refusal(verdict, answer, &mut pen);
    pen.at
}

// The same with a pen.
fn put_refusal(verdict: Result<(), Refusal>, answer: Result<Course, Refusal>, pen: &mut Pen<'_>)
    requires { pen.old.at ≤ length pen.old.buf.now }
    ensures { WroteAtMost note_room (refusal_note verdict (paper_walk answer)) pen.old pen.new }
{
    match verdict {
        Ok(()) => put_walk_note(answer, pen),
        Err(refusal) => put_sheet_note(refusal, pen),
    }
}
