// A question (docs/PROGRAM.md): line by line as many numbers as a step has, first A, c, h, mK, then c, h, calorific value, q for each step; and the printed walk of it.
ghost use Rattle.std.specs.Prelude.{◌+◌, ◌≤◌, min, ◌≡◌, length};
ghost use Rattle.text.specs.Puts.{Stands};
ghost use Rattle.walk.specs.Limits.{step_numbers};
ghost use Rattle.walk.specs.Walk.{course, paper_walk};
ghost use Rattle.console.specs.Limits.{page_room};
ghost use Rattle.console.specs.Answers.{verdict_in, list_in};
ghost use Rattle.console.specs.Walks.{printed_walk};
ghost use Rattle.forms.specs.Limits.{kept_numbers, kept_lines};
ghost use Rattle.forms.specs.inner.Taking.{one_more, kept_line, with_next, numbers_next, with_line, numbers_with, question_told};

use air::Millikelvin;
use console::inner::JudgedSheet;
use refusal::Refusal;
use sheet::AcceptedSheet;
use text::Pen;
use walk::Course;

// The start and the steps of a walk that is one step too long: where the list is full, document 01 refuses the walk with 13.
const KEPT_LINES: u64 = walk::MOST_STEPS as u64 + 2;

// How many numbers are kept of a question.
pub const KEPT_NUMBERS: usize = walk::STEP_NUMBERS * (walk::MOST_STEPS + 2);

// Places for the numbers of a question.
pub fn places() -> [i64; KEPT_NUMBERS]
    ensures { kept_numbers ≡ length result }
{
    [0; KEPT_NUMBERS]
}

// Why a text is no question: the number of its first line that is not as many numbers as a step has, or that has a carriage return.
#[derive(Clone, Copy)]
pub enum BadLine {
    Numbers(u64),
    Returned(u64),
}

// A walk that was put into a buffer: the place after it, and what the walk came to.
#[derive(Clone, Copy)]
pub struct Printed {
    pub end: usize,
    pub answer: Result<Course, Refusal>,
}

// The count with one more.
fn one_more(n: u64) -> u64
    ensures { result ≡ one_more n }
{
    n.saturating_add(1)
}

// Keeps the numbers of line k, where the list has places for them.
fn keep_line(numbers: &mut [i64], k: u64, line: &[i64; walk::STEP_NUMBERS])
    requires { length line.now ≡ step_numbers }
    ensures { numbers.new ≡ kept_line k line.now numbers.old }
{
    if k < KEPT_LINES {
        let at = walk::STEP_NUMBERS * (k as usize);
        for i in 0..walk::STEP_NUMBERS {
            fields::keep(numbers, at + i, line[i]);
        }
    }
}

// How many lines there are with one line more after k that were good, or why it is none.
fn take_next(k: u64, line: &[u8], numbers: &mut [i64]) -> Result<u64, BadLine>
    ensures value { result ≡ with_next k line.now }
    ensures numbers_after { numbers.new ≡ numbers_next k line.now numbers.old }
{
    if fields::holds_return(line) {
        return Err(BadLine::Returned(one_more(k)));
    }
    let mut read = [0i64; walk::STEP_NUMBERS];
    if !fields::read_exactly(line, 0, &mut read) {
        return Err(BadLine::Numbers(one_more(k)));
    }
    keep_line(numbers, k, &read);
    Ok(one_more(k))
}

// The question with one line more, whose numbers are kept: how many lines were good, or the first that was not.
pub fn take(
    question: Result<u64, BadLine>,
    line: &[u8],
    numbers: &mut [i64],
) -> Result<u64, BadLine>
    ensures value { result ≡ with_line question line.now }
    ensures numbers_after { numbers.new ≡ numbers_with question line.now numbers.old }
{
    take_next(question?, line, numbers)
}

// How many of so many lines the list holds.
// stays: that there is a line is a clause here and above, where a type of one number would be no plainer.
fn kept(lines: u64) -> usize
    requires { 1 ≤ lines }
    ensures { (1 ≤ result) × (result ≡ min lines kept_lines) }
{
    lines.min(KEPT_LINES) as usize
}

// The printed walk of a question of so many lines over a sheet, accepted or refused: the whole page stands in the buffer. What the walk came to is answered with its end.
pub fn put_page(
    lines: u64,
    numbers: &[i64; KEPT_NUMBERS],
    sheet: Result<AcceptedSheet<'_>, Refusal>,
    out: &mut [u8],
    at: usize,
) -> Printed
    requires { (1 ≤ lines) × (at + page_room ≤ length out.old) }
    ensures stands { Stands (printed_walk (question_told (verdict_in sheet.entry) (list_in sheet.entry) lines numbers.now)) out.old at result.end out.new }
    ensures answer_value { paper_walk result.answer ≡ course (question_told (verdict_in sheet.entry) (list_in sheet.entry) lines numbers.now) }
{
    let start = burning::inner::charge_in(numbers);
    let t = Millikelvin(numbers[burning::inner::CHARGE_NUMBERS]);
    let end: usize = walk::STEP_NUMBERS * kept(lines);
    let steps = &numbers[walk::STEP_NUMBERS..end];
    let mut pen = Pen { buf: out, at };
    let answer = console::inner::print_judged(start, t, steps, sheet, &mut pen);
    Printed {
        end: pen.at,
        answer,
    }
}

// The same over a sheet with the list that it was judged on, as the program prints it.
pub fn put_page_with_list(
    lines: u64,
    numbers: &[i64; KEPT_NUMBERS],
    judged: JudgedSheet<'_>,
    out: &mut [u8],
    at: usize,
) -> Printed
    requires { (1 ≤ lines) × (at + page_room ≤ length out.old) }
    ensures stands { Stands (printed_walk (question_told (verdict_in judged.entry.sheet) (list_in judged.entry.sheet) lines numbers.now)) out.old at result.end out.new }
    ensures answer_value { paper_walk result.answer ≡ course (question_told (verdict_in judged.entry.sheet) (list_in judged.entry.sheet) lines numbers.now) }
{
    let start = burning::inner::charge_in(numbers);
    let t = Millikelvin(numbers[burning::inner::CHARGE_NUMBERS]);
    let end = walk::STEP_NUMBERS * kept(lines);
    let steps = &numbers[walk::STEP_NUMBERS..end];
    let mut pen = Pen { buf: out, at };
    let answer = console::inner::print_with_list(start, t, steps, judged, &mut pen);
    Printed {
        end: pen.at,
        answer,
    }
}
