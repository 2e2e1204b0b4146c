// The inner doors of console: answers over a sheet, accepted or refused, and over one with the list that it was judged on, as the programs beside it ask, with the columns of Table 1 lent, which a program builds once.
ghost use Rattle.std.specs.Prelude.{◌≡◌};
ghost use Rattle.text.specs.Puts.{WroteAtMost};
ghost use Rattle.walk.specs.Walk.{course, paper_walk};
ghost use Rattle.console.specs.Limits.{reply_room, answer_room, page_room};
ghost use Rattle.console.specs.Answers.{verdict_in, list_in, line_text, answer_of};
ghost use Rattle.console.specs.Walks.{walk_told, printed_walk};

pub use crate::columns::Table;
pub use crate::judged::JudgedSheet;
use crate::rest::Rest;
use crate::walks::Layout;
use crate::{replies, requests, rest, walks};
use air::Millikelvin;
use burning::Charge;
use refusal::Refusal;
use sheet::AcceptedSheet;
use text::Pen;
use walk::Course;

// The answer to a request line, its line feed with it, over a sheet, accepted or refused.
pub fn answer_judged(
    line: &[u8],
    sheet: Result<AcceptedSheet<'_>, Refusal>,
    table: Table<'_>,
    pen: &mut Pen<'_>,
)
    ensures { WroteAtMost answer_room (answer_of (verdict_in sheet.entry) (list_in sheet.entry) line.now) pen.old pen.new }
{
    put_reply(line, sheet, table, pen);
    pen.put_byte(b'\n');
}

// The same over a sheet with the list that it was judged on, as the programs ask it: a refusal that is told is the judge's.
pub fn answer_with_list(line: &[u8], judged: JudgedSheet<'_>, table: Table<'_>, pen: &mut Pen<'_>)
    ensures { WroteAtMost answer_room (answer_of (verdict_in judged.entry.sheet) (list_in judged.entry.sheet) line.now) pen.old pen.new }
{
    put_reply(line, judged.sheet, table, pen);
    pen.put_byte(10);
}

// What is said to a line: that it has a carriage return, or the reply to its request.
fn put_reply(
    line: &[u8],
    sheet: Result<AcceptedSheet<'_>, Refusal>,
    table: Table<'_>,
    pen: &mut Pen<'_>,
)
    ensures { WroteAtMost reply_room (line_text (verdict_in sheet.entry) (list_in sheet.entry) line.now) pen.old pen.new }
{
    if fields::holds_return(line) {
        return pen.put_text(b"error\tthe line has a carriage return");
    }
    let Some((word, rest)) = rest::next_field(Rest { line, from: 0 }) else {
        return replies::put_unknown(pen);
    };
    replies::reply(requests::request_of(word), rest, sheet, table, pen);
}

// The printed walk over a sheet, accepted or refused.
pub fn print_judged(
    charge: Charge,
    t: Millikelvin,
    steps: &[i64],
    sheet: Result<AcceptedSheet<'_>, Refusal>,
    pen: &mut Pen<'_>,
) -> Result<Course, Refusal>
    ensures puts { WroteAtMost page_room (printed_walk (walk_told (verdict_in sheet.entry) (list_in sheet.entry) charge t.0 steps.now)) pen.old pen.new }
    ensures answer_value { paper_walk result ≡ course (walk_told (verdict_in sheet.entry) (list_in sheet.entry) charge t.0 steps.now) }
{
    walks::show(Layout::Page, charge, t, steps, sheet, pen)
}

// The same over a sheet with the list that it was judged on.
pub fn print_with_list(
    charge: Charge,
    t: Millikelvin,
    steps: &[i64],
    judged: JudgedSheet<'_>,
    pen: &mut Pen<'_>,
) -> Result<Course, Refusal>
    ensures puts { WroteAtMost page_room (printed_walk (walk_told (verdict_in judged.entry.sheet) (list_in judged.entry.sheet) charge t.0 steps.now)) pen.old pen.new }
    ensures answer_value { paper_walk result ≡ course (walk_told (verdict_in judged.entry.sheet) (list_in judged.entry.sheet) charge t.0 steps.now) }
{
    walks::show(Layout::Page, charge, t, steps, judged.sheet, pen)
}
