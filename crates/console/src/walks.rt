// Walks as the console shows them: in a line, as the answer to a request, or on a page, as document 01 prints one (specs/Walks.antt). One loop puts the steps of both.
ghost use Rattle.std.specs.Prelude.{◌≡◌, ◌*◌, ◌≤◌, length};
ghost use Rattle.text.specs.Puts.{WroteAtMost};
ghost use Rattle.walk.specs.Limits.{most_steps, most_looks};
ghost use Rattle.walk.specs.Lists.{lists};
ghost use Rattle.walk.specs.Walk.{course, paper_walk, Walks};
ghost use Rattle.wording.specs.Texts.{used};
ghost use Rattle.console.specs.Limits.{in_line_room, on_page_room, end_room, reply_room, page_room};
ghost use Rattle.console.specs.Answers.{verdict_in, list_in};
ghost use Rattle.console.specs.Walks.{walk_told, in_line, on_page, step_text, refused_line, end_text, walk_request};
ghost use Rattle.console.specs.inner.Left.{fields_left};
ghost use Rattle.console.specs.inner.Shown.{steps_in, layout_text, step_room, walk_room};
ghost use Rattle.console.specs.inner.Walked.{steps_shown_by, walk_shown_by};

use crate::replies;
use crate::rest::Rest;
use crate::walked::{StepDone, Walked};
use air::Millikelvin;
use burning::Charge;
use refusal::Refusal;
use sheet::AcceptedSheet;
use text::Pen;
use walk::Course;

// How a walk is shown: in one line, or on a page with a line for each step.
#[derive(Clone, Copy)]
pub enum Layout {
    Line,
    Page,
}

// the numbers of a start: A, c, h and mK
pub(crate) const START_NUMBERS: usize = burning::inner::CHARGE_NUMBERS + 1;
// places for a start, the steps of the longest walk, and one number more, by which too many are known
const HELD_NUMBERS: usize = START_NUMBERS + walk::MOST_NUMBERS + 1;

// How many steps were done.
fn steps_done(answer: Result<Course, Refusal>) -> usize
    ensures { result ≡ steps_in (paper_walk answer) }
{
    match answer {
        Ok(course) => course.steps as usize,
        Err(_) => 0,
    }
}

// A step in a line: mK, rest, the number of looks that its places hold, the looks.
fn put_in_line(step: StepDone<'_>, pen: &mut Pen<'_>)
    ensures { WroteAtMost in_line_room (in_line step.entry.mk step.entry.rest (used step.entry.looks.now)) pen.old pen.new }
{
    wording::put_signed(step.mk, pen);
    wording::put_signed(step.rest, pen);
    wording::put_looks(step.looks, pen);
}

// A step on a page: its number, mK, rest and the number of looks that its places hold.
fn put_on_page(number: usize, step: StepDone<'_>, pen: &mut Pen<'_>)
    ensures { WroteAtMost on_page_room (on_page number step.entry.mk step.entry.rest (used step.entry.looks.now)) pen.old pen.new }
{
    pen.put_decimal(number as u64);
    wording::put_signed(step.mk, pen);
    wording::put_signed(step.rest, pen);
    wording::put_number(wording::count_looks(step.looks) as u64, pen);
    pen.put_byte(10);
}

// A step as the layout has it.
fn put_step(layout: Layout, number: usize, step: StepDone<'_>, pen: &mut Pen<'_>)
    ensures { WroteAtMost (step_room layout) (step_text layout number step.entry.mk step.entry.rest (used step.entry.looks.now)) pen.old pen.new }
{
    match layout {
        Layout::Line => put_in_line(step, pen),
        Layout::Page => put_on_page(number, step, pen),
    }
}

// The steps that a walk did.
fn put_steps(layout: Layout, walked: Walked<'_>, pen: &mut Pen<'_>)
    requires { pen.old.at ≤ length pen.old.buf.now }
    ensures { WroteAtMost (step_room layout * steps_in (paper_walk walked.entry.answer)) (steps_shown_by layout walked.entry) pen.old pen.new }
{
    let n = steps_done(walked.answer);
    for i in 0..n {
        let from = air::LOOK_PLACES * i;
        let step = StepDone {
            mk: walked.temperatures[i],
            rest: walked.rests[i],
            looks: &walked.looks[from..from + air::LOOK_PLACES],
        };
        put_step(layout, i + 1, step, pen);
    }
}

// `refused` and the number, in a line of their own.
fn put_refused(number: u32, pen: &mut Pen<'_>)
    ensures { WroteAtMost end_room (refused_line number) pen.old pen.new }
{
    pen.put_text(b"refused");
    wording::put_small(number, pen);
    pen.put_byte(10);
}

// What stands on a page after the lines of the steps done.
fn put_end(answer: Result<Course, Refusal>, pen: &mut Pen<'_>)
    requires { pen.old.at ≤ length pen.old.buf.now }
    ensures { WroteAtMost end_room (end_text (paper_walk answer)) pen.old pen.new }
{
    let stop = match answer {
        Ok(course) => course.stop,
        Err(refusal) => Some(refusal),
    };
    if let Some(refusal) = stop {
        put_refused(refusal.number(), pen);
    }
}

// A walk in a line, from its answer and the lists that it wrote.
fn put_line(walked: Walked<'_>, pen: &mut Pen<'_>)
    ensures { WroteAtMost reply_room (walk_shown_by Layout.Line walked.entry) pen.old pen.new }
{
    wording::put_course(walked.answer, pen);
    put_steps(Layout::Line, walked, pen);
}

// A walk on a page.
fn put_page(walked: Walked<'_>, pen: &mut Pen<'_>)
    ensures { WroteAtMost page_room (walk_shown_by Layout.Page walked.entry) pen.old pen.new }
{
    pen.put_text(b"step\tmK\trest\tlooks\n");
    put_steps(Layout::Page, walked, pen);
    put_end(walked.answer, pen);
}

// A walk as the layout has it.
fn put_walk(layout: Layout, walked: Walked<'_>, pen: &mut Pen<'_>)
    ensures { WroteAtMost (walk_room layout) (walk_shown_by layout walked.entry) pen.old pen.new }
{
    match layout {
        Layout::Line => put_line(walked, pen),
        Layout::Page => put_page(walked, pen),
    }
}

// A walk over a sheet that was judged when it was read: with its refusal, where it was refused.
// stays: charge, t and steps apart, and the three lists, as the entries print_walk and walk::walk take them, whose signatures may not change.
fn walk_held(
    charge: Charge,
    t: Millikelvin,
    steps: &[i64],
    temperatures: &mut [i64],
    rests: &mut [i64],
    looks: &mut [u32],
    sheet: Result<AcceptedSheet<'_>, Refusal>,
) -> Result<Course, Refusal>
    requires { (length temperatures.old ≡ most_steps) × (length rests.old ≡ most_steps) × (length looks.old ≡ most_looks) }
    ensures { Walks (walk_told (verdict_in sheet.entry) (list_in sheet.entry) charge t.0 steps.now)
        (lists temperatures.old rests.old looks.old) result
        (lists temperatures.new rests.new looks.new) }
{
    walk::inner::walk_judged(charge, t, steps, temperatures, rests, looks, sheet?)
}

// A walk with lists for the longest, as the layout has it.
pub(crate) fn show(
    layout: Layout,
    charge: Charge,
    t: Millikelvin,
    steps: &[i64],
    sheet: Result<AcceptedSheet<'_>, Refusal>,
    pen: &mut Pen<'_>,
) -> Result<Course, Refusal>
    ensures puts { WroteAtMost (walk_room layout) (layout_text layout (walk_told (verdict_in sheet.entry) (list_in sheet.entry) charge t.0 steps.now)) pen.old pen.new }
    ensures answer_value { paper_walk result ≡ course (walk_told (verdict_in sheet.entry) (list_in sheet.entry) charge t.0 steps.now) }
{
    let mut temperatures = [0i64; walk::MOST_STEPS];
    let mut rests = [0i64; walk::MOST_STEPS];
    let mut looks = [0u32; walk::MOST_LOOKS];
    let answer = walk_held(
        charge,
        t,
        steps,
        &mut temperatures,
        &mut rests,
        &mut looks,
        sheet,
    );
    let walked = Walked {
        answer,
        temperatures: &temperatures,
        rests: &rests,
        looks: &looks,
    };
    put_walk(layout, walked, pen);
    answer
}

// walk A c h mK n1 n2 .. The list has a place more than a start and the steps of the longest walk: where it is full, there are too many.
pub(crate) fn reply_walk(
    rest: Rest<'_>,
    sheet: Result<AcceptedSheet<'_>, Refusal>,
    pen: &mut Pen<'_>,
)
    ensures { WroteAtMost reply_room (walk_request (verdict_in sheet.entry) (list_in sheet.entry) (fields_left rest.entry)) pen.old pen.new }
{
    let mut list = [0i64; HELD_NUMBERS];
    let read = fields::read_numbers(rest.line, rest.from, &mut list);
    let n = fields::held_of(read, HELD_NUMBERS);
    if n < START_NUMBERS {
        return replies::put_misfit(pen);
    }
    let start = burning::inner::charge_in(&list);
    let t = Millikelvin(list[burning::inner::CHARGE_NUMBERS]);
    let steps = &list[START_NUMBERS..n];
    let _ = show(Layout::Line, start, t, steps, sheet, pen);
}
