// The wording of an answer (docs/PROGRAM.md): what a call told, as text put into a lent buffer, part after part.
// Each function promises the bytes of one definition of specs/Texts.antt, that all others stay, and the most bytes that the text has, by specs/Limits.antt. All are inner doors of the programs.
#![tactic(auto)]

mod tabbed;

ghost use Rattle.std.specs.Prelude.{◌*◌, ◌≤◌, ◌≡◌, ◌∷◌, map, length, take, pos};
ghost use Rattle.text.specs.Decimal.{decimal, decimal_z};
ghost use Rattle.text.specs.Puts.{WroteAtMost};
ghost use Rattle.refusal.specs.Refusals.{numbered, told_as};
ghost use Rattle.air.specs.Answers.{paper_reading, paper_psi};
ghost use Rattle.gas.specs.Answers.{paper_heat, paper_specific, paper_temperature};
ghost use Rattle.walk.specs.Walk.{paper_walk};
ghost use Rattle.marking.specs.Figures.{paper_numbers};
ghost use Rattle.marking.specs.Marking.{paper_mark};
ghost use Rattle.wording.specs.Limits.{field, small, refusal_room, values_room, looks_room, inverse_room, state_room, course_room};
ghost use Rattle.wording.specs.Texts.{refusal_text, told_text, fields_text, used, found, counted_text, reading_text, inverse_text, products_text, whole_text, station_text, mark_text, state_text, course_text};

use air::Millikelvin;
use burning::{Charge, Products};
use gas::Heat;
use marking::Marked;
use marking::inner::StationNumbers;
use refusal::Refusal;
use tabbed::Tabbed;
use text::Pen;
use walk::Course;

// A tab and a number.
pub fn put_number(n: u64, pen: &mut Pen<'_>)
    ensures { WroteAtMost field (9 ∷ decimal n) pen.old pen.new }
{
    pen.put_byte(9);
    pen.put_decimal(n);
}

// A tab and a number of 32 bits: the same text, and a narrower bound.
// stays: beside `put_number`, for its clause of a narrower bound (`small`), by which the room of an answer is counted
pub fn put_small(n: u32, pen: &mut Pen<'_>)
    ensures { WroteAtMost small (9 ∷ decimal n) pen.old pen.new }
{
    pen.put_byte(9);
    pen.put_decimal(u64::from(n));
}

// A tab and a signed number.
pub fn put_signed(z: i64, pen: &mut Pen<'_>)
    ensures { WroteAtMost field (9 ∷ decimal_z z) pen.old pen.new }
{
    pen.put_byte(9);
    pen.put_whole(z);
}

// Numbers, a tab before each.
fn put_numbers(numbers: &[i64], pen: &mut Pen<'_>)
    requires { pen.old.at ≤ length pen.old.buf.now }
    ensures { WroteAtMost (field * length numbers.now) (fields_text numbers.now) pen.old pen.new }
{
    for z in numbers {
        put_signed(*z, pen);
    }
}

// `refused`, the number and, where there is one, the row.
pub fn put_refusal(refusal: Refusal, pen: &mut Pen<'_>)
    ensures { WroteAtMost refusal_room (refusal_text (numbered refusal)) pen.old pen.new }
{
    pen.put_text(b"refused");
    put_small(refusal.number(), pen);
    if let Some(row) = refusal.row() {
        put_small(row, pen);
    }
}

// `ok` and a number, or the refusal.
fn put_value<T: Tabbed>(answer: Result<T, Refusal>, pen: &mut Pen<'_>)
    ensures { WroteAtMost values_room (whole_text (told_as T.value answer)) pen.old pen.new }
{
    match answer {
        Ok(value) => {
            pen.put_text(b"ok");
            value.put(pen);
        }
        Err(refusal) => put_refusal(refusal, pen),
    }
}

// `ok` and a reading of the air table, or its refusal.
pub fn put_reading(reading: Result<u64, Refusal>, pen: &mut Pen<'_>)
    ensures { WroteAtMost values_room (reading_text (paper_reading reading)) pen.old pen.new }
{
    put_value(reading, pen);
}

// How many looks stand before the first unused place.
#[tactic(auto, using(crate::specs::TextsLaws::used_none, crate::specs::TextsLaws::used_more, crate::specs::TextsLaws::used_end))]
pub fn count_looks(looks: &[u32]) -> usize
    ensures { result ≡ length (used looks.now) }
{
    for i in 0..looks.len() {
        if looks[i] == 0 {
            return i;
        }
    }
    looks.len()
}

// The first n looks, a tab before each.
fn put_first(looks: &[u32], n: usize, pen: &mut Pen<'_>)
    requires { (n ≤ length looks.now) × (pen.old.at ≤ length pen.old.buf.now) }
    ensures { WroteAtMost (small * n) (fields_text (map pos (take n looks.now))) pen.old pen.new }
{
    for look in &looks[..n] {
        put_small(*look, pen);
    }
}

// The number of looks that eleven places hold, and the looks.
pub fn put_looks(looks: &[u32], pen: &mut Pen<'_>)
    ensures { WroteAtMost (looks_room (length looks.now)) (counted_text (used looks.now)) pen.old pen.new }
{
    let n = count_looks(looks);
    put_number(n as u64, pen);
    put_first(looks, n, pen);
}

// `ok`, mK, the rest and the looks that the places hold; or the refusal.
fn put_found<T: Tabbed>(answer: Result<(Millikelvin, T), Refusal>, looks: &[u32], pen: &mut Pen<'_>)
    ensures { WroteAtMost (inverse_room (length looks.now)) (inverse_text (told_as (λ f. found f.0.0 (T.value f.1)) answer) (used looks.now)) pen.old pen.new }
{
    match answer {
        Ok(pair) => {
            pen.put_text(b"ok");
            pair.0.put(pen);
            pair.1.put(pen);
            put_looks(looks, pen);
        }
        Err(refusal) => put_refusal(refusal, pen),
    }
}

// `ok`, the mK of a psi, its rest and the looks that the places hold; or the refusal.
pub fn put_psi(answer: Result<(Millikelvin, u64), Refusal>, looks: &[u32], pen: &mut Pen<'_>)
    ensures { WroteAtMost (inverse_room (length looks.now)) (inverse_text (paper_psi answer) (used looks.now)) pen.old pen.new }
{
    put_found(answer, looks, pen);
}

// `ok` and the products of a charge.
pub fn put_products(products: Products, pen: &mut Pen<'_>)
    ensures { WroteAtMost values_room (products_text products) pen.old pen.new }
{
    pen.put_text(b"ok");
    put_number(products.co2, pen);
    put_number(products.h2o, pen);
    put_number(products.o2, pen);
    put_number(products.n2, pen);
    put_number(products.ar, pen);
}

// `ok` and a gas heat or a content, or its refusal.
pub fn put_heat(answer: Result<Heat, Refusal>, pen: &mut Pen<'_>)
    ensures { WroteAtMost values_room (whole_text (paper_heat answer)) pen.old pen.new }
{
    put_value(answer, pen);
}

// `ok` and a specific content, or its refusal.
pub fn put_specific(answer: Result<i64, Refusal>, pen: &mut Pen<'_>)
    ensures { WroteAtMost values_room (whole_text (paper_specific answer)) pen.old pen.new }
{
    put_value(answer, pen);
}

// `ok`, the mK of a heat, its rest and the looks that the places hold; or the refusal.
pub fn put_temperature(
    answer: Result<(Millikelvin, Heat), Refusal>,
    looks: &[u32],
    pen: &mut Pen<'_>,
)
    ensures { WroteAtMost (inverse_room (length looks.now)) (inverse_text (paper_temperature answer) (used looks.now)) pen.old pen.new }
{
    put_found(answer, looks, pen);
}

// `ok`, a station's mK, specific content and total mass, or its refusal.
pub fn put_station(answer: Result<StationNumbers, Refusal>, pen: &mut Pen<'_>)
    ensures { WroteAtMost values_room (station_text (paper_numbers answer)) pen.old pen.new }
{
    match answer {
        Ok(n) => {
            pen.put_text(b"ok");
            put_signed(n.mk, pen);
            put_signed(n.specific, pen);
            put_signed(n.mass, pen);
        }
        Err(refusal) => put_refusal(refusal, pen),
    }
}

// `counts` or `misses`, or the refusal.
pub fn put_mark(answer: Result<Marked, Refusal>, pen: &mut Pen<'_>)
    ensures { WroteAtMost values_room (mark_text (paper_mark answer)) pen.old pen.new }
{
    match answer {
        Ok(Marked::Counts) => pen.put_text(b"counts"),
        Ok(Marked::Misses) => pen.put_text(b"misses"),
        Err(refusal) => put_refusal(refusal, pen),
    }
}

// The numbers of the charge, and mK.
fn put_state(charge: Charge, t: Millikelvin, pen: &mut Pen<'_>)
    requires { pen.old.at ≤ length pen.old.buf.now }
    ensures { WroteAtMost state_room (state_text charge t.0) pen.old pen.new }
{
    let numbers = burning::inner::numbers_of(charge);
    put_numbers(&numbers, pen);
    t.put(pen);
}

// How a walk ended.
pub fn put_course(answer: Result<Course, Refusal>, pen: &mut Pen<'_>)
    ensures { WroteAtMost course_room (told_text course_text (paper_walk answer)) pen.old pen.new }
{
    let course = match answer {
        Ok(course) => course,
        Err(refusal) => return put_refusal(refusal, pen),
    };
    match course.stop {
        None => {
            pen.put_text(b"ok");
            put_small(course.steps, pen);
        }
        Some(refusal) => {
            pen.put_text(b"stopped");
            put_small(course.steps, pen);
            put_small(refusal.number(), pen);
        }
    }
    put_state(course.charge, course.t, pen);
}
