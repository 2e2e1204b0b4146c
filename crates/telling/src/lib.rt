// What the calls for C and Rust tell: each answer as one struct by value, set out by one definition of specs/Flat.antt: 0 or the refusal's number, its row and whether it
// has one, the values, and 0 in every field that a case does not have. A typed answer comes in by the number of its kind, and a reading in pieces as seven numbers
// (`pieces`). For `capi` above.
#![tactic(auto)]

pub mod pieces;

ghost use Rattle.std.specs.Prelude.{◌≡◌, Ok};
ghost use Rattle.refusal.specs.Refusals.{numbered};
ghost use Rattle.air.specs.Answers.{paper_reading, paper_psi};
ghost use Rattle.sheet.specs.Answers.{paper_sheet};
ghost use Rattle.sheet.specs.Writing.{paper_write};
ghost use Rattle.burning.specs.Answers.{paper_burn};
ghost use Rattle.gas.specs.Answers.{paper_heat, paper_specific, paper_temperature};
ghost use Rattle.walk.specs.Walk.{paper_walk};
ghost use Rattle.marking.specs.Marking.{paper_mark};
ghost use Rattle.marking.specs.Figures.{paper_station};
ghost use Rattle.telling.specs.Flat.{row_in, placed_in, flat_refusal, flat_sheet, flat_written, flat_reading, flat_burn, flat_heat, flat_temperature, flat_psi, flat_walk, flat_course, flat_station, flat_mark, typed_of};

use air::Millikelvin;
use burning::{Charge, Products};
use gas::Heat;
use marking::{Marked, StationFigure, Typed};
use refusal::Refusal;
use walk::Course;

// What the calls that read, judge or give a sheet tell.
#[repr(C)]
#[derive(Clone, Copy)]
pub struct SheetTold {
    pub refusal: u32,
    pub row: u32,
    pub placed: u32,
}

// The bytes of a text that was written into a buffer.
#[repr(C)]
#[derive(Clone, Copy)]
pub struct WrittenTold {
    pub refusal: u32,
    pub row: u32,
    pub placed: u32,
    pub bytes: usize,
}

// What a charge burns to, in mg.
#[repr(C)]
#[derive(Clone, Copy)]
pub struct BurnTold {
    pub refusal: u32,
    pub row: u32,
    pub placed: u32,
    pub co2: u64,
    pub h2o: u64,
    pub o2: u64,
    pub n2: u64,
    pub ar: u64,
}

// A gas heat or a content in mg times 0.00001 C.H.U./lb, or a specific content in 0.00001 C.H.U./lb.
#[repr(C)]
#[derive(Clone, Copy)]
pub struct HeatTold {
    pub refusal: u32,
    pub row: u32,
    pub placed: u32,
    pub heat: i64,
}

// A number read from the air table.
#[repr(C)]
#[derive(Clone, Copy)]
pub struct ReadingTold {
    pub refusal: u32,
    pub row: u32,
    pub placed: u32,
    pub reading: u64,
}

// The temperature of a gas heat, with the rest in mg times 0.00001 C.H.U./lb.
#[repr(C)]
#[derive(Clone, Copy)]
pub struct TemperatureTold {
    pub refusal: u32,
    pub row: u32,
    pub placed: u32,
    pub millikelvin: i64,
    pub rest: i64,
}

// The temperature of a psi of air, with the rest in 0.0000001.
#[repr(C)]
#[derive(Clone, Copy)]
pub struct PsiTold {
    pub refusal: u32,
    pub row: u32,
    pub placed: u32,
    pub millikelvin: i64,
    pub rest: u64,
}

// A walk. `begun` is 1 where it got past its start: done where `refusal` is 0, else stopped by that refusal of a step.
#[repr(C)]
#[derive(Clone, Copy)]
pub struct WalkTold {
    pub refusal: u32,
    pub row: u32,
    pub placed: u32,
    pub begun: u32,
    pub steps: u32,
    pub air: i64,
    pub carbon: i64,
    pub hydrogen: i64,
    pub millikelvin: i64,
}

// A station's three figures.
#[repr(C)]
#[derive(Clone, Copy)]
pub struct StationTold {
    pub refusal: u32,
    pub row: u32,
    pub placed: u32,
    pub millikelvin: f64,
    pub content: f64,
    pub mass: f64,
}

// A mark: `counts` is 1 where the answer counts.
#[repr(C)]
#[derive(Clone, Copy)]
pub struct MarkTold {
    pub refusal: u32,
    pub row: u32,
    pub placed: u32,
    pub counts: u32,
}

// what stands in `row` where there is none
const NO_ROW: u32 = 0;

// The row of a refusal.
fn row_of(refusal: Refusal) -> u32
    ensures { result ≡ row_in (numbered refusal) }
{
    refusal.row().unwrap_or(NO_ROW)
}

// Whether a refusal has a row: 1, else 0.
fn placed_of(refusal: Refusal) -> u32
    ensures { result ≡ placed_in (numbered refusal) }
{
    u32::from(refusal.row().is_some())
}

// What is told of a refusal, and of none: the first three fields of every struct.
pub(crate) fn tell_refusal(refusal: Option<Refusal>) -> SheetTold
    ensures { result ≡ flat_refusal refusal }
{
    match refusal {
        None => SheetTold {
            refusal: 0,
            row: NO_ROW,
            placed: 0,
        },
        Some(refusal) => SheetTold {
            refusal: refusal.number(),
            row: row_of(refusal),
            placed: placed_of(refusal),
        },
    }
}

// A sheet read or judged.
pub fn tell_sheet(answer: Result<(), Refusal>) -> SheetTold
    ensures { result ≡ flat_sheet (paper_sheet answer) }
{
    tell_refusal(answer.err())
}

// A sheet written.
pub fn tell_written(answer: Result<usize, Refusal>) -> WrittenTold
    ensures { result ≡ flat_written (paper_write answer) }
{
    let told = tell_refusal(answer.err());
    WrittenTold {
        refusal: told.refusal,
        row: told.row,
        placed: told.placed,
        bytes: answer.unwrap_or(0),
    }
}

// A number read from the air table.
pub fn tell_reading(answer: Result<u64, Refusal>) -> ReadingTold
    ensures { result ≡ flat_reading (paper_reading answer) }
{
    let told = tell_refusal(answer.err());
    ReadingTold {
        refusal: told.refusal,
        row: told.row,
        placed: told.placed,
        reading: answer.unwrap_or(0),
    }
}

// The products of a charge.
pub fn tell_burn(answer: Result<Products, Refusal>) -> BurnTold
    ensures { result ≡ flat_burn (paper_burn answer) }
{
    let told = tell_refusal(answer.err());
    let products = answer.unwrap_or(Products {
        co2: 0,
        h2o: 0,
        o2: 0,
        n2: 0,
        ar: 0,
    });
    BurnTold {
        refusal: told.refusal,
        row: told.row,
        placed: told.placed,
        co2: products.co2,
        h2o: products.h2o,
        o2: products.o2,
        n2: products.n2,
        ar: products.ar,
    }
}

// A gas heat or a content.
pub fn tell_heat(answer: Result<Heat, Refusal>) -> HeatTold
    ensures { result ≡ flat_heat (paper_heat answer) }
{
    let told = tell_refusal(answer.err());
    HeatTold {
        refusal: told.refusal,
        row: told.row,
        placed: told.placed,
        heat: answer.unwrap_or(Heat(0)).0,
    }
}

// A specific content.
pub fn tell_specific(answer: Result<i64, Refusal>) -> HeatTold
    ensures { result ≡ flat_heat (paper_specific answer) }
{
    tell_heat(answer.map(|heat| Heat(heat)))
}

// A temperature with its rest.
pub fn tell_temperature(answer: Result<(Millikelvin, Heat), Refusal>) -> TemperatureTold
    ensures { result ≡ flat_temperature (paper_temperature answer) }
{
    let told = tell_refusal(answer.err());
    let (t, rest) = answer.unwrap_or((Millikelvin(0), Heat(0)));
    TemperatureTold {
        refusal: told.refusal,
        row: told.row,
        placed: told.placed,
        millikelvin: t.0,
        rest: rest.0,
    }
}

// A temperature of air with its rest.
pub fn tell_psi(answer: Result<(Millikelvin, u64), Refusal>) -> PsiTold
    ensures { result ≡ flat_psi (paper_psi answer) }
{
    let told = tell_refusal(answer.err());
    let (t, rest) = answer.unwrap_or((Millikelvin(0), 0));
    PsiTold {
        refusal: told.refusal,
        row: told.row,
        placed: told.placed,
        millikelvin: t.0,
        rest,
    }
}

// A walk as a struct: its refusal, whether it began, the steps done, the charge and the temperature.
fn tell_course(told: SheetTold, begun: u32, steps: u32, charge: Charge, t: Millikelvin) -> WalkTold
    ensures { result ≡ flat_course told.refusal told.row told.placed begun steps charge t.0 }
{
    WalkTold {
        refusal: told.refusal,
        row: told.row,
        placed: told.placed,
        begun,
        steps,
        air: charge.air,
        carbon: charge.carbon,
        hydrogen: charge.hydrogen,
        millikelvin: t.0,
    }
}

// A walk that began: done, or stopped by the refusal of a step, of which the number alone is told.
fn tell_begun(course: Course) -> WalkTold
    ensures { result ≡ flat_walk (paper_walk (Ok course)) }
{
    let told = SheetTold {
        refusal: tell_refusal(course.stop).refusal,
        row: NO_ROW,
        placed: 0,
    };
    tell_course(told, 1, course.steps, course.charge, course.t)
}

// A walk done, stopped or refused at its start.
pub fn tell_walk(answer: Result<Course, Refusal>) -> WalkTold
    ensures { result ≡ flat_walk (paper_walk answer) }
{
    match answer {
        Ok(course) => tell_begun(course),
        Err(refusal) => {
            let none = burning::inner::charge_in(&[0i64; burning::inner::CHARGE_NUMBERS]);
            tell_course(tell_refusal(Some(refusal)), 0, 0, none, Millikelvin(0))
        }
    }
}

// A station's figures.
pub fn tell_station(answer: Result<StationFigure, Refusal>) -> StationTold
    ensures { result ≡ flat_station (paper_station answer) }
{
    let told = tell_refusal(answer.err());
    let figures = answer.unwrap_or(StationFigure {
        millikelvin: 0.0,
        content: 0.0,
        mass: 0.0,
    });
    StationTold {
        refusal: told.refusal,
        row: told.row,
        placed: told.placed,
        millikelvin: figures.millikelvin,
        content: figures.content,
        mass: figures.mass,
    }
}

// A typed answer by the number of its kind: 0 kelvins, 1 a specific content, else blank.
// stays: a number for the kind, and each answer told by a function and not by From, for the C interface: two answers of one type go to two structs.
pub fn typed_of(kind: u32, number: f64) -> Typed
    ensures { result ≡ typed_of kind number }
{
    match kind {
        0 => Typed::Kelvins(number),
        1 => Typed::Content(number),
        _ => Typed::Blank,
    }
}

// A mark.
pub fn tell_mark(answer: Result<Marked, Refusal>) -> MarkTold
    ensures { result ≡ flat_mark (paper_mark answer) }
{
    let told = tell_refusal(answer.err());
    MarkTold {
        refusal: told.refusal,
        row: told.row,
        placed: told.placed,
        counts: match answer {
            Ok(Marked::Counts) => 1,
            _ => 0,
        },
    }
}
