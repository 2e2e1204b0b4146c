// What the calls on a sheet in pieces tell, and how a reading goes to C and comes back: as seven numbers, every value of which means a reading (specs/Pieces.antt).
ghost use Rattle.std.specs.Prelude.{cond, ◌≡◌, ltb};
ghost use Rattle.sheet.specs.Answers.{paper_sheet};
ghost use Rattle.sheet.specs.Pieces.{paper_piece};
ghost use Rattle.telling.specs.Pieces.{place_in, reading_in, over_at, state_of, told_with, flat_piece, flat_closed};

use crate::SheetTold;
use sheet::pieces::{Closed, Progress, SheetReading, Taken};
use sheet_text::Place;

// Where a reading stands. At stage 0 it goes on from a place, 1 is refused with 2 at the row, 2 is accepted.
#[repr(C)]
#[derive(Clone, Copy)]
pub struct ReadingState {
    pub stage: u32,
    pub row: u32,
    pub field: u32,
    pub seen: u32,
    pub value: u32,
    pub first: u32,
    pub second: u32,
}

// What a piece or the close tells, with the reading after it: `more` is 1 where more is expected.
#[repr(C)]
#[derive(Clone, Copy)]
pub struct PieceTold {
    pub refusal: u32,
    pub row: u32,
    pub placed: u32,
    pub more: u32,
    pub reading: ReadingState,
}

// the stages
// stays: numbers and no enum, for the C interface: `ReadingState.stage` is a `u32` of C, and each number that comes back in it means a reading
const GOING: u32 = 0;

const REFUSED: u32 = 1;

const ACCEPTED: u32 = 2;

// The field of a number that is handed in: behind the last there is none.
fn field_in(field: u32) -> u8
    ensures { result ≡ cond (ltb field 3) field 3 }
{
    field.min(3) as u8
}

// The place of the numbers that are handed in.
#[tactic(auto, unfolding(crate::specs::Pieces::place_in))]
fn place_in(state: ReadingState) -> Place
    ensures { result ≡ place_in state }
{
    Place {
        row: state.row,
        field: field_in(state.field),
        value: state.value,
        seen: state.seen != 0,
        first: state.first,
        second: state.second,
    }
}

// The reading that is handed in, whatever its numbers.
pub fn reading_in(state: ReadingState) -> SheetReading
    ensures { result ≡ reading_in state }
{
    match state.stage {
        GOING => SheetReading::Going(place_in(state)),
        ACCEPTED => SheetReading::Accepted,
        _ => SheetReading::Refused(state.row),
    }
}

// The numbers of a reading that is over.
fn over_at(stage: u32, row: u32) -> ReadingState
    ensures { result ≡ over_at stage row }
{
    ReadingState {
        stage,
        row,
        field: 0,
        seen: 0,
        value: 0,
        first: 0,
        second: 0,
    }
}

// The numbers of a reading.
pub fn state_of(reading: SheetReading) -> ReadingState
    ensures { result ≡ state_of reading }
{
    match reading {
        SheetReading::Going(p) => ReadingState {
            stage: GOING,
            row: p.row,
            field: u32::from(p.field),
            seen: u32::from(p.seen),
            value: p.value,
            first: p.first,
            second: p.second,
        },
        SheetReading::Refused(row) => over_at(REFUSED, row),
        SheetReading::Accepted => over_at(ACCEPTED, 0),
    }
}

// What is told of a reading.
fn told_with(told: SheetTold, more: u32, reading: SheetReading) -> PieceTold
    ensures { result ≡ told_with told more reading }
{
    PieceTold {
        refusal: told.refusal,
        row: told.row,
        placed: told.placed,
        more,
        reading: state_of(reading),
    }
}

// A piece that was read.
pub fn tell_piece(taken: Taken) -> PieceTold
    ensures { result ≡ flat_piece (paper_piece taken.answer) taken.reading }
{
    let more = match taken.answer {
        Ok(Progress::More) => 1,
        _ => 0,
    };
    let told = crate::tell_refusal(taken.answer.err());
    told_with(told, more, taken.reading)
}

// A reading that was closed.
pub fn tell_closed(closed: Closed) -> PieceTold
    ensures { result ≡ flat_closed (paper_sheet closed.answer) closed.reading }
{
    let told = crate::tell_sheet(closed.answer);
    told_with(told, 0, closed.reading)
}
