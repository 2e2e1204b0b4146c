// A sheet whose text comes in pieces (document 02, request 3): a reading is opened, goes on over each piece, which writes the rows that it completes, and is closed. Where it
// stands goes in and comes back by value; whatever is handed in has an answer (specs/Pieces.antt), and whatever the cutting it is the answer of `read_sheet` (`cut_as_you_like`).
ghost use Rattle.std.specs.Prelude.{◌≡◌};
ghost use Rattle.sheet.specs.Pieces.{opened, reading_of, standing, after_piece, answer_of, closed, refused_at as Pieces·refusedAt, PieceRead, ReadingClosed};

use crate::NUMBERS;
use refusal::Refusal;
use sheet_text::Place;

// Where a reading stands: at a place from which a good sheet can follow, refused with 2 at a row, or accepted.
// stays: three standings, which the C interface hands out and in (`telling::pieces`).
#[derive(Clone, Copy)]
pub enum SheetReading {
    Going(Place),
    Refused(u32),
    Accepted,
}

// What a piece is told that is not refused: more is expected, or the sheet is accepted.
#[derive(Clone, Copy)]
pub enum Progress {
    More,
    Accepted,
}

// The reading after a piece, with the answer.
// stays: this and the next, alike but for what is answered: `PieceRead` and `ReadingClosed`, and the laws over them, name the two types.
#[derive(Clone, Copy)]
pub struct Taken {
    pub reading: SheetReading,
    pub answer: Result<Progress, Refusal>,
}

// The reading after the close, with the answer: nothing more is expected.
#[derive(Clone, Copy)]
pub struct Closed {
    pub reading: SheetReading,
    pub answer: Result<(), Refusal>,
}

// A reading of which no byte has come.
pub fn open_reading() -> SheetReading
    ensures { result ≡ opened }
{
    SheetReading::Going(sheet_text::start())
}

// The reading that stands where the machine does.
fn reading_of(state: Result<Place, u32>) -> SheetReading
    ensures { result ≡ reading_of state }
{
    match state {
        Ok(place) => SheetReading::Going(place),
        Err(row) => SheetReading::Refused(row),
    }
}

// The answer of a reading.
fn answer_of(reading: SheetReading) -> Result<Progress, Refusal>
    ensures { result ≡ answer_of reading }
{
    match reading {
        SheetReading::Going(_) => Ok(Progress::More),
        SheetReading::Refused(row) => Err(Refusal::Form(row)),
        SheetReading::Accepted => Ok(Progress::Accepted),
    }
}

// The reading after the bytes of a piece, each row written as its line feed comes. One that is over stays.
#[tactic(auto, using(crate::specs::PiecesLaws::refused_stays, crate::specs::PiecesLaws::accepted_stays))]
fn go_on(reading: SheetReading, piece: &[u8], list: &mut [u32; NUMBERS]) -> SheetReading
    ensures { standing result list.new ≡ after_piece reading piece.now list.old }
{
    let SheetReading::Going(place) = reading else {
        return reading;
    };
    reading_of(sheet_text::fill(place, piece, list))
}

// Reads the next piece of a sheet's text, which may be empty, into the list that is lent each time.
pub fn read_piece(reading: SheetReading, piece: &[u8], list: &mut [u32]) -> Taken
    ensures { PieceRead reading piece.now list.old result list.new }
{
    let Some(list) = list.as_mut_array::<NUMBERS>() else {
        let answer = Err(Refusal::ListLength);
        return Taken { reading, answer };
    };
    let reading = go_on(reading, piece, list);
    let answer = answer_of(reading);
    Taken { reading, answer }
}

// A reading that is refused with 2 at a row.
fn refused_at(row: u32) -> Closed
    ensures { result ≡ Pieces·refusedAt row }
{
    Closed {
        reading: SheetReading::Refused(row),
        answer: Err(Refusal::Form(row)),
    }
}

// A reading closed: accepted where all rows are read, else refused at the row at which the text ends. One that is over stays.
fn close(reading: SheetReading) -> Closed
    ensures { result ≡ closed reading }
{
    let accepted = Closed {
        reading: SheetReading::Accepted,
        answer: Ok(()),
    };
    match reading {
        SheetReading::Going(place) => {
            if place.row == sheet_text::ROWS {
                accepted
            } else {
                refused_at(place.row)
            }
        }
        SheetReading::Refused(row) => refused_at(row),
        SheetReading::Accepted => accepted,
    }
}

// Closes a reading: no byte follows.
pub fn close_reading(reading: SheetReading, list: &[u32]) -> Closed
    ensures { ReadingClosed reading list.now result }
{
    if list.len() != NUMBERS {
        let answer = Err(Refusal::ListLength);
        return Closed { reading, answer };
    }
    close(reading)
}
