// The gas sheet (document 01, "The gas sheet"): its text read into a list, at once or in pieces (`pieces`; document 02, request 3), a list judged before it is used, and the
// text of a list written (document 02, request 1).
// Every call takes every input. What an answer tells, in the paper's numbers (`paper` of specs/Answers.antt and specs/Writing.antt), is the first refusal of its order whose
// condition holds. The conditions are of the text itself (specs/Text.antt of sheet_text) and of the list by kelvin (specs/Sheet.antt); a refusal leaves the list, or the
// buffer, as it was, but for the rows before the bad one of a text in pieces. What was written is read as the same list, and what was read is written as the same bytes where
// its list keeps the step rule (specs/WritingLaws.antt).
#![tactic(auto)]

pub mod accepted;
pub mod inner;
mod judging;
pub mod pieces;

ghost use Rattle.std.specs.Prelude.{◌≡◌};
ghost use Rattle.sheet.specs.Answers.{SheetRead, paper_sheet, judge_told};
ghost use Rattle.sheet.specs.Writing.{SheetWritten};

pub use accepted::AcceptedSheet;
use refusal::Refusal;
pub use sheet_text::NUMBERS;
use sheet_text::writing;

// Reads the text of a sheet into a list of its numbers, row by row: O2, CO2 and H2O of 200 K first.
pub fn read_sheet(text: &[u8], list: &mut [u32]) -> Result<(), Refusal>
    ensures { SheetRead text.now list.old result list.new }
{
    let fits = list.len() == NUMBERS;
    if !fits {
        return Err(Refusal::ListLength);
    }
    let mut numbers = [0u32; NUMBERS];
    let s = sheet_text::fill(sheet_text::start(), text, &mut numbers);
    if !sheet_text::whole_sheet(s) {
        return Err(Refusal::Form(sheet_text::row_of(s)));
    }
    inner::copy(&numbers, list);
    Ok(())
}

// Judges a sheet list: good where its length is 5,403 and no row is bad.
pub fn judge_sheet(list: &[u32]) -> Result<(), Refusal>
    ensures { paper_sheet result ≡ judge_told list.now }
{
    inner::judge(list, &rows::columns::heat_column())?;
    Ok(())
}

// Writes the text of a sheet list into the buffer from its first place on, and answers its bytes.
pub fn write_sheet(list: &[u32], buf: &mut [u8]) -> Result<usize, Refusal>
    ensures { SheetWritten list.now buf.old result buf.new }
{
    let heats = rows::columns::heat_column();
    let sheet = inner::judge(list, &heats)?;
    write_accepted(sheet, buf)
}

// The same of an accepted sheet. Its text is counted first, so that a buffer that is too short is left as it was.
#[tactic(auto, using(crate::proofs::Written::short_buffer))]
fn write_accepted(sheet: AcceptedSheet<'_>, buf: &mut [u8]) -> Result<usize, Refusal>
    ensures { SheetWritten sheet.entry.list.now buf.old result buf.new }
{
    let bytes = writing::text_length(sheet.list);
    if buf.len() < bytes {
        return Err(Refusal::ShortBuffer);
    }
    writing::write_text(sheet.list, bytes, buf);
    Ok(bytes)
}
