// A sheet that comes in pieces, read and judged, the line that `keys sheet` prints, and the text that `keys write` prints.
ghost use Rattle.std.specs.Prelude.{◌≡◌, ◌≤◌, length, IfOk};
ghost use Rattle.rows.specs.Rows.{rows_h};
ghost use Rattle.text.specs.Puts.{Stands, WroteAtMost};
ghost use Rattle.sheet_text.specs.Limits.{most_text};
ghost use Rattle.sheet.specs.Pieces.{closed};
ghost use Rattle.wording.specs.Limits.{refusal_room};
ghost use Rattle.console.specs.Answers.{Judged, JudgedAfter, verdict_in, list_in};
ghost use Rattle.forms.specs.Limits.{report_room};
ghost use Rattle.forms.specs.Sheets.{goes_on, Takes, verdict_words, verdict_line, written_page, Reported};

use refusal::Refusal;
use sheet::pieces::SheetReading;
use sheet::{AcceptedSheet, pieces};
use sheet_text::writing;
use text::Pen;

// A verdict whose line stands in a buffer up to a place.
#[derive(Clone, Copy)]
pub struct Judgement {
    pub verdict: Result<(), Refusal>,
    pub end: usize,
}

// What has come of a sheet: where its reading stands, and whether a carriage return decided that it is refused.
#[derive(Clone, Copy)]
pub struct Intake {
    pub reading: SheetReading,
    pub returned: bool,
}

// Whether a reading goes on, and is neither refused nor accepted.
pub fn goes_on(reading: SheetReading) -> bool
    ensures { result ≡ goes_on reading }
{
    matches!(reading, SheetReading::Going(_))
}

// Reads the next piece of a sheet. It is cut before its first carriage return, which no sheet has, so that it shows whether that byte decides.
pub fn take_piece(reading: SheetReading, piece: &[u8], list: &mut [u32; sheet::NUMBERS]) -> Intake
    ensures { Takes reading piece.now list.old result list.new }
{
    let at = fields::place_of(13, piece, 0);
    let before = pieces::read_piece(reading, &piece[..at], list);
    let after = pieces::read_piece(before.reading, &piece[at..], list);
    Intake {
        reading: after.reading,
        returned: goes_on(before.reading) && at < piece.len(),
    }
}

// The sheet of which no more comes, accepted by its form and then by the step rule, over the air's heats.
pub fn accept<'a>(
    reading: SheetReading,
    list: &'a [u32; sheet::NUMBERS],
    heats: &'a [u32; rows::ROWS],
) -> Result<AcceptedSheet<'a>, Refusal>
    requires { heats.now ≡ rows_h }
    ensures verdict { JudgedAfter (closed reading).answer (verdict_in result) list.now }
    ensures same { IfOk result (λ s. s.list.now ≡ list.now) }
{
    pieces::close_reading(reading, list).answer?;
    sheet::inner::judge(list, heats)
}

// The verdict on a sheet of which no more comes.
pub fn judge(reading: SheetReading, list: &[u32; sheet::NUMBERS]) -> Result<(), Refusal>
    ensures { JudgedAfter (closed reading).answer result list.now }
{
    let heats = rows::columns::heat_column();
    accept(reading, list, &heats)?;
    Ok(())
}

// `accepted`, or the refusal.
fn put_word(verdict: Result<(), Refusal>, pen: &mut Pen<'_>)
    ensures { WroteAtMost refusal_room (verdict_words verdict) pen.old pen.new }
{
    match verdict {
        Ok(()) => pen.put_text(b"accepted"),
        Err(refusal) => wording::put_refusal(refusal, pen),
    }
}

// The line of a verdict.
fn put_verdict(verdict: Result<(), Refusal>, pen: &mut Pen<'_>)
    ensures { WroteAtMost report_room (verdict_line verdict) pen.old pen.new }
{
    put_word(verdict, pen);
    pen.put_byte(10);
}

// The line of the verdict on a sheet of which no more comes, with the verdict.
pub fn report(reading: SheetReading, list: &[u32; sheet::NUMBERS], out: &mut [u8]) -> Judgement
    requires { report_room ≤ length out.old }
    ensures { Reported reading list.now out.old result out.new }
{
    let verdict = judge(reading, list);
    let mut pen = Pen { buf: out, at: 0 };
    put_verdict(verdict, &mut pen);
    Judgement {
        verdict,
        end: pen.at,
    }
}

// The text of an accepted sheet, or the line of its refusal: the whole of it stands in the buffer.
pub fn put_sheet(sheet: Result<AcceptedSheet<'_>, Refusal>, out: &mut [u8]) -> usize
    requires { most_text ≤ length out.old }
    ensures { Stands (written_page (verdict_in sheet.entry) (list_in sheet.entry)) out.old 0 result out.new }
{
    match sheet {
        Ok(sheet) => {
            let bytes = writing::text_length(sheet.list);
            writing::write_text(sheet.list, bytes, out);
            bytes
        }
        Err(refusal) => {
            let mut pen = Pen { buf: out, at: 0 };
            put_verdict(Err(refusal), &mut pen);
            pen.at
        }
    }
}

// The same of a verdict and the list that it was given on, as the program writes it.
pub fn put_sheet_with_list(verdict: Result<(), Refusal>, list: &[u32], out: &mut [u8]) -> usize
    requires { ∥ Judged verdict list.now ∥₁ × (most_text ≤ length out.old) }
    ensures { Stands (written_page verdict list.now) out.old 0 result out.new }
{
    match verdict {
        Ok(()) => {
            let list = list.as_array::<{ sheet::NUMBERS }>().unwrap();
            let bytes = writing::text_length(list);
            writing::write_text(list, bytes, out);
            bytes
        }
        Err(_) => {
            let mut pen = Pen { buf: out, at: 0 };
            put_verdict(verdict, &mut pen);
            pen.at
        }
    }
}
