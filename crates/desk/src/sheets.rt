// Sheets: read from an input piece by piece as it comes, judged once, reported; and a sheet's text printed. An input is read up to the byte that decides that its text is refused, or
// to its end, however long it is.
ghost use Rattle.std.specs.Prelude.{◌≡◌, length};
ghost use Rattle.sheet_text.specs.Limits.{most_text};
ghost use Rattle.desk.specs.Sheets.{Arrived};

use crate::buffers::{ARGUMENT, PIECE, zeros};
use crate::{arguments, pages};
use console::inner::JudgedSheet;
use forms::sheets;
use forms::sheets::Intake;
use sheet::pieces;
use std::io;
use std::io::Read;
use std::rt::{Env, Files};
use stream::Failed;

// Reads the sheet of an input; its turns are counted.
fn read_from<I: Read, E: Print>(
    input: &mut I,
    errors: &E,
    name: &[u8],
    piece: &mut [u8],
    list: &mut [u32; sheet::NUMBERS],
) -> Result<Intake, Failed>
    ensures { Arrived list.old result list.new }
{
    let mut intake = Intake {
        reading: pieces::open_reading(),
        returned: false,
    };
    for _ in 0..u64::MAX {
        let n = stream::read_some(input, errors, name, piece)?;
        if n == 0 {
            break;
        }
        intake = sheets::take_piece(intake.reading, &piece[..n], list);
        if !sheets::goes_on(intake.reading) {
            break;
        }
    }
    Ok(intake)
}

// Reads the sheet of an input, which a failure's line names.
fn read_input<I: Read, E: Print>(
    input: &mut I,
    errors: &E,
    name: &[u8],
    list: &mut [u32; sheet::NUMBERS],
) -> Result<Intake, Failed>
    ensures { Arrived list.old result list.new }
{
    let mut piece = zeros::<PIECE>();
    read_from(input, errors, name, &mut piece, list)
}

// Reads the sheet of the file that an argument names.
pub(crate) fn read_file<R: Files + Env, E: Print>(
    rt: &R,
    errors: &E,
    i: usize,
    list: &mut [u32; sheet::NUMBERS],
) -> Result<Intake, Failed>
    ensures { Arrived list.old result list.new }
{
    let mut name = zeros::<ARGUMENT>();
    let n = arguments::show(rt, i, &mut name);
    let mut file = arguments::open(rt, errors, i, &name[..n])?;
    read_input(&mut file, errors, &name[..n], list)
}

// Reads the sheet of the file that is named, or of standard input.
fn read_named<R: Files + Env + io::Input, E: Print>(
    rt: &R,
    errors: &E,
    named: Option<usize>,
    list: &mut [u32; sheet::NUMBERS],
) -> Result<Intake, Failed>
    ensures { Arrived list.old result list.new }
{
    match named {
        None => read_input(&mut rt.reader(), errors, b"standard input", list),
        Some(i) => read_file(rt, errors, i, list),
    }
}

// Says whether the sheet of the file that is named, or of standard input, is accepted.
pub(crate) fn report<R: Files + Env + io::Input + Print, E: Print>(
    rt: &R,
    errors: &E,
    named: Option<usize>,
) {
    let mut list = [0u32; sheet::NUMBERS];
    if let Ok(intake) = read_named(rt, errors, named, &mut list) {
        let mut out = [0u8; 64];
        let told = sheets::report(intake.reading, &list, &mut out);
        pages::say_return(errors, told.verdict, intake.returned);
        stream::flush(rt, errors, &out, Some(told.end));
    }
}

// Places for the text of a sheet.
// stays: a function of its own, since its clause says that MOST_TEXT is the most bytes of a text of the limits
fn sheet_places() -> [u8; sheet_text::MOST_TEXT]
    ensures { most_text ≡ length result }
{
    zeros()
}

// Prints the text of a sheet that was judged, or its refusal, which is said on standard error too: a text is often written to a file that nobody looks at.
pub(crate) fn write<W: Print, E: Print>(to: &W, errors: &E, judged: JudgedSheet<'_>) {
    let mut out = sheet_places();
    let verdict = judged.sheet.map(|_| ());
    let end = sheets::put_sheet_with_list(verdict, judged.list, &mut out);
    stream::flush(to, errors, &out, Some(end));
    pages::say_verdict(errors, verdict);
}
