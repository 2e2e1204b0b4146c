// The console: one request line in, one answer line out, fields parted by tabs (docs/PROGRAM.md). The answer's bytes are a definition's, `answer_of` of
// specs/Answers.antt, for every line and every sheet list: the numbers of the layers below as their own definitions tell them, in one definition of text. And the
// printed walk, `printed_walk` of specs/Walks.antt.
#![tactic(auto)]

mod columns;
pub mod inner;
mod judged;
mod marks;
mod replies;
mod requests;
mod rest;
mod walked;
mod walks;

ghost use Rattle.text.specs.Puts.{Puts};
ghost use Rattle.console.specs.Limits.{answer_room, page_room};
ghost use Rattle.console.specs.Answers.{answer_of};
ghost use Rattle.console.specs.Walks.{walk_told, printed_walk};

use air::Millikelvin;
use burning::Charge;
use columns::Table;
use judged::JudgedSheet;
use text::Pen;

// no answer line is longer, and no printed walk (specs/Limits.antt)
pub const ANSWER_ROOM: usize = 114 + 184 * walk::MOST_STEPS;

pub const PAGE_ROOM: usize = 38 + 84 * walk::MOST_STEPS;

// Puts the answer to a request line, its line feed with it, as far as there is room. Answers the place after it.
pub fn answer(line: &[u8], sheet: &[u32], out: &mut [u8], at: usize) -> usize
    ensures { Puts answer_room (answer_of (Ok tt) sheet.now line.now) out.old at result out.new }
{
    let heats = rows::columns::heat_column();
    let psis = rows::columns::psi_column();
    let cps = rows::columns::cp_column();
    let table = Table {
        heats: &heats,
        psis: &psis,
        cps: &cps,
    };
    let found = sheet::inner::judge(sheet, &heats);
    let judged = JudgedSheet {
        sheet: found,
        list: sheet,
    };
    let mut pen = Pen { buf: out, at };
    inner::answer_with_list(line, judged, table, &mut pen);
    pen.at
}

// Puts the walk of a charge from a temperature over the steps, four numbers each, as document 01 prints one, as far as there is room. Answers the place after it.
pub fn print_walk(
    charge: Charge,
    t: Millikelvin,
    steps: &[i64],
    sheet: &[u32],
    out: &mut [u8],
    at: usize,
) -> usize
    ensures { Puts page_room (printed_walk (walk_told (Ok tt) sheet.now charge t.0 steps.now)) out.old at result out.new }
{
    let heats = rows::columns::heat_column();
    let found = sheet::inner::judge(sheet, &heats);
    let judged = JudgedSheet {
        sheet: found,
        list: sheet,
    };
    let mut pen = Pen { buf: out, at };
    let _ = inner::print_with_list(charge, t, steps, judged, &mut pen);
    pen.at
}
