// The rows of a sheet list, judged in order: each function is one definition of specs/Sheet.antt.
ghost use Rattle.std.specs.Prelude.{◌≡◌, ◌≤◌, ◌<◌, ◌+◌, ◌||◌, nat_lt};
ghost use Rattle.rows.specs.Limits.{first_kelvin, last_kelvin, table_rows};
ghost use Rattle.rows.specs.Rows.{rows_h};
ghost use Rattle.rows.specs.Table.{air_h};
ghost use Rattle.sheet_text.specs.Limits.{most_figure};
ghost use Rattle.sheet.specs.Sheet.{o2, co2, h2o, rise, breaks_step, bad_row, bad_row_found};

use crate::inner;

// A sheet list, with the air's heats to judge it by.
#[derive(Clone, Copy)]
pub(crate) struct SheetList<'a> {
    pub(crate) list: &'a [u32; crate::NUMBERS],
    pub(crate) heats: &'a [u32; rows::ROWS],
    ghost heats_are: { heats.now ≡ rows_h },
}

// The numbers of a row, read once for both of its tests.
#[derive(Clone, Copy)]
struct Row {
    o2: u64,
    co2: u64,
    h2o: u64,
}

// The numbers of the row of a kelvin.
fn row_at(sheet: SheetList<'_>, kelvin: u64) -> Row
    requires { (first_kelvin ≤ kelvin) × (kelvin ≤ last_kelvin) }
    ensures is { (result.o2 ≡ o2 sheet.entry.list.now kelvin) × (result.co2 ≡ co2 sheet.entry.list.now kelvin) × (result.h2o ≡ h2o sheet.entry.list.now kelvin) }
    ensures small { result.o2 < 4294967296 }
{
    Row {
        o2: inner::o2_at(sheet.list, kelvin),
        co2: inner::co2_at(sheet.list, kelvin),
        h2o: inner::h2o_at(sheet.list, kelvin),
    }
}

// Whether a row holds a value over the most.
fn over_limit(row: Row) -> bool
    ensures { result ≡ (nat_lt most_figure row.o2 || (nat_lt most_figure row.co2 || nat_lt most_figure row.h2o)) }
{
    row.o2 > sheet_text::MOST_FIGURE
        || row.co2 > sheet_text::MOST_FIGURE
        || row.h2o > sheet_text::MOST_FIGURE
}

// The rise of air's heat from a kelvin to the next.
fn air_rise(sheet: SheetList<'_>, kelvin: u64) -> u64
    requires { (first_kelvin ≤ kelvin) × (kelvin < last_kelvin) }
    ensures { (result ≡ rise air_h kelvin) × (result < 4294967296) }
{
    rows::figure(sheet.heats, kelvin + 1) - rows::figure(sheet.heats, kelvin)
}

// Whether the step rule is broken from a kelvin to the next, whose row is `to`.
#[tactic(auto, unfolding(crate::specs::Sheet::breaks_step))]
fn breaks_step(sheet: SheetList<'_>, kelvin: u64, to: Row) -> bool
    requires within { (first_kelvin ≤ kelvin) × (kelvin < last_kelvin) × (to.o2 < 4294967296) }
    requires is { (to.o2 ≡ o2 sheet.list.now (kelvin + 1)) × (to.co2 ≡ co2 sheet.list.now (kelvin + 1)) × (to.h2o ≡ h2o sheet.list.now (kelvin + 1)) }
    ensures { result ≡ breaks_step sheet.entry.list.now kelvin }
{
    let from = row_at(sheet, kelvin);
    to.o2 < from.o2
        || to.co2 < from.co2
        || to.h2o < from.h2o
        || 4 * air_rise(sheet, kelvin) < to.o2 - from.o2
}

// Whether a row is bad, the first by its values alone.
#[tactic(auto, using(crate::specs::SheetLaws::bad_row_at), unfolding(crate::specs::Sheet::over_limit))]
fn bad_row(sheet: SheetList<'_>, row: u32) -> bool
    requires { row < table_rows }
    ensures { result ≡ bad_row sheet.entry.list.now row }
{
    let kelvin = rows::FIRST_KELVIN + u64::from(row);
    let numbers = row_at(sheet, kelvin);
    over_limit(numbers) || (row > 0 && breaks_step(sheet, kelvin - 1, numbers))
}

// The first bad row, where there is one.
#[tactic(auto, using(crate::specs::SheetLaws::bad_found, crate::specs::SheetLaws::none_found))]
pub(crate) fn first_bad_row(sheet: SheetList<'_>) -> Option<u32>
    ensures { result ≡ bad_row_found sheet.entry.list.now }
{
    for row in 0..sheet_text::ROWS {
        if bad_row(sheet, row) {
            return Some(row);
        }
    }
    None
}
