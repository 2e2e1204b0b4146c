// The text of a sheet (document 01, "The gas sheet"), read byte by byte: a place in the sheet by value, moved on by one byte at a time, and the numbers put into a list. For
// `sheet` above, which tells the answer: each function is one definition of specs/Machine.antt, and the laws show that what it finds is the form of the text (specs/Text.antt).
// `writing` counts and writes that text.
#![tactic(auto)]

pub mod writing;

ghost use Rattle.std.specs.Prelude.{◌≡◌, Ok, ◌+◌, ◌*◌, ◌<◌};
ghost use Rattle.rows.specs.Limits.{table_rows};
ghost use Rattle.text.specs.Fold.{run};
ghost use Rattle.sheet_text.specs.Machine.{begins as Machine·begins, takes_digit, with_digit, whole as Machine·whole, closer as Machine·closer, after as Machine·after, step_digit, ends_field, step_end, step_place, start as Machine·start, row_of, whole_sheet, ends_row, stored_place, filled, fill_byte};

// the rows of a sheet, as a row is counted, and the kelvin of the first
pub const ROWS: u32 = rows::ROWS as u32;

const FIRST_KELVIN: u32 = rows::FIRST_KELVIN as u32;

// the numbers of a sheet list, three a row
pub const NUMBERS: usize = 3 * rows::ROWS;
// no value is over it
pub const MOST_FIGURE: u64 = 200000;
// no text of a sheet has more bytes
pub const MOST_TEXT: usize = 46026;

// Where the reader stands: the row, the field in it, the number so far and whether it has a digit, and the row's first two numbers.
// stays: the number beside the flag that it has a digit, where an Option would be both: the C interface hands these fields out and in (`telling::pieces`).
#[derive(Clone, Copy)]
pub struct Place {
    pub row: u32,
    pub field: u8,
    pub value: u32,
    pub seen: bool,
    pub first: u32,
    pub second: u32,
}

// Whether the digits of v begin those of the kelvin k.
#[tactic(auto, unfolding(crate::specs::Machine::begins))]
fn begins(k: u64, v: u64) -> bool
    ensures { result ≡ Machine·begins k v }
{
    v > 0 && (v == k || v == k / 10 || v == k / 100 || v == k / 1000)
}

// Whether the digit d may follow in the field at hand.
#[tactic(auto, unfolding(crate::specs::Machine::takes_digit))]
fn takes_digit(p: Place, d: u8) -> bool
    ensures { result ≡ takes_digit p d }
{
    if p.field == 0 {
        begins(
            rows::FIRST_KELVIN + u64::from(p.row),
            10 * u64::from(p.value) + u64::from(d),
        )
    } else {
        text::may_follow(MOST_FIGURE, p.seen, u64::from(p.value), d)
    }
}

// The place after the digit d.
#[tactic(auto, unfolding(crate::specs::Machine::with_digit))]
fn with_digit(p: Place, d: u8) -> Place
    requires { 10 * p.value + d < 4294967296 }
    ensures { result ≡ with_digit p d }
{
    Place {
        value: 10 * p.value + u32::from(d),
        seen: true,
        ..p
    }
}

// Whether the field at hand may end here.
#[tactic(auto, unfolding(crate::specs::Machine::whole))]
fn whole(p: Place) -> bool
    ensures { result ≡ Machine·whole p }
{
    if p.field == 0 {
        u64::from(p.value) == rows::FIRST_KELVIN + u64::from(p.row)
    } else {
        p.seen
    }
}

// The byte that ends the field at hand.
#[tactic(auto, unfolding(crate::specs::Machine::closer))]
fn closer(p: Place) -> u8
    ensures { result ≡ Machine·closer p }
{
    if p.field < 3 { 9 } else { 10 }
}

// The place after the end of the field at hand.
// stays: that the row is one of the table is asked here and of the two steps below, where a struct around the place would be no plainer.
#[tactic(auto, unfolding(crate::specs::Machine::after))]
fn after(p: Place) -> Place
    requires { p.row < table_rows }
    ensures { result ≡ Machine·after p }
{
    if p.field < 3 {
        Place {
            field: p.field + 1,
            value: 0,
            seen: false,
            first: if p.field == 1 { p.value } else { p.first },
            second: if p.field == 2 { p.value } else { p.second },
            ..p
        }
    } else {
        Place {
            row: p.row + 1,
            ..start()
        }
    }
}

// The place after a digit, or the row where none may follow.
#[tactic(auto, using(crate::specs::MachineLaws::takes_bound), unfolding(crate::specs::Machine::step_digit))]
fn step_digit(p: Place, d: u8) -> Result<Place, u32>
    requires { p.row < table_rows }
    ensures { result ≡ step_digit p d }
{
    if takes_digit(p, d) {
        Ok(with_digit(p, d))
    } else {
        Err(p.row)
    }
}

// Whether the byte ends the field at hand.
#[tactic(auto, unfolding(crate::specs::Machine::ends_field))]
fn ends_field(p: Place, b: u8) -> bool
    ensures { result ≡ ends_field p b }
{
    b == closer(p) && whole(p)
}

// The place after a byte that is no digit, or the row where it ends no field.
#[tactic(auto, unfolding(crate::specs::Machine::step_end))]
fn step_end(p: Place, b: u8) -> Result<Place, u32>
    requires { p.row < table_rows }
    ensures { result ≡ step_end p b }
{
    if ends_field(p, b) {
        Ok(after(p))
    } else {
        Err(p.row)
    }
}

// The place after a byte, or the row of the byte where no good sheet can follow.
#[tactic(auto, using(text::specs::WholesLaws::digit_range), unfolding(crate::specs::Machine::step_place))]
fn step_place(p: Place, b: u8) -> Result<Place, u32>
    ensures { result ≡ step_place p b }
{
    if p.row >= ROWS {
        return Err(p.row);
    }
    if text::is_digit(b) {
        step_digit(p, b - 48)
    } else {
        step_end(p, b)
    }
}

// The place before the first byte.
pub fn start() -> Place
    ensures { Ok result ≡ Machine·start }
{
    Place {
        row: 0,
        field: 0,
        value: 0,
        seen: false,
        first: 0,
        second: 0,
    }
}

// Whether all rows are read, and nothing after.
pub fn whole_sheet(s: Result<Place, u32>) -> bool
    ensures { result ≡ whole_sheet s }
{
    match s {
        Ok(p) => p.row == ROWS,
        Err(_) => false,
    }
}

// The row of the place, or of the byte after which no good sheet can follow.
pub fn row_of(s: Result<Place, u32>) -> u32
    ensures { result ≡ row_of s }
{
    match s {
        Ok(p) => p.row,
        Err(r) => r,
    }
}

// Whether the byte ends the row at hand.
#[tactic(auto, unfolding(crate::specs::Machine::ends_row))]
fn ends_row(p: Place, b: u8) -> bool
    ensures { result ≡ ends_row p b }
{
    p.row < ROWS && b == 10 && p.field >= 3 && p.seen
}

// Writes the row's three numbers where the byte ends it.
#[tactic(auto, using(crate::specs::MachineLaws::row_bound), unfolding(crate::specs::Machine::stored_place))]
fn store_place(p: Place, b: u8, list: &mut [u32; NUMBERS])
    ensures { list.new ≡ stored_place p b list.old }
{
    if ends_row(p, b) {
        let at = 3 * (p.row as usize);
        list[at] = p.first;
        list[at + 1] = p.second;
        list[at + 2] = p.value;
    }
}

// The place after the text, each row's numbers written as the row ends, or the row of the first byte after which no good sheet can follow.
// stays: the row alone as the Err: a struct of one number would be no plainer, since `sheet` makes it a refusal of its own.
pub fn fill(from: Place, text: &[u8], list: &mut [u32; NUMBERS]) -> Result<Place, u32>
    ensures { filled result list.new ≡ run fill_byte (filled (Ok from) list.old) text.now }
{
    let mut p = from;
    for b in text {
        store_place(p, *b, list);
        p = step_place(p, *b)?;
    }
    Ok(p)
}
