// The text of a sheet list, counted and written. It is written from its end, as its lines and numbers are defined: what comes before is the shorter text.
ghost use Rattle.std.specs.Prelude.{◌≡◌, [], ◌∷◌, ◌++◌, ◌≤◌, ◌<◌, length};
ghost use Rattle.text.specs.Decimal.{decimal};
ghost use Rattle.text.specs.Puts.{Stands};
ghost use Rattle.sheet_text.specs.Text.{row_text, sheet_text, text_length};

// The bytes of a row: its four fields, and what ends each.
#[tactic(auto, using(crate::specs::TextLaws::row_length))]
fn row_length(kelvin: u32, o2: u32, co2: u32, h2o: u32) -> usize
    ensures { (result ≡ length (row_text kelvin o2 co2 h2o)) × (result ≤ 84) }
{
    let gases = text::count_digits(u64::from(o2))
        + text::count_digits(u64::from(co2))
        + text::count_digits(u64::from(h2o));
    4 + text::count_digits(u64::from(kelvin)) + gases
}

// The bytes of the text of a list.
#[tactic(auto, using(crate::specs::TextLaws::rows_next, crate::specs::TextLaws::rows_all))]
pub fn text_length(list: &[u32; crate::NUMBERS]) -> usize
    ensures { result ≡ text_length list.now }
{
    let mut bytes = 0;
    for row in 0..crate::ROWS {
        let kelvin = crate::FIRST_KELVIN + row;
        let at = 3 * row as usize;
        bytes += row_length(kelvin, list[at], list[at + 1], list[at + 2]);
    }
    bytes
}

// A number and the byte that ends its field, put before a place. Answers where the field begins.
fn end_with_field(n: u32, closer: u8, buf: &mut [u8], end: usize) -> usize
    requires { (length (decimal n) < end) × (end ≤ length buf.old) }
    ensures { Stands (decimal n ++ (closer ∷ [])) buf.old result end buf.new }
{
    let after = text::end_with_byte(closer, buf, end);
    text::end_with_decimal(u64::from(n), buf, after)
}

// A row put before a place. Answers where it begins.
// stays: a row's four numbers one by one, as `row_text` has them: a struct for this one call would be no plainer.
#[tactic(auto, using(crate::specs::TextLaws::row_length, crate::specs::TextLaws::field_length))]
fn end_with_row(kelvin: u32, o2: u32, co2: u32, h2o: u32, buf: &mut [u8], end: usize) -> usize
    requires { (length (row_text kelvin o2 co2 h2o) ≤ end) × (end ≤ length buf.old) }
    ensures { Stands (row_text kelvin o2 co2 h2o) buf.old result end buf.new }
{
    let third = end_with_field(h2o, 10, buf, end);
    let second = end_with_field(co2, 9, buf, third);
    let first = end_with_field(o2, 9, buf, second);
    end_with_field(kelvin, 9, buf, first)
}

// Writes the text of a list, of so many bytes, into the buffer from its first place on.
pub fn write_text(list: &[u32; crate::NUMBERS], bytes: usize, buf: &mut [u8])
    requires { (bytes ≡ text_length list.now) × (bytes ≤ length buf.old) }
    ensures { Stands (sheet_text list.now) buf.old 0 bytes buf.new }
{
    let mut end = bytes;
    for row in (0..crate::ROWS).rev() {
        let kelvin = crate::FIRST_KELVIN + row;
        let at = 3 * row as usize;
        end = end_with_row(kelvin, list[at], list[at + 1], list[at + 2], buf, end);
    }
}
