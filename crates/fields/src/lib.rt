// The fields of a line, parted by tabs: the whole numbers that they are (specs/Fields.antt), and the place of a word among them (specs/Words.antt). For the
// console above and its programs: every function takes every input and promises an equation.
#![tactic(auto)]

ghost use Rattle.std.specs.Prelude.{◌≡◌, ◌+◌, length, set, drop};
ghost use Rattle.fields.specs.Words.{position_of};
ghost use Rattle.fields.specs.Fields.{span_to, span_of, fields_of, fields_from, holds_return, count_all, Stored, held_of, is_count, one_of, two_of};

// Where a byte stands first in a line, from `from` on: there, or at the line's end.
pub fn place_of(byte: u8, line: &[u8], from: usize) -> usize
    ensures { result ≡ from + span_to byte (drop from line.now) }
{
    for i in from..line.len() {
        if line[i] == byte {
            return i;
        }
    }
    from.max(line.len())
}

// Where the field that starts at `from` ends: its tab, or the line's end.
pub fn field_end(line: &[u8], from: usize) -> usize
    ensures { result ≡ from + span_of (drop from line.now) }
{
    place_of(9, line, from)
}

// Whether the line holds a carriage return: no line ends in one.
#[tactic(auto, using(crate::specs::FieldsLaws::return_span))]
pub fn holds_return(line: &[u8]) -> bool
    ensures { result ≡ holds_return line.now }
{
    place_of(13, line, 0) < line.len()
}

// Puts the number at n, where the list has that place.
pub fn keep(list: &mut [i64], n: usize, z: i64)
    ensures { list.new ≡ set list.old n z }
{
    if n < list.len() {
        list[n] = z;
    }
}

// How many whole numbers the fields from `from` on are, where each is one; the list takes as many as it has places, up to the first field that is none.
#[tactic(auto, using(crate::specs::FieldsLaws::span_from, crate::specs::FieldsLaws::fields_none, crate::specs::FieldsLaws::count_next_lem, crate::specs::FieldsLaws::count_bad, crate::specs::FieldsLaws::leading_next_lem, crate::specs::FieldsLaws::leading_bad, crate::specs::FieldsLaws::leading_all))]
pub fn read_numbers(line: &[u8], from: usize, list: &mut [i64]) -> Option<usize>
    ensures value { result ≡ count_all 0 (fields_from line.now from) }
    ensures stored { Stored (fields_from line.now from) list.old result list.new }
{
    let mut p = from;
    let mut n = 0;
    // stays: a `while` from tab to tab and no `for` over `split`, which is no plainer: `from` may lie past the line, and a slice from there on there is none
    while p <= line.len() {
        let e = field_end(line, p);
        let z = text::read_whole(&line[p..e])?;
        keep(list, n, z);
        n += 1;
        p = e + 1;
    }
    Some(n)
}

// How many numbers of a line a list of so many places holds; none where a field is no number.
pub fn held_of(numbers: Option<usize>, places: usize) -> usize
    ensures { result ≡ held_of numbers places }
{
    numbers.unwrap_or(0).min(places)
}

// Whether the fields from `from` on are exactly as many numbers as the list has places; then it holds them.
pub fn read_exactly(line: &[u8], from: usize, list: &mut [i64]) -> bool
    ensures value { result ≡ is_count (length list.old) (count_all 0 (fields_from line.now from)) }
    ensures stored { Stored (fields_from line.now from) list.old (count_all 0 (fields_from line.now from)) list.new }
{
    let places = list.len();
    read_numbers(line, from, list) == Some(places)
}

// The one number that the fields from `from` on are.
pub fn read_one(line: &[u8], from: usize) -> Option<i64>
    ensures { result ≡ one_of (fields_from line.now from) }
{
    let mut list = [0i64; 1];
    read_exactly(line, from, &mut list).then_some(list[0])
}

// The two numbers that the fields from `from` on are.
pub fn read_two(line: &[u8], from: usize) -> Option<(i64, i64)>
    ensures { result ≡ two_of (fields_from line.now from) }
{
    let mut list = [0i64; 2];
    read_exactly(line, from, &mut list).then_some((list[0], list[1]))
}

// The place of a word among the fields of a text; their number where it is none of them.
// stays: a number and no Option, on which the definitions of tables (`position_of`, `named_at`) rest; a match on byte strings was tried, and each way to its default is a goal of its own.
#[tactic(auto, using(crate::specs::FieldsLaws::span_from, crate::specs::WordsLaws::position_all, crate::specs::WordsLaws::position_none))]
pub fn position_in(word: &[u8], text: &[u8]) -> usize
    ensures { result ≡ position_of word.now (fields_of text.now) }
{
    let mut from = 0;
    let mut n = 0;
    // stays: a `while` by `field_end`, as in `read_numbers`: `split` would be a second rule of where a field ends beside it, and no plainer
    while from <= text.len() {
        let end = field_end(text, from);
        if word == &text[from..end] {
            return n;
        }
        n += 1;
        from = end + 1;
    }
    n
}
