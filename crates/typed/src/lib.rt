// A typed number as a float: a decimal number of at most 15 significant digits, by one correctly rounded division, or `x` and the 16 hexadecimal digits of
// its bits. Every function takes every text and promises an equation with specs/Typed.antt. An inner door as a whole: the console above reads answers by it.
#![tactic(auto)]

ghost use Rattle.std.specs.Prelude.{◌≡◌, ◌&&◌, ◌<◌, ◌^◌, leb, pos, Some};
ghost use Rattle.std.specs.Float.{binary64};
ghost use Rattle.std.specs.Float.Ieee.{of_int, of_bits, nan_bits};
ghost use Rattle.typed.specs.Typed.{takes as Typed·takes, first_part, next_whole, next_fraction, step_part, part_of, Small, quotient_of, with_sign, finish_of, decimal_of, hex_digit, step_hex, hex_of, is_pattern, number_of};

// At most 15 significant digits: all such whole numbers are floats.
const MOST: u64 = 999_999_999_999_999;

// stays: an enum of its own, for its five states.
// A decimal number so far: its digits as one number, and how many of them stand after the point.
#[derive(Clone, Copy)]
enum Part {
    Start,
    Whole(u64),
    Point(u64),
    Fraction(u64, usize),
    Bad,
}

// 10^0 to 10^22, all of them floats.
const TENS: [f64; 23] = [
    1.0,
    10.0,
    100.0,
    1000.0,
    10000.0,
    100000.0,
    1000000.0,
    10000000.0,
    100000000.0,
    1000000000.0,
    10000000000.0,
    100000000000.0,
    1000000000000.0,
    10000000000000.0,
    100000000000000.0,
    1000000000000000.0,
    1e16,
    1e17,
    1e18,
    1e19,
    1e20,
    1e21,
    1e22,
];

// Whether the byte is a digit that may follow the digits of m.
#[tactic(auto, using(crate::proofs::Parts::digit_least, crate::proofs::Parts::unseen), unfolding(crate::specs::Typed::takes))]
fn takes(m: u64, b: u8) -> bool
    ensures { result ≡ Typed·takes m b }
{
    text::is_digit(b) && text::may_follow(MOST, false, m, b - 48)
}

// The number after its first byte.
#[tactic(auto, using(crate::proofs::Parts::taken_digit), unfolding(crate::specs::Typed::first_part))]
fn first_part(b: u8) -> Part
    ensures { result ≡ first_part b }
{
    if takes(0, b) {
        Part::Whole(u64::from(b - 48))
    } else {
        Part::Bad
    }
}

// One byte more before the point.
#[tactic(auto, using(crate::proofs::Parts::taken_digit, crate::proofs::Parts::taken_most), unfolding(crate::specs::Typed::next_whole))]
fn next_whole(m: u64, b: u8) -> Part
    ensures { result ≡ next_whole m b }
{
    if b == 46 {
        return Part::Point(m);
    }
    if takes(m, b) {
        Part::Whole(10 * m + u64::from(b - 48))
    } else {
        Part::Bad
    }
}

// One byte more after the point, where k digits stand.
#[tactic(auto, using(crate::proofs::Parts::taken_digit, crate::proofs::Parts::taken_most), unfolding(crate::specs::Typed::next_fraction))]
fn next_fraction(m: u64, k: usize, b: u8) -> Part
    ensures { result ≡ next_fraction m k b }
{
    if k >= 22 {
        return Part::Bad;
    }
    if takes(m, b) {
        Part::Fraction(10 * m + u64::from(b - 48), k + 1)
    } else {
        Part::Bad
    }
}

// One byte more. It and the next function are put into their callers: with a call for each number, or each byte, a mark takes longer.
#[inline(always)]
fn step_part(s: Part, b: u8) -> Part
    ensures { result ≡ step_part s b }
{
    match s {
        Part::Start => first_part(b),
        Part::Whole(m) => next_whole(m, b),
        Part::Point(m) => next_fraction(m, 0, b),
        Part::Fraction(m, k) => next_fraction(m, k, b),
        Part::Bad => Part::Bad,
    }
}

// The parts of a text with no sign.
#[tactic(auto, using(crate::proofs::Parts::run_next, crate::proofs::Parts::run_end), unfolding(crate::specs::Typed::part_of))]
#[inline(always)]
fn read_part(text: &[u8]) -> Part
    ensures { result ≡ part_of text.now }
{
    let mut s = Part::Start;
    for b in text {
        s = step_part(s, *b);
    }
    s
}

// A power of ten.
fn ten_to(k: usize) -> f64
    requires { k < 23 }
    ensures { result ≡ of_int binary64 (pos (10 ^ k)) }
{
    TENS[k]
}

// m over 10^k, rounded once.
#[tactic(auto, using(crate::proofs::Parts::in_float_lem), unfolding(crate::specs::Typed::quotient_of))]
fn quotient(m: u64, k: usize) -> f64
    requires digits { m < 1000000000000000 }
    requires places { k < 23 }
    ensures { result ≡ quotient_of m k }
{
    m as f64 / ten_to(k)
}

// The number with its sign.
fn with_sign(negative: bool, x: f64) -> f64
    ensures { result ≡ with_sign negative x }
{
    if negative { -x } else { x }
}

// The number that its parts say.
fn finish(negative: bool, s: Part) -> Option<f64>
    requires { Small s }
    ensures { result ≡ finish_of negative s }
{
    match s {
        Part::Whole(m) => Some(with_sign(negative, quotient(m, 0))),
        Part::Fraction(m, k) => Some(with_sign(negative, quotient(m, k))),
        Part::Start | Part::Point(_) | Part::Bad => None,
    }
}

// The number that a text is in decimal.
#[tactic(auto, using(crate::proofs::Parts::small, crate::proofs::Parts::first_long, crate::proofs::Parts::tail_is), unfolding(crate::specs::Typed::decimal_of))]
fn read_decimal(text: &[u8]) -> Option<f64>
    ensures { result ≡ decimal_of text.now }
{
    if text::minus_first(text) {
        return finish(true, read_part(&text[1..]));
    }
    finish(false, read_part(text))
}

// A hexadecimal digit's value.
#[tactic(auto, unfolding(crate::specs::Typed::hex_digit))]
fn hex_digit(b: u8) -> Option<u8>
    ensures { result ≡ hex_digit b }
{
    match b {
        b'0'..=b'9' => Some(b - b'0'),
        b'a'..=b'f' => Some(b - b'a' + 10),
        b'A'..=b'F' => Some(b - b'A' + 10),
        _ => None,
    }
}

// One hexadecimal digit more.
#[tactic(auto, using(crate::proofs::Parts::hex_most))]
fn step_hex(v: u64, b: u8) -> Option<u64>
    ensures { result ≡ step_hex (Some v) b }
{
    let d = hex_digit(b)?;
    Some(v.checked_mul(16)? + u64::from(d))
}

// The bits that hexadecimal digits are.
#[tactic(auto, using(crate::proofs::Parts::run_next, crate::proofs::Parts::run_end, crate::proofs::Parts::hex_stays), unfolding(crate::specs::Typed::hex_of))]
fn read_hex(text: &[u8]) -> Option<u64>
    ensures { result ≡ hex_of text.now }
{
    let mut v = 0;
    for b in text {
        v = step_hex(v, *b)?;
    }
    Some(v)
}

// Whether the bits are those of a NaN.
#[tactic(auto, using(crate::proofs::Parts::nan_yes, crate::proofs::Parts::nan_no))]
fn nan_bits(bits: u64) -> bool
    ensures { result ≡ nan_bits binary64 bits }
{
    let field = (bits >> 52) & 0x7ff;
    let digits = bits & 0xf_ffff_ffff_ffff;
    field == 2047 && digits != 0
}

// The float of a bit pattern; each NaN pattern is the NaN.
#[tactic(auto, using(crate::proofs::Parts::nan_value, crate::proofs::Parts::from_asks))]
fn of_bits(bits: u64) -> f64
    ensures { result ≡ of_bits binary64 bits }
{
    if nan_bits(bits) {
        let zero = 0.0;
        return zero / zero;
    }
    f64::from_bits(bits)
}

// Whether the text is `x` and 16 more bytes.
#[tactic(auto, unfolding(crate::specs::Typed::is_pattern))]
fn is_pattern(text: &[u8]) -> bool
    ensures { result ≡ is_pattern text.now }
{
    text.len() == 17 && text[0] == 120
}

// A typed number: x and 16 hexadecimal digits, or a decimal number.
#[tactic(auto, using(crate::proofs::Parts::long_pattern, crate::proofs::Parts::tail_is), unfolding(crate::specs::Typed::number_of))]
pub fn read_number(text: &[u8]) -> Option<f64>
    ensures { result ≡ number_of text.now }
{
    if is_pattern(text) {
        return Some(of_bits(read_hex(&text[1..])?));
    }
    read_decimal(text)
}
