// Text as bytes: a decimal number read byte by byte under a limit, whole numbers of 64 bits read and written, texts put into a lent buffer.
// What is read and what is written are one definition, `decimal` and `decimal_z` of specs/Decimal.antt. The readers promise an equation and take every input, and so do
// the writers from a place on: they promise `Put`, which fixes the buffer and the place after the text and joins by `put_then`. A text whose length was counted is
// written from its end, where there is room for it, so that no number is measured twice: `Stands`, which joins by `stands_before`.
#![tactic(auto)]

ghost use Rattle.std.specs.Prelude.{◌≡◌, Bool, ◌≤◌, List, [], ◌∷◌, ◌++◌, length};
ghost use Rattle.text.specs.Decimal.{decimal, decimal_z};
ghost use Rattle.text.specs.Wholes.{is_digit, may_follow, extended, step_digits, digits_of, Within, plus_of, minus_of, minus_first, whole_of};
ghost use Rattle.text.specs.Puts.{Stands, Wrote};

// What the digits of a text say so far.
// stays: three states, where Option has two, and a step reads each of them.
#[derive(Clone, Copy)]
enum Digits {
    Empty,
    Value(u64),
    Bad,
}

// Whether the byte is a decimal digit.
#[tactic(auto, unfolding(crate::specs::Wholes::is_digit))]
pub fn is_digit(b: u8) -> bool
    ensures { result ≡ is_digit b }
{
    b.is_ascii_digit()
}

// Whether the digit d may follow the digits of v, or come first where none was seen: no zero in front, and the limit kept.
#[tactic(auto, unfolding(crate::specs::Wholes::may_follow), using(crate::proofs::Signs::leb_less))]
pub fn may_follow(limit: u64, seen: bool, v: u64, d: u8) -> bool
    ensures { result ≡ may_follow limit seen v d }
{
    let last = u64::from(d);
    if v == 0 {
        !seen && last <= limit
    } else {
        v <= limit / 10 && last <= limit - 10 * v
    }
}

// The number with the digit d behind it, where it may follow.
#[tactic(auto, unfolding(crate::specs::Wholes::extended), using(crate::specs::WholesLaws::follow_most))]
fn extend(limit: u64, seen: bool, v: u64, d: u8) -> Digits
    ensures { result ≡ extended limit seen v d }
{
    if may_follow(limit, seen, v, d) {
        Digits::Value(10 * v + u64::from(d))
    } else {
        Digits::Bad
    }
}

// The digits with one byte more.
#[tactic(auto, unfolding(crate::specs::Wholes::step_digits), using(crate::specs::WholesLaws::digit_range))]
fn step_digits(limit: u64, s: Digits, b: u8) -> Digits
    ensures { result ≡ step_digits limit s b }
{
    if !is_digit(b) {
        return Digits::Bad;
    }
    match s {
        Digits::Empty => extend(limit, false, 0, b - 48),
        Digits::Value(v) => extend(limit, true, v, b - 48),
        Digits::Bad => Digits::Bad,
    }
}

// The number of a text that is digits only, with no zero in front, up to the limit.
fn read_digits(limit: u64, text: &[u8]) -> Digits
    ensures { result ≡ digits_of limit text.now }
{
    let mut s = Digits::Empty;
    for b in text {
        s = step_digits(limit, s, *b);
    }
    s
}

// The number that digits with no sign say.
fn plus(d: Digits) -> Option<i64>
    requires { Within 9223372036854775807 d }
    ensures { result ≡ plus_of d }
{
    match d {
        Digits::Value(v) => Some(v as i64),
        Digits::Empty | Digits::Bad => None,
    }
}

// The number that digits after a minus sign say: below zero.
fn minus(d: Digits) -> Option<i64>
    requires { Within 9223372036854775808 d }
    ensures { result ≡ minus_of d }
{
    match d {
        Digits::Empty | Digits::Value(0) | Digits::Bad => None,
        Digits::Value(v) => Some(-1 - (v - 1) as i64),
    }
}

// Whether the text begins with a minus sign.
pub fn minus_first(text: &[u8]) -> bool
    ensures { result ≡ minus_first text.now }
{
    text.first() == Some(&45)
}

// The whole number that the text is in decimal.
#[tactic(auto, unfolding(crate::specs::Wholes::whole_of), using(crate::specs::WholesLaws::within))]
pub fn read_whole(text: &[u8]) -> Option<i64>
    ensures { result ≡ whole_of text.now }
{
    if minus_first(text) {
        return minus(read_digits(9223372036854775808, &text[1..]));
    }
    plus(read_digits(9223372036854775807, text))
}

// A buffer that is written on from a place: the place after the last byte.
// stays: bytes and no Display: what is promised is the bytes at the place, cut at the room, and that all others stay, which no formatter says.
// stays: with no ghost field that the place is inside, since the entry `console::answer` takes any place; what needs it says so.
#[derive(Drop)]
pub struct Pen<'a> {
    pub buf: &'a mut [u8],
    pub at: usize,
}

impl Pen<'_> {
    // One byte, where there is room for it.
    pub fn put_byte(&mut self, b: u8)
        ensures { Wrote (b ∷ []) self.old self.new }
    {
        if self.at < self.buf.len() {
            self.buf[self.at] = b;
            self.at += 1;
        } else {
            self.at = self.buf.len();
        }
    }

    // A text, as far as there is room.
    pub fn put_text(&mut self, text: &[u8])
        ensures { Wrote text.now self.old self.new }
    {
        let at = self.at.min(self.buf.len());
        let n = text.len().min(self.buf.len() - at);
        self.buf[at..at + n].copy_from_slice(&text[..n]);
        self.at = at + n;
    }

    // A number in decimal.
    pub fn put_decimal(&mut self, n: u64)
        ensures { Wrote (decimal n) self.old self.new }
    {
        if n >= 10 {
            self.put_decimal(n / 10);
        }
        self.put_byte(48 + (n % 10) as u8);
    }

    // A number in decimal, a minus sign before it where it is below zero.
    pub fn put_whole(&mut self, z: i64)
        ensures { Wrote (decimal_z z) self.old self.new }
    {
        if z < 0 {
            self.put_byte(45);
        }
        self.put_decimal(z.unsigned_abs());
    }
}

// How many digits a number has in decimal.
// stays: a `while` over powers of ten, which counts no index; nor does the one below, whose digits come last first.
pub fn count_digits(n: u64) -> usize
    ensures { (result ≡ length (decimal n)) × (result ≤ 20) }
{
    let tenth = n / 10;
    let mut unit: u64 = 1;
    let mut count = 1;
    while unit <= tenth {
        unit *= 10;
        count += 1;
    }
    count
}

// The byte put before a place. Answers where it stands.
// stays: a buffer and a place, here and in `sheet_text::writing`, and no pen, which goes forward: a text that was counted is written from its end.
pub fn end_with_byte(b: u8, buf: &mut [u8], end: usize) -> usize
    requires { (1 ≤ end) × (end ≤ length buf.old) }
    ensures { Stands (b ∷ []) buf.old result end buf.new }
{
    let at = end - 1;
    buf[at] = b;
    at
}

// The number put in decimal before a place, its last digit first. Answers where it begins.
pub fn end_with_decimal(n: u64, buf: &mut [u8], end: usize) -> usize
    requires { (length (decimal n) ≤ end) × (end ≤ length buf.old) }
    ensures { Stands (decimal n) buf.old result end buf.new }
{
    let mut rest = n;
    let mut at = end;
    while rest >= 10 {
        at = end_with_byte(48 + (rest % 10) as u8, buf, at);
        rest /= 10;
    }
    end_with_byte(48 + rest as u8, buf, at)
}
