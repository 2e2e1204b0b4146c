// The exact value of a binary64 number, read from its sign, exponent and fraction fields, held to a whole lower and upper end by shifts and compares.
ghost use Rattle.std.specs.Prelude.{◌≡◌, not, ◌*◌, ◌≤◌, ◌<◌, ◌^◌, pos, ◌≤ℤ◌, T};
ghost use Rattle.std.specs.Float.Ieee.{is_nan};
ghost use Rattle.std.specs.Int.{w64};
ghost use Rattle.std.proofs.Common.{SFits};
ghost use Rattle.marking.specs.Exact.{FieldsOf, significand, sized, turned, places, spans, CutOf};

// The three fields of a number's 64 bits.
#[derive(Clone, Copy)]
pub(crate) struct Fields {
    pub negative: bool,
    pub exponent: u64,
    pub fraction: u64,
}

// The fields of a float that is no NaN.
pub(crate) fn fields_of(x: f64) -> Fields
    requires { T (not (is_nan x)) }
    ensures { FieldsOf x result }
{
    let bits = f64::to_bits(x);
    Fields {
        negative: bits >> 63 == 1,
        exponent: (bits >> 52) & 0x7ff,
        fraction: bits & 0xf_ffff_ffff_ffff,
    }
}

// The key that the size of an answer is held to: turned over for an answer below zero.
pub(crate) fn turn(negative: bool, key: i64) -> i64
    requires { SFits w64 (turned negative key) }
    ensures { result ≡ turned negative key }
{
    if negative { -key } else { key }
}

// The fraction field, with the leading one that a normal number has.
fn significand_of(exponent: u64, fraction: u64) -> u64
    requires { fraction < 2 ^ 52 }
    ensures { result ≡ significand exponent fraction }
{
    if exponent == 0 {
        fraction
    } else {
        0x10_0000_0000_0000 + fraction
    }
}

// How many binary places of the scaled significand are cut off: those that stand below one unit. It has no more than 70, and past them every count leaves the same. From
// exponent 1063 on a size is 2^40 or more, past every window, and so it is with twelve cut off.
fn places_of(exponent: u64) -> u64
    ensures { result ≡ places exponent }
{
    if exponent < 1005 {
        70
    } else if exponent < 1063 {
        1075 - exponent
    } else {
        12
    }
}

// A number rounded down and rounded up.
#[derive(Clone, Copy)]
struct Cut {
    floor: u64,
    ceiling: u64,
}

// scale * digits / 2^k, rounded down and rounded up. The product has up to 70 binary places: twelve are shifted off part by part, so that the rest fits 64 bits, and then
// the others. Ones added to the places that go round up, as a sticky bit would.
fn cut_by(scale: u64, digits: u64, k: u64) -> Cut
    requires scale_most { scale ≤ 100000 }
    requires digits_most { digits < 2 ^ 53 }
    requires places_least { 12 ≤ k }
    requires places_most { k ≤ 70 }
    ensures { CutOf (scale * digits) (2 ^ k) result }
{
    let high = scale * (digits >> 12);
    let low = scale * (digits & 0xfff);
    let others = k - 12;
    let ones = (1u64 << others) - 1;
    Cut {
        floor: (high + (low >> 12)) >> others,
        ceiling: (high + ((low + 0xfff) >> 12) + ones) >> others,
    }
}

// Whether scale times the size of these fields lies from lo to hi. Both ends are always compared, so that nothing hangs on how well a processor guesses.
pub(crate) fn lies(scale: u64, fields: Fields, lo: i64, hi: i64) -> bool
    requires scale_some { 0 < scale }
    requires scale_most { scale ≤ 100000 }
    requires fraction_most { fields.fraction < 2 ^ 52 }
    requires end_most { hi ≤ℤ pos 1000000100000 }
    ensures { result ≡ spans (scale * sized fields.exponent fields.fraction) (2 ^ 1074) lo hi }
{
    let digits = significand_of(fields.exponent, fields.fraction);
    let size = cut_by(scale, digits, places_of(fields.exponent));
    (lo <= signed::of_u64(size.floor)) & (signed::of_u64(size.ceiling) <= hi)
}
