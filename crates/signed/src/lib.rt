// Signed 64-bit numbers: the few operations that the keys need of them, each equal to the whole-number operation that it stands for.
// The promises cite ℤ alone. The laws that carry ℤ to the naturals, where facts of numbers are decided, are in specs/Zed.antt; how a number is rounded is said in specs/Nearest.antt.
// Every number that comes in from outside is tested by `inside` first; past that test the work is done in u64.
#![tactic(auto)]

ghost use Rattle.std.specs.Prelude.{◌≡◌, ◌<◌, pos, ◌-ℤ◌, ◌≤ℤ◌};
ghost use Rattle.std.specs.Int.{w64};
ghost use Rattle.std.proofs.Common.{SFits};
ghost use Rattle.signed.specs.Zed.{in_z};
ghost use Rattle.signed.specs.Nearest.{carry_of, nearest_z};

// Whether x is from lo to hi.
pub fn inside(x: i64, lo: i64, hi: i64) -> bool
    ensures { result ≡ in_z lo hi x }
{
    lo <= x && x <= hi
}

// A number that is not below zero, unsigned.
// stays: `u64::try_from` gives a Result, and past the test no call can meet its Err, nor `i64::try_from` below.
pub fn to_u64(x: i64) -> u64
    requires { pos 0 ≤ℤ x }
    ensures { pos result ≡ x }
{
    x as u64
}

// A number below 2^63, signed.
pub fn of_u64(x: u64) -> i64
    requires { x < 9223372036854775808 }
    ensures { result ≡ pos x }
{
    x as i64
}

// How far b lies above a.
// stays: `abs_diff` says the same of a and b turned round, so the wrong program `gap_turned` would be right.
pub fn gap(a: i64, b: i64) -> u64
    requires { (a ≤ℤ b) × SFits w64 (b -ℤ a) }
    ensures { pos result ≡ b -ℤ a }
{
    (b - a) as u64
}

// What a quotient gains, away from zero, to be the nearest whole number, where so much lies over and so much lacks to the next: at a tie, what makes it even.
#[tactic(auto, unfolding(crate::specs::Nearest::carry_of))]
fn carry(q: u64, over: u64, lack: u64) -> i64
    ensures { result ≡ pos (carry_of q over lack) }
{
    if over < lack {
        0
    } else if lack < over {
        1
    } else {
        of_u64(q % 2)
    }
}

// a by b, to the nearest whole number, a tie to the even one. What lies over is held to what lacks, so that nothing is doubled; below zero sizes are
// counted from -1, so that the least number has one.
pub fn nearest(a: i64, b: u64) -> i64
    requires { 0 < b }
    ensures { result ≡ nearest_z a b }
{
    if a >= 0 {
        let n = to_u64(a);
        let q = n / b;
        let rest = n % b;
        of_u64(q) + carry(q, rest, b - rest)
    } else {
        let n = gap(a, -1);
        let q = n / b;
        let rest = n % b;
        -of_u64(q) - carry(q, rest + 1, b - rest - 1)
    }
}
