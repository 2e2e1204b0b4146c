// The inner doors of air: what the gas above needs of it, whose callers have tested the ranges; and each entry with its column lent, for a program that builds the
// columns once for many requests.
ghost use Rattle.std.specs.Prelude.{Bool, ℕ, ◌≡◌, ◌++◌, ◌+◌, ◌-◌, ◌^◌, ◌≤◌, ◌<◌, ◌/◌, pos, ◌≤ℤ◌, [], ◌∷◌, true, IfOk, length, drop};
ghost use Rattle.signed.specs.Zed.{up, in_z, outside};
ghost use Rattle.refusal.specs.Refusals.{told_of, ◌when◌, first};
ghost use Rattle.rows.specs.Rows.{rows_h, rows_psi, rows_cp};
ghost use Rattle.rows.specs.Table.{column};
ghost use Rattle.rows.specs.Limits.{first_kelvin, last_kelvin};
ghost use Rattle.air.specs.Limits.{look_places, coldest, hottest};
ghost use Rattle.air.specs.Answers.{paper_reading, air_heat_told, psi_told, cp_told, PsiInverse};
ghost use Rattle.air.specs.Readings.{reading, between, NeverFalls};
ghost use Rattle.air.specs.Halving.{Tests, Halved};
ghost use Rattle.air.specs.inner.Lent.{column_told};

use crate::{Millikelvin, search};
use refusal::Refusal;

// the last row, in mK
pub const LAST_MK: u64 = 1000 * rows::LAST_KELVIN;

// Whether the table covers a temperature.
pub fn covered(t: Millikelvin) -> bool
    ensures { result ≡ in_z (pos coldest) (pos hottest) t.0 }
{
    signed::inside(t.0, crate::COLDEST, crate::HOTTEST)
}

// A figure a with b the next kelvin's, read f mK above a.
#[tactic(auto, unfolding(crate::specs::Readings::reading))]
pub(crate) fn reading_of(a: u64, b: u64, f: u64) -> u64
    requires { (a ≤ b) × (b < 4294967296) × (f < 1000) }
    ensures { result ≡ reading a b f }
{
    1000 * a + f * (b - a)
}

// A column that never falls, read at a temperature in mK; at 2,000,000 mK no row is read but the last.
#[tactic(auto, using(crate::specs::ReadingsLaws::between_last, crate::specs::ReadingsLaws::between_rows))]
pub(crate) fn read(rows: &[u32; rows::ROWS], mk: u64) -> u64
    requires { (coldest ≤ mk) × (mk ≤ hottest) × NeverFalls (column rows.now) }
    ensures { result ≡ between (column rows.now) mk }
{
    if mk == LAST_MK {
        return 1000 * rows::figure(rows, rows::LAST_KELVIN);
    }
    let k = mk / 1000;
    reading_of(rows::figure(rows, k), rows::figure(rows, k + 1), mk % 1000)
}

// The halving rule over a test of the value at a kelvin, from the first kelvin to the last: the row that it keeps. The looks go into the list from its start on.
pub fn halve<F: Fn(u64) -> bool>(fits: F, looks: &mut [u32; crate::LOOK_PLACES]) -> u64
    requires { (k : ℕ) → first_kelvin ≤ k → k ≤ last_kelvin → F.pre fits k }
    ensures { (p : ℕ → Bool) → Tests (F.post fits) p → Halved p first_kelvin last_kelvin 0 looks.old result looks.new }
{
    halve_between(&fits, rows::FIRST_KELVIN, rows::LAST_KELVIN, looks, 0)
}

// The same between lo and hi: a look at the middle, then the same rule for the half that is kept. The looks go into the list from `at` on.
fn halve_between<F: Fn(u64) -> bool>(
    fits: &F,
    lo: u64,
    hi: u64,
    looks: &mut [u32; crate::LOOK_PLACES],
    at: usize,
) -> u64
    requires ends { (first_kelvin ≤ lo) × (lo < hi) × (hi ≤ last_kelvin) }
    requires room { (length looks.old ≡ look_places) × (at ≤ look_places) × (hi ≤ lo + 2 ^ (look_places - at)) }
    requires callable { (k : ℕ) → first_kelvin ≤ k → k ≤ last_kelvin → F.pre fits.now k }
    ensures { (p : ℕ → Bool) → Tests (F.post fits.now) p → Halved p lo hi at looks.old result looks.new }
{
    if hi <= lo + 1 {
        return lo;
    }
    let m = (lo + hi) / 2;
    looks[at] = m as u32;
    if fits(m) {
        halve_between(fits, m, hi, looks, at + 1)
    } else {
        halve_between(fits, lo, m, looks, at + 1)
    }
}

// The one division after a search: the whole mK in what lies over the kelvin that was kept, where each mK rises by the slope.
pub fn thousandths(over: u64, slope: u64) -> u64
    requires { 0 < slope }
    ensures { result ≡ over / slope }
{
    over / slope
}

// Lays the looks of a search into the first eleven places of a lent list.
// stays: a part of the list with eleven places or more, and no array, here and in the searches: document 01 has that part lent on.
pub fn lay(eleven: &[u32; crate::LOOK_PLACES], looks: &mut [u32])
    requires { (length eleven.now ≡ look_places) × (look_places ≤ length looks.old) }
    ensures { looks.new ≡ eleven.now ++ drop look_places looks.old }
{
    looks[..crate::LOOK_PLACES].copy_from_slice(eleven);
}

// A number from lo to hi, without its sign; any other is refused as a temperature outside the table.
#[tactic(auto, using(signed::specs::Zed::in_range, signed::specs::Zed::zed))]
fn ranged(x: i64, lo: i64, hi: i64) -> Result<u64, Refusal>
    requires { pos 0 ≤ℤ lo }
    ensures told { told_of result ≡ first (6 when outside lo hi x ∷ []) (up x) }
    ensures within { IfOk result (λ n. in_z lo hi (pos n) ≡ true) }
{
    if !signed::inside(x, lo, hi) {
        return Err(Refusal::Temperature);
    }
    Ok(signed::to_u64(x))
}

// A column that never falls, read at a temperature, refusal 6 tested.
#[tactic(auto, using(signed::specs::Zed::in_range, signed::specs::Zed::zed))]
fn lent(t: Millikelvin, rows: &[u32; rows::ROWS]) -> Result<u64, Refusal>
    requires { NeverFalls (column rows.now) }
    ensures { paper_reading result ≡ column_told (column rows.now) t.0 }
{
    let mk = ranged(t.0, crate::COLDEST, crate::HOTTEST)?;
    Ok(read(rows, mk))
}

// The heat of air at a temperature, refusal 6 tested.
// stays: a column by what its list is, here and below: the clauses of these doors may not change.
#[tactic(auto, using(crate::specs::ReadingsLaws::h_never_falls), unfolding(crate::specs::Readings::air_heat, rows::specs::Table::air_h))]
pub fn heat_lent(t: Millikelvin, heats: &[u32; rows::ROWS]) -> Result<u64, Refusal>
    requires { heats.now ≡ rows_h }
    ensures { paper_reading result ≡ air_heat_told t.0 }
{
    lent(t, heats)
}

// psi at a temperature, refusal 6 tested.
#[tactic(auto, using(crate::specs::ReadingsLaws::psi_never_falls), unfolding(crate::specs::Readings::air_psi_at, rows::specs::Table::air_psi))]
pub fn psi_lent(t: Millikelvin, psis: &[u32; rows::ROWS]) -> Result<u64, Refusal>
    requires { psis.now ≡ rows_psi }
    ensures { paper_reading result ≡ psi_told t.0 }
{
    lent(t, psis)
}

// Cp at a whole number of kelvins, refusal 6 tested.
#[tactic(auto, using(signed::specs::Zed::in_range, signed::specs::Zed::zed, refusal::specs::OrdersLaws::told_through), unfolding(rows::specs::Table::air_cp))]
pub fn cp_lent(kelvin: i64, printed: &[u32; rows::ROWS]) -> Result<u64, Refusal>
    requires { printed.now ≡ rows_cp }
    ensures { paper_reading result ≡ cp_told kelvin }
{
    let row = ranged(kelvin, crate::FIRST_KELVIN, crate::LAST_KELVIN)?;
    Ok(rows::figure(printed, row))
}

// The temperature of a psi with the rest, refusals 10, 8 and 9 tested. The looks go into the first eleven places of the list, 0 where unused.
pub fn psi_inverse_lent(
    target: i64,
    looks: &mut [u32],
    psis: &[u32; rows::ROWS],
) -> Result<(Millikelvin, u64), Refusal>
    requires { psis.now ≡ rows_psi }
    ensures { PsiInverse target looks.old result looks.new }
{
    if looks.len() < crate::LOOK_PLACES {
        return Err(Refusal::ShortList);
    }
    if target < signed::of_u64(1000 * rows::figure(psis, rows::FIRST_KELVIN)) {
        return Err(Refusal::Below);
    }
    if signed::of_u64(1000 * rows::figure(psis, rows::LAST_KELVIN)) < target {
        return Err(Refusal::Above);
    }
    Ok(search::psi_reached(signed::to_u64(target), looks, psis))
}
