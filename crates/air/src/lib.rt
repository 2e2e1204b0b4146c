// Dry air from 200 K to 2,000 K (document 01, "The air table"): heat, psi and Cp read from Table 1, and the temperature of a psi.
// Every call takes any signed number and promises an equation: what the answer tells, in the paper's numbers (specs/Answers.antt), is the first
// refusal of its order whose condition holds (refusal/specs/Refusals.antt), else the table's reading (specs/Readings.antt, specs/Inverse.antt).
// The halving theory of specs/ is stated over any value by temperature, for the gas above as for psi here.
#![tactic(auto)]

pub mod inner;
mod search;

ghost use Rattle.std.specs.Prelude.{◌≡◌};
ghost use Rattle.air.specs.Answers.{paper_reading, air_heat_told, psi_told, cp_told, PsiInverse};

use refusal::Refusal;

// A temperature in thousandths of a kelvin.
#[derive(Clone, Copy)]
pub struct Millikelvin(pub i64);

// the range of temperatures in mK: 200,000 to 2,000,000
pub const COLDEST: i64 = 1000 * rows::FIRST_KELVIN as i64;

pub const HOTTEST: i64 = 1000 * rows::LAST_KELVIN as i64;
// and in whole kelvins
const FIRST_KELVIN: i64 = rows::FIRST_KELVIN as i64;

const LAST_KELVIN: i64 = rows::LAST_KELVIN as i64;
// places for the looks of a search
pub const LOOK_PLACES: usize = 11;
// 15 °C in mK
pub const FIFTEEN_DEGREES: i64 = 288160;

// The heat of air per pound at a temperature, in 0.00001 C.H.U./lb.
// stays: this and `psi` by their names, for the C interface (`gaskeys_air_heat`, `gaskeys_air_psi`); below them is one reader.
pub fn heat(t: Millikelvin) -> Result<u64, Refusal>
    ensures { paper_reading result ≡ air_heat_told t.0 }
{
    let heats = rows::columns::heat_column();
    inner::heat_lent(t, &heats)
}

// psi at a temperature, in 0.0000001.
pub fn psi(t: Millikelvin) -> Result<u64, Refusal>
    ensures { paper_reading result ≡ psi_told t.0 }
{
    let psis = rows::columns::psi_column();
    inner::psi_lent(t, &psis)
}

// Cp at a whole number of kelvins, in ten-thousandths, as printed.
pub fn cp(kelvin: i64) -> Result<u64, Refusal>
    ensures { paper_reading result ≡ cp_told kelvin }
{
    let printed = rows::columns::cp_column();
    inner::cp_lent(kelvin, &printed)
}

// The greatest temperature whose psi is at most the target, with the rest. The looks go into the first eleven places of the list, 0 where unused.
pub fn psi_inverse(target: i64, looks: &mut [u32]) -> Result<(Millikelvin, u64), Refusal>
    ensures { PsiInverse target looks.old result looks.new }
{
    let psis = rows::columns::psi_column();
    inner::psi_inverse_lent(target, looks, &psis)
}
