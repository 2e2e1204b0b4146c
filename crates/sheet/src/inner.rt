// The inner doors of sheet, for the calls above that take a sheet list: the list judged with the air column lent, its columns read by kelvin, and a whole sheet put into it.
ghost use Rattle.std.specs.Prelude.{◌≡◌, IfOk, ◌+◌, ◌-◌, ◌*◌, ◌≤◌, ◌<◌, length, get_or};
ghost use Rattle.rows.specs.Limits.{first_kelvin, last_kelvin};
ghost use Rattle.rows.specs.Rows.{rows_h};
ghost use Rattle.sheet_text.specs.Limits.{sheet_numbers};
ghost use Rattle.sheet.specs.Sheet.{o2, co2, h2o};
ghost use Rattle.refusal.specs.Refusals.{told_as};
ghost use Rattle.sheet.specs.Answers.{judge_told};

use crate::NUMBERS;
use crate::accepted::AcceptedSheet;
use crate::judging::{self, SheetList};
use refusal::Refusal;

// The list as an accepted sheet: refusal 1, or 3 with the first bad row, where it is none.
#[tactic(auto, using(crate::specs::SheetLaws::none_accepted))]
pub fn judge<'a>(
    list: &'a [u32],
    heats: &'a [u32; rows::ROWS],
) -> Result<AcceptedSheet<'a>, Refusal>
    requires { heats.now ≡ rows_h }
    ensures told { told_as (λ s. tt) result ≡ judge_told list.now }
    ensures same { IfOk result (λ s. s.list.now ≡ list.now) }
{
    let Some(list) = list.as_array::<NUMBERS>() else {
        return Err(Refusal::ListLength);
    };
    match judging::first_bad_row(SheetList { list, heats }) {
        Some(row) => Err(Refusal::BadRow(row)),
        None => Ok(AcceptedSheet { list, heats }),
    }
}

// The number of a gas at a whole kelvin: O2 is gas 0, CO2 gas 1 and H2O gas 2.
fn gas_at(list: &[u32; NUMBERS], kelvin: u64, gas: usize) -> u64
    requires { (first_kelvin ≤ kelvin) × (kelvin ≤ last_kelvin) × (gas < 3) }
    ensures { (result ≡ get_or list.now (3 * (kelvin - first_kelvin) + gas) 0) × (result < 4294967296) }
{
    u64::from(list[3 * (kelvin - rows::FIRST_KELVIN) as usize + gas])
}

// O2 at a whole kelvin.
// stays: what these three ask of the kelvin: the clauses of `o2_at`, `co2_at` and `h2o_at` may not change.
#[tactic(auto, unfolding(crate::specs::Sheet::o2))]
pub fn o2_at(list: &[u32; NUMBERS], kelvin: u64) -> u64
    requires { (first_kelvin ≤ kelvin) × (kelvin ≤ last_kelvin) }
    ensures { (result ≡ o2 list.now kelvin) × (result < 4294967296) }
{
    gas_at(list, kelvin, 0)
}

// CO2 at a whole kelvin.
#[tactic(auto, unfolding(crate::specs::Sheet::co2))]
pub fn co2_at(list: &[u32; NUMBERS], kelvin: u64) -> u64
    requires { (first_kelvin ≤ kelvin) × (kelvin ≤ last_kelvin) }
    ensures { (result ≡ co2 list.now kelvin) × (result < 4294967296) }
{
    gas_at(list, kelvin, 1)
}

// H2O at a whole kelvin.
#[tactic(auto, unfolding(crate::specs::Sheet::h2o))]
pub fn h2o_at(list: &[u32; NUMBERS], kelvin: u64) -> u64
    requires { (first_kelvin ≤ kelvin) × (kelvin ≤ last_kelvin) }
    ensures { (result ≡ h2o list.now kelvin) × (result < 4294967296) }
{
    gas_at(list, kelvin, 2)
}

// Writes the numbers of a whole sheet into the lent list, which has as many places.
pub fn copy(numbers: &[u32; NUMBERS], list: &mut [u32])
    requires { length list.old ≡ sheet_numbers }
    ensures { list.new ≡ numbers.now }
{
    list[..NUMBERS].copy_from_slice(numbers);
}
