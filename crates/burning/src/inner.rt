// The inner doors of burning: a charge and its numbers, its tests in parts, and the masses of a gas past them, for the gas and the walk above.
ghost use Rattle.std.specs.Prelude.{◌≡◌, false, ◌≤◌, length};
ghost use Rattle.refusal.specs.Refusals.{first};
ghost use Rattle.burning.specs.Burning.{document01, charge_numbers, charge_in, numbers_of_charge, gas_of, charge_of, beyond as Burning·beyond, Limits, lean as Burning·lean, fuel_mass, total_mass};
ghost use Rattle.burning.specs.Answers.{paper_gas, charge_lines};

use crate::{Charge, Gas, weights};
use refusal::Refusal;

// numbers of a charge
pub const CHARGE_NUMBERS: usize = 3;

// The charge of its numbers: A, c, h.
pub fn charge_in(numbers: &[i64]) -> Charge
    requires { charge_numbers ≤ length numbers.now }
    ensures { result ≡ charge_in numbers.now }
{
    Charge {
        air: numbers[0],
        carbon: numbers[1],
        hydrogen: numbers[2],
    }
}

// The numbers of a charge: A, c, h.
pub fn numbers_of(charge: Charge) -> [i64; CHARGE_NUMBERS]
    ensures { result ≡ numbers_of_charge charge }
{
    [charge.air, charge.carbon, charge.hydrogen]
}

// Whether A, c or h is outside its limit.
pub(crate) fn beyond(charge: Charge) -> bool
    ensures { result ≡ Burning·beyond document01 charge }
{
    !signed::inside(charge.air, 1, weights::MOST_AIR)
        || !signed::inside(charge.carbon, 0, weights::MOST_ATOMS)
        || !signed::inside(charge.hydrogen, 0, weights::MOST_ATOMS)
}

// A charge within its limits, unsigned.
pub(crate) fn gas_of(charge: Charge) -> Gas
    requires { Burning·beyond document01 charge ≡ false }
    ensures { result ≡ gas_of charge }
{
    Gas {
        air: signed::to_u64(charge.air),
        carbon: signed::to_u64(charge.carbon),
        hydrogen: signed::to_u64(charge.hydrogen),
    }
}

// The charge that a gas is, as it comes back.
pub fn charge_of(gas: Gas) -> Charge
    requires { Limits document01 gas }
    ensures { result ≡ charge_of gas }
{
    Charge {
        air: signed::of_u64(gas.air),
        carbon: signed::of_u64(gas.carbon),
        hydrogen: signed::of_u64(gas.hydrogen),
    }
}

// Whether the air has the oxygen for all the fuel.
pub fn lean(gas: Gas) -> bool
    requires { Limits document01 gas }
    ensures { result ≡ Burning·lean document01 gas }
{
    let masses = weights::weigh(gas);
    masses.used <= weights::oxygen(gas)
}

// The gas of a charge, refusals 4 and 5 tested.
pub fn admit(charge: Charge) -> Result<Gas, Refusal>
    ensures { paper_gas result ≡ first (charge_lines document01 charge) (gas_of charge) }
{
    if beyond(charge) {
        return Err(Refusal::Limit);
    }
    let gas = gas_of(charge);
    if !lean(gas) {
        return Err(Refusal::Rich);
    }
    Ok(gas)
}

// The mass of the fuel.
pub(crate) fn fuel_mass(gas: Gas) -> u64
    requires { Limits document01 gas }
    ensures { result ≡ fuel_mass document01 gas }
{
    weights::CARBON * gas.carbon + weights::HYDROGEN * gas.hydrogen
}

// The mass of the air and the fuel.
pub fn total_mass(gas: Gas) -> u64
    requires { Limits document01 gas }
    ensures { result ≡ total_mass document01 gas }
{
    weights::AIR * gas.air + fuel_mass(gas)
}
