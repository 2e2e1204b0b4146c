// Fuel added to a gas (document 01, "The walk" and refusal 4): its numbers are tested before they are added, and it has a mass of its own.
ghost use Rattle.std.specs.Prelude.{◌≡◌, false, [], ◌∷◌, ◌+◌, ◌≤◌, length};
ghost use Rattle.signed.specs.Zed.{up};
ghost use Rattle.refusal.specs.Refusals.{first, ◌when◌};
ghost use Rattle.burning.specs.Burning.{document01, Limits};
ghost use Rattle.burning.specs.Fuel.{fuel_numbers, fuel_in, with_fuel, wrong_fuel, mass_added};
ghost use Rattle.burning.specs.Answers.{paper_fuelled};
ghost use Rattle.burning.specs.inner.Counts.{wrong_count, paper_atoms};

use crate::{Fuel, Gas, inner, weights};
use refusal::Refusal;

// the most atoms, as a count
const MOST_ATOMS: u64 = weights::MOST_ATOMS as u64;

// The fuel of its numbers: c, h.
pub fn fuel_in(numbers: &[i64]) -> Fuel
    requires { fuel_numbers ≤ length numbers.now }
    ensures { result ≡ fuel_in numbers.now }
{
    Fuel {
        carbon: numbers[0],
        hydrogen: numbers[1],
    }
}

// A count of atoms with more added, refusal 4 tested: atoms taken away, or more than their limit.
fn add_atoms(have: u64, more: i64) -> Result<u64, Refusal>
    requires { have ≤ document01.most_atoms }
    ensures { paper_atoms result ≡ first (4 when wrong_count have more ∷ []) (have + up more) }
{
    if !signed::inside(more, 0, weights::MOST_ATOMS) {
        return Err(Refusal::Limit);
    }
    let sum = have + signed::to_u64(more);
    if sum > MOST_ATOMS {
        return Err(Refusal::Limit);
    }
    Ok(sum)
}

// The gas with fuel added, refusal 4 tested.
pub fn add_fuel(gas: Gas, fuel: Fuel) -> Result<Gas, Refusal>
    requires { Limits document01 gas }
    ensures { paper_fuelled result ≡ first (4 when wrong_fuel document01 gas fuel ∷ []) (with_fuel gas fuel) }
{
    let carbon = add_atoms(gas.carbon, fuel.carbon)?;
    let hydrogen = add_atoms(gas.hydrogen, fuel.hydrogen)?;
    Ok(Gas {
        air: gas.air,
        carbon,
        hydrogen,
    })
}

// The mass of fuel that may be added to a gas.
pub fn mass_added(gas: Gas, fuel: Fuel) -> u64
    requires { Limits document01 gas × (wrong_fuel document01 gas fuel ≡ false) }
    ensures { result ≡ mass_added document01 fuel }
{
    inner::fuel_mass(Gas {
        air: gas.air,
        carbon: signed::to_u64(fuel.carbon),
        hydrogen: signed::to_u64(fuel.hydrogen),
    })
}
