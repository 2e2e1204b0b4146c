// Burning (document 01, "Burning"): a charge of air and fuel, its limits, whether it is lean, what it burns to, and fuel added to it.
// The call takes every input. What it tells, in the paper's numbers (specs/Answers.antt), is the first refusal of its order whose condition holds, else the
// paper's formula in whole numbers (specs/Burning.antt).
#![tactic(auto)]

pub mod fuelling;
pub mod inner;
pub mod weights;

ghost use Rattle.std.specs.Prelude.{◌≡◌};
ghost use Rattle.burning.specs.Burning.{document01};
ghost use Rattle.burning.specs.Answers.{paper_burn, burn_told};

use refusal::Refusal;

// A charge: parts of air of 100 g, moles of carbon, moles of hydrogen atoms.
#[derive(Clone, Copy)]
pub struct Charge {
    pub air: i64,
    pub carbon: i64,
    pub hydrogen: i64,
}

// Fuel as it is handed in, any numbers: moles of carbon, moles of hydrogen atoms.
#[derive(Clone, Copy)]
pub struct Fuel {
    pub carbon: i64,
    pub hydrogen: i64,
}

// A charge whose numbers are within their limits, unsigned.
// stays: with no ghost field of its limits, since the definitions `gas_of` and `with_fuel` make one outside them, and demand 1 speaks of those; `Limits` is a clause of what needs it.
#[derive(Clone, Copy)]
pub struct Gas {
    pub air: u64,
    pub carbon: u64,
    pub hydrogen: u64,
}

// What a charge burns to, in mg.
#[derive(Clone, Copy)]
pub struct Products {
    pub co2: u64,
    pub h2o: u64,
    pub o2: u64,
    pub n2: u64,
    pub ar: u64,
}

// The masses that take part in a gas heat, in mg: the air, the oxygen used, CO2 and H2O.
#[derive(Clone, Copy)]
pub struct Masses {
    pub air: u64,
    pub used: i64,
    pub co2: u64,
    pub h2o: u64,
}

// What a charge burns to.
pub fn burn(charge: Charge) -> Result<Products, Refusal>
    ensures { paper_burn result ≡ burn_told document01 charge }
{
    let gas = inner::admit(charge)?;
    Ok(weights::burnt(gas))
}
