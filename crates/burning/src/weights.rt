// The masses of a charge that is within its limits. The weights and limits of document 01 stand here and nowhere else in the code.
ghost use Rattle.std.specs.Prelude.{◌≡◌, ◌*◌, pos};
ghost use Rattle.burning.specs.Burning.{document01, Limits, Burns, products};
ghost use Rattle.burning.specs.Burning.{masses_of};

use crate::{Gas, Masses, Products};

// C 12.011, H 1.008, O 16.000
pub const CARBON: u64 = 12011;

pub const HYDROGEN: u64 = 1008;

const OXYGEN: u64 = 16000;

// a part of air, with its O2, N2 and Ar
pub const AIR: u64 = 100000;

const AIR_O2: u64 = 23186;

const AIR_N2: u64 = 75463;

const AIR_AR: u64 = 1351;

// 1 ≤ A ≤ 100,000; c and h from 0 to 50,000
pub const MOST_AIR: i64 = 100000;

pub const MOST_ATOMS: i64 = 50000;

// The masses that take part in the heat.
pub fn weigh(gas: Gas) -> Masses
    requires { Limits document01 gas }
    ensures { result ≡ masses_of document01 gas }
{
    Masses {
        air: AIR * gas.air,
        used: signed::of_u64(2 * OXYGEN * gas.carbon + OXYGEN / 2 * gas.hydrogen),
        co2: (CARBON + 2 * OXYGEN) * gas.carbon,
        h2o: (HYDROGEN + OXYGEN / 2) * gas.hydrogen,
    }
}

// The oxygen of the air.
pub(crate) fn oxygen(gas: Gas) -> i64
    requires { Limits document01 gas }
    ensures { result ≡ pos (document01.air_o2 * gas.air) }
{
    signed::of_u64(AIR_O2 * gas.air)
}

// What a lean charge burns to.
pub(crate) fn burnt(gas: Gas) -> Products
    requires { Burns document01 gas }
    ensures { result ≡ products document01 gas }
{
    let masses = weigh(gas);
    Products {
        co2: masses.co2,
        h2o: masses.h2o,
        o2: signed::gap(masses.used, oxygen(gas)),
        n2: AIR_N2 * gas.air,
        ar: AIR_AR * gas.air,
    }
}
