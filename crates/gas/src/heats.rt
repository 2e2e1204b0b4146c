// The heat of masses that were weighed, over an accepted sheet.
ghost use Rattle.std.specs.Prelude.{◌≡◌, true, ◌*◌, ◌≤◌, ◌<◌, pos, ◌-ℤ◌};
ghost use Rattle.std.specs.Int.{w64};
ghost use Rattle.std.proofs.Common.{SFits};
ghost use Rattle.signed.specs.Zed.{up, in_z};
ghost use Rattle.rows.specs.Limits.{first_kelvin, last_kelvin};
ghost use Rattle.air.specs.Limits.{coldest, hottest};
ghost use Rattle.gas.specs.Heat.{heat_sum, heat_of};
ghost use Rattle.gas.specs.inner.Sizes.{Sized, PerPound, Rises, along as Sizes·along};

use crate::Heat;
use air::Millikelvin;
use burning::Masses;
use sheet::AcceptedSheet;

// The heat of the masses, each at its own heat per pound.
// stays: `Sized` is a clause here and above, and no ghost field of Masses, since the definition `masses_of` makes one of any gas.
fn sum(gas: Masses, air: u64, o2: u64, co2: u64, h2o: u64) -> Heat
    requires { Sized gas × PerPound air o2 co2 h2o }
    ensures { result.0 ≡ heat_sum gas air o2 co2 h2o }
{
    let plus = gas.air * air + gas.co2 * co2 + gas.h2o * h2o;
    Heat(signed::of_u64(plus) - gas.used * signed::of_u64(o2))
}

// The heat at a whole kelvin.
pub(crate) fn at_kelvin(gas: Masses, kelvin: u64, sheet: AcceptedSheet<'_>) -> Heat
    requires { Sized gas × (first_kelvin ≤ kelvin) × (kelvin ≤ last_kelvin) }
    ensures { result.0 ≡ heat_of gas sheet.entry.list.now (1000 * kelvin) }
{
    sum(
        gas,
        1000 * rows::figure(sheet.heats, kelvin),
        1000 * sheet::inner::o2_at(sheet.list, kelvin),
        1000 * sheet::inner::co2_at(sheet.list, kelvin),
        1000 * sheet::inner::h2o_at(sheet.list, kelvin),
    )
}

// The heat f mK above a kelvin, from the heat there and at the next.
fn along(here: Heat, next: Heat, f: u64) -> Heat
    requires { Rises here.0 next.0 × (f < 1000) }
    ensures { result.0 ≡ Sizes·along here.0 next.0 f }
{
    Heat(here.0 + signed::of_u64(f * (signed::gap(here.0, next.0) / 1000)))
}

// The heat at a temperature; at 2,000,000 mK no row is read but the last.
#[tactic(auto, using(crate::proofs::LastRow::last_heat))]
pub(crate) fn at_temperature(gas: Masses, t: Millikelvin, sheet: AcceptedSheet<'_>) -> Heat
    requires { Sized gas × (in_z (pos coldest) (pos hottest) t.0 ≡ true) }
    ensures { result.0 ≡ heat_of gas sheet.entry.list.now (up t.0) }
{
    let mk = signed::to_u64(t.0);
    if mk == air::inner::LAST_MK {
        return at_kelvin(gas, rows::LAST_KELVIN, sheet);
    }
    let k = mk / 1000;
    along(
        at_kelvin(gas, k, sheet),
        at_kelvin(gas, k + 1, sheet),
        mk % 1000,
    )
}

// One heat less another.
pub(crate) fn less(a: Heat, b: Heat) -> Heat
    requires { SFits w64 (a.0 -ℤ b.0) }
    ensures { result.0 ≡ a.0 -ℤ b.0 }
{
    Heat(a.0 - b.0)
}
