// The temperature of a heat by the halving rule, past its refusals. Between the end tests and the division no heat is worked out but at the middles that are
// written down: the test that `halve` hands on has the only call of `at_kelvin` on the way. The division reads the two heats of the row that was kept.
ghost use Rattle.std.specs.Prelude.{◌≡◌, ◌*◌, ◌≤◌, length, ◌≤ℤ◌};
ghost use Rattle.rows.specs.Limits.{first_kelvin, last_kelvin};
ghost use Rattle.air.specs.Limits.{look_places, coldest, hottest};
ghost use Rattle.air.specs.Halving.{Halved};
ghost use Rattle.air.specs.Inverse.{fits};
ghost use Rattle.gas.specs.Heat.{heat_of};
ghost use Rattle.gas.specs.inner.Sizes.{Sized};
ghost use Rattle.gas.specs.inner.Search.{heat_fits, HoldsTarget, divided, Searched};

use crate::{Heat, heats};
use air::Millikelvin;
use burning::Masses;
use sheet::AcceptedSheet;

// The halving rule over the heats of the masses: the row that it keeps. The looks go into the eleven places.
fn halve(
    target: Heat,
    looks: &mut [u32; air::LOOK_PLACES],
    gas: Masses,
    sheet: AcceptedSheet<'_>,
) -> u64
    requires { Sized gas }
    ensures { Halved (heat_fits gas sheet.entry.list.now target.0) first_kelvin last_kelvin 0 looks.old result looks.new }
{
    air::inner::halve(
        |k|
            requires { (first_kelvin ≤ k) × (k ≤ last_kelvin) × Sized gas }
            ensures { result ≡ fits (heat_of gas sheet.entry.list.now) target.0 (1000 * k) }
        { heats::at_kelvin(gas, k, sheet).0 <= target.0 },
        looks,
    )
}

// The one division: the temperature in the row that was kept, with the rest. A thousandth of the row's rise is its slope.
fn divide(target: Heat, row: u64, here: Heat, next: Heat) -> (Millikelvin, Heat)
    requires { HoldsTarget target.0 row here.0 next.0 }
    ensures { result ≡ divided target.0 row here.0 next.0 }
{
    let over = signed::gap(here.0, target.0);
    let slope = signed::gap(here.0, next.0) / 1000;
    let mk = signed::of_u64(1000 * row + air::inner::thousandths(over, slope));
    (Millikelvin(mk), Heat(signed::of_u64(over % slope)))
}

// The answer to a target from the heat at 200 K to `last`, the heat at 2,000 K. The looks are laid into the lent part, 0 where unused.
pub(crate) fn reached(
    target: Heat,
    last: Heat,
    looks: &mut [u32],
    gas: Masses,
    sheet: AcceptedSheet<'_>,
) -> (Millikelvin, Heat)
    requires ready { Sized gas × (look_places ≤ length looks.old) × (last.0 ≡ heat_of gas sheet.list.now hottest) }
    requires reached { (heat_of gas sheet.list.now coldest ≤ℤ target.0) × (target.0 ≤ℤ last.0) }
    ensures { Searched (heat_of gas sheet.entry.list.now) target.0 looks.old result looks.new }
{
    if last.0 <= target.0 {
        air::inner::lay(&[0; air::LOOK_PLACES], looks);
        return (Millikelvin(air::HOTTEST), Heat(0));
    }
    let mut eleven = [0; air::LOOK_PLACES];
    let row = halve(target, &mut eleven, gas, sheet);
    air::inner::lay(&eleven, looks);
    let here = heats::at_kelvin(gas, row, sheet);
    divide(target, row, here, heats::at_kelvin(gas, row + 1, sheet))
}
