// One step of a walk, in two halves as document 01 has them: what it asks (4, 7, 5), and the search for the temperature (8 or 9), which writes the lent part of
// the looks. Every number of a step is tested before it is worked with, and nothing is written before the step is sure.
ghost use Rattle.std.specs.Prelude.{◌≡◌, false, ◌≤◌, ◌+ℤ◌, ◌-ℤ◌, length};
ghost use Rattle.std.specs.Int.{w64};
ghost use Rattle.std.proofs.Common.{SFits};
ghost use Rattle.air.specs.Limits.{look_places};
ghost use Rattle.burning.specs.Burning.{document01, Limits};
ghost use Rattle.burning.specs.Fuel.{wrong_fuel};
ghost use Rattle.walk.specs.Step.{step_heat, wrong_heat, asked, held, judge};
ghost use Rattle.walk.specs.inner.Work.{state_of, Stands, InReach, Asks, standing_of, StepGives};

use crate::Step;
use air::Millikelvin;
use burning::Gas;
use gas::{Admitted, Heat};
use refusal::Refusal;
use sheet::AcceptedSheet;

// Where a walk stands: its gas and temperature, with the gas heat there and at 15 °C, so that no step works either out again.
#[derive(Clone, Copy)]
pub(crate) struct Standing {
    pub gas: Gas,
    pub t: Millikelvin,
    pub heat: Heat,
    pub fifteen: Heat,
}

// What a step asks: the temperature of the new gas at which its heat is the target; with the new gas's heat at 15 °C.
#[derive(Clone, Copy)]
pub(crate) struct Asking {
    pub gas: Gas,
    pub target: Heat,
    pub fifteen: Heat,
}

// Whether a step's calorific value or plain heat is outside its range.
#[tactic(auto, using(signed::specs::Zed::in_plain))]
fn wrong_heat(p: Step) -> bool
    ensures { result ≡ wrong_heat p }
{
    !signed::inside(p.value, 0, 5000000)
        || !signed::inside(p.heat, -1000000000000000000, 1000000000000000000)
}

// The heat that a step brings: its fuel's mass × 1000 × the calorific value, and q.
#[tactic(auto, using(burning::specs::FuelLaws::mass_most, crate::proofs::Asking::burn_fits))]
fn step_heat(gas: Gas, p: Step) -> Heat
    requires { Limits document01 gas × (wrong_fuel document01 gas p.fuel ≡ false) × (wrong_heat p ≡ false) }
    ensures { result.0 ≡ step_heat document01 p }
{
    let fuel = p.fuel;
    let burn = signed::of_u64(burning::fuelling::mass_added(gas, fuel) * 1000) * p.value;
    Heat(burn + p.heat)
}

// What is held above 15 °C and what the step brings, as a heat of the new gas.
fn target(heat: Heat, fifteen: Heat, brought: Heat, new: Heat) -> Heat
    requires { InReach heat.0 fifteen.0 brought.0 new.0 }
    ensures { result.0 ≡ heat.0 -ℤ fifteen.0 +ℤ brought.0 +ℤ new.0 }
{
    Heat(heat.0 - fifteen.0 + brought.0 + new.0)
}

// The first half of a step: what it asks, refusals 4, 7 and 5 tested in this order.
fn asked_of(st: Standing, p: Step, sheet: AcceptedSheet<'_>) -> Result<Asking, Refusal>
    requires { Stands sheet.list.now st }
    ensures { Asks (asked document01 sheet.entry.list.now (held document01 sheet.entry.list.now (state_of st)) st.gas p) sheet.entry.list.now result }
{
    let old = st.gas;
    let gas = burning::fuelling::add_fuel(old, p.fuel)?;
    if wrong_heat(p) {
        return Err(Refusal::StepHeat);
    }
    if !burning::inner::lean(gas) {
        return Err(Refusal::Rich);
    }
    let t = Millikelvin(air::FIFTEEN_DEGREES);
    let fifteen = gas::inner::heat_at(Admitted { gas, t }, sheet);
    let target = target(st.heat, st.fifteen, step_heat(old, p), fifteen);
    Ok(Asking {
        gas,
        target,
        fifteen,
    })
}

// The state after a step that found its temperature: the heat there is the target less the rest.
fn stand(asked: Asking, t: Millikelvin, rest: Heat) -> Standing
    requires { SFits w64 (asked.target.0 -ℤ rest.0) }
    ensures { result ≡ standing_of asked t rest }
{
    Standing {
        gas: asked.gas,
        t,
        heat: Heat(asked.target.0 - rest.0),
        fifteen: asked.fifteen,
    }
}

// One step from where the walk stands: the state after it and its rest. The search writes the looks, into the first eleven places of the part that it is lent.
pub(crate) fn step(
    st: Standing,
    p: Step,
    looks: &mut [u32],
    sheet: AcceptedSheet<'_>,
) -> Result<(Standing, Heat), Refusal>
    requires { Stands sheet.list.now st × (look_places ≤ length looks.old) }
    ensures { StepGives (judge document01 sheet.entry.list.now (state_of st) p) sheet.entry.list.now looks.old result looks.new }
{
    let asked = asked_of(st, p, sheet)?;
    let (t, rest) = gas::inner::find(asked.gas, asked.target, looks, sheet)?;
    Ok((stand(asked, t, rest), rest))
}
