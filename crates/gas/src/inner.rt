// The inner doors of gas: a charge tested in parts, with its heats and its search past the tests, for the walk and the figures above; and what each entry tells past
// the judge, for a program that keeps one sheet for many requests. The sheet was judged once.
ghost use Rattle.std.specs.Prelude.{◌≡◌, [], ◌++◌, ◌≤◌, length, IfOk};
ghost use Rattle.signed.specs.Zed.{up};
ghost use Rattle.refusal.specs.Refusals.{first, told_as};
ghost use Rattle.air.specs.Limits.{look_places};
ghost use Rattle.burning.specs.Burning.{document01, gas_of, Burns};
ghost use Rattle.burning.specs.Answers.{charge_lines};
ghost use Rattle.gas.specs.Heat.{gas_heat, content_above15, specific_content};
ghost use Rattle.gas.specs.Answers.{paper_heat, paper_specific, temperature_lines, heat_above, told_above, specific_told, Inverted, Temperature};

use crate::{Above, Admitted, Heat, heats, search};
use air::Millikelvin;
use burning::{Charge, Gas};
use refusal::Refusal;
use sheet::AcceptedSheet;

// The gas of a charge at a temperature, refusals 4, 5 and 6 tested.
pub fn admit_at(charge: Charge, t: Millikelvin) -> Result<Admitted, Refusal>
    ensures told { told_as (λ a. a.gas) result ≡ first (charge_lines document01 charge ++ temperature_lines t.0) (gas_of charge) }
    ensures same { IfOk result (λ a. a.t ≡ t) }
{
    let gas = burning::inner::admit(charge)?;
    if !air::inner::covered(t) {
        return Err(Refusal::Temperature);
    }
    Ok(Admitted { gas, t })
}

// The gas heat at a temperature.
pub fn heat_at(at: Admitted, sheet: AcceptedSheet<'_>) -> Heat
    ensures { result.0 ≡ gas_heat document01 sheet.entry.list.now at.gas (up at.t.0) }
{
    heats::at_temperature(burning::weights::weigh(at.gas), at.t, sheet)
}

// The content above 15 °C at a temperature.
pub(crate) fn content_at(at: Admitted, sheet: AcceptedSheet<'_>) -> Heat
    ensures { result.0 ≡ content_above15 document01 sheet.entry.list.now at.gas (up at.t.0) }
{
    let fifteen = Admitted {
        gas: at.gas,
        t: Millikelvin(air::FIFTEEN_DEGREES),
    };
    let below = heat_at(fifteen, sheet);
    heats::less(heat_at(at, sheet), below)
}

// The heat at a temperature, above 0 K or above 15 °C.
fn heat_above(above: Above, at: Admitted, sheet: AcceptedSheet<'_>) -> Heat
    ensures { result.0 ≡ heat_above above document01 sheet.entry.list.now at.gas (up at.t.0) }
{
    match above {
        Above::Zero => heat_at(at, sheet),
        Above::Fifteen => content_at(at, sheet),
    }
}

// The specific content at a temperature.
pub fn specific_at(at: Admitted, sheet: AcceptedSheet<'_>) -> i64
    ensures { result ≡ specific_content document01 sheet.entry.list.now at.gas (up at.t.0) }
{
    let content = content_at(at, sheet);
    signed::nearest(content.0, burning::inner::total_mass(at.gas))
}

// The temperature of a heat with the rest, refusals 8 and 9 tested. The looks go into the first eleven places of the list, 0 where unused.
pub fn find(
    gas: Gas,
    target: Heat,
    looks: &mut [u32],
    sheet: AcceptedSheet<'_>,
) -> Result<(Millikelvin, Heat), Refusal>
    requires { Burns document01 gas × (look_places ≤ length looks.old) }
    ensures { Inverted [] (gas_heat document01 sheet.entry.list.now gas) target.0 looks.old result looks.new }
{
    let masses = burning::weights::weigh(gas);
    let first = heats::at_kelvin(masses, rows::FIRST_KELVIN, sheet);
    if target.0 < first.0 {
        return Err(Refusal::Below);
    }
    let last = heats::at_kelvin(masses, rows::LAST_KELVIN, sheet);
    if last.0 < target.0 {
        return Err(Refusal::Above);
    }
    Ok(search::reached(target, last, looks, masses, sheet))
}

// A heat of a charge at a temperature, over a sheet that was judged: refusals 4, 5 and 6 tested.
pub fn heat_judged(
    above: Above,
    charge: Charge,
    t: Millikelvin,
    sheet: AcceptedSheet<'_>,
) -> Result<Heat, Refusal>
    ensures { paper_heat result ≡ told_above above document01 charge t.0 sheet.entry.list.now }
{
    let at = admit_at(charge, t)?;
    Ok(heat_above(above, at, sheet))
}

// The specific content of a charge at a temperature, over a sheet that was judged.
pub fn specific_judged(
    charge: Charge,
    t: Millikelvin,
    sheet: AcceptedSheet<'_>,
) -> Result<i64, Refusal>
    ensures { paper_specific result ≡ specific_told document01 charge t.0 sheet.entry.list.now }
{
    let at = admit_at(charge, t)?;
    Ok(specific_at(at, sheet))
}

// The temperature of a heat with the rest, over a sheet that was judged: refusals 10, 4, 5, 8 and 9 tested.
#[tactic(auto, using(crate::proofs::Short::short_told))]
pub fn temperature_judged(
    charge: Charge,
    target: Heat,
    looks: &mut [u32],
    sheet: AcceptedSheet<'_>,
) -> Result<(Millikelvin, Heat), Refusal>
    ensures { Temperature document01 charge target.0 sheet.entry.list.now looks.old result looks.new }
{
    if looks.len() < air::LOOK_PLACES {
        return Err(Refusal::ShortList);
    }
    let gas = burning::inner::admit(charge)?;
    find(gas, target, looks, sheet)
}
