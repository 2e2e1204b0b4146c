// The gas (document 01, "Burning" and "Temperature from heat"): the heat, contents and specific content of what a charge burns to, and the temperature of a heat.
// Every call takes every input and judges a sheet list that it is lent first, once. What an answer tells, in the paper's numbers (specs/Answers.antt), is the
// first refusal of its order whose condition holds, else the paper's formula in whole numbers (specs/Heat.antt).
#![tactic(auto)]

mod admission;
mod heats;
pub mod inner;
mod search;

ghost use Rattle.std.specs.Prelude.{◌≡◌};
ghost use Rattle.burning.specs.Burning.{document01};
ghost use Rattle.gas.specs.Answers.{paper_heat, paper_specific, heat_told, content_told, specific_told, Temperature};

pub use admission::Admitted;
use air::Millikelvin;
use burning::Charge;
use refusal::Refusal;

// A gas heat, in mg times 0.00001 C.H.U./lb.
#[derive(Clone, Copy)]
pub struct Heat(pub i64);

// What a heat is counted above: 0 K for a gas heat, 15 °C for a content.
#[derive(Clone, Copy)]
pub enum Above {
    Zero,
    Fifteen,
}

// The gas heat of a charge at a temperature.
// stays: this and `content` by their names, for the C interface (`gaskeys_gas_heat`, `gaskeys_content`); below them is one function.
pub fn gas_heat(charge: Charge, t: Millikelvin, sheet: &[u32]) -> Result<Heat, Refusal>
    ensures { paper_heat result ≡ heat_told document01 charge t.0 sheet.now }
{
    let heats = rows::columns::heat_column();
    let accepted = sheet::inner::judge(sheet, &heats)?;
    inner::heat_judged(Above::Zero, charge, t, accepted)
}

// The content of a charge above 15 °C at a temperature.
pub fn content(charge: Charge, t: Millikelvin, sheet: &[u32]) -> Result<Heat, Refusal>
    ensures { paper_heat result ≡ content_told document01 charge t.0 sheet.now }
{
    let heats = rows::columns::heat_column();
    let accepted = sheet::inner::judge(sheet, &heats)?;
    inner::heat_judged(Above::Fifteen, charge, t, accepted)
}

// The specific content of a charge at a temperature, in 0.00001 C.H.U./lb to the nearest whole number, a tie to the even one.
pub fn specific_content(charge: Charge, t: Millikelvin, sheet: &[u32]) -> Result<i64, Refusal>
    ensures { paper_specific result ≡ specific_told document01 charge t.0 sheet.now }
{
    let heats = rows::columns::heat_column();
    let accepted = sheet::inner::judge(sheet, &heats)?;
    inner::specific_judged(charge, t, accepted)
}

// The greatest temperature whose gas heat is at most the target, with the rest. The looks go into the first eleven places of the list, 0 where unused.
pub fn temperature(
    charge: Charge,
    target: Heat,
    sheet: &[u32],
    looks: &mut [u32],
) -> Result<(Millikelvin, Heat), Refusal>
    ensures { Temperature document01 charge target.0 sheet.now looks.old result looks.new }
{
    let heats = rows::columns::heat_column();
    let accepted = sheet::inner::judge(sheet, &heats)?;
    inner::temperature_judged(charge, target, looks, accepted)
}
