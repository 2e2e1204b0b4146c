// The walk (document 01, "The walk"): steps of fuel and heat from a starting charge, temperature and sheet, each step's temperature, rest and looks in lent
// lists. The promise fixes what comes back and every place of the three lists for any input: what the answer tells is the first refusal of the start, else the run
// over the steps up to the first that is refused (specs/Walk.antt, specs/Step.antt). Demand 3 is a theorem about every outcome that meets it (specs/Demand3.antt).
#![tactic(auto)]

pub mod inner;
mod lent;
mod run;
mod stepping;

ghost use Rattle.sheet.specs.Answers.{sheet_lines};
ghost use Rattle.walk.specs.Lists.{lists};
ghost use Rattle.walk.specs.Walk.{WalkPromise};

use air::Millikelvin;
use burning::{Charge, Fuel};
use refusal::Refusal;

// A step: the fuel that it adds, calorific value in hundredths of C.H.U./lb, plain heat q.
#[derive(Clone, Copy)]
pub struct Step {
    pub fuel: Fuel,
    pub value: i64,
    pub heat: i64,
}

// What comes back of a walk that began: the number of steps done, the charge and temperature after the last of them, and the refusal of the step that stopped it; none of a
// walk done to its end.
#[derive(Clone, Copy)]
pub struct Course {
    pub steps: u32,
    pub charge: Charge,
    pub t: Millikelvin,
    pub stop: Option<Refusal>,
}

// numbers of a step
pub const STEP_NUMBERS: usize = 4;
// steps of the longest walk, their numbers, and the places for their looks
pub const MOST_STEPS: usize = 64;

pub const MOST_NUMBERS: usize = STEP_NUMBERS * MOST_STEPS;

pub const MOST_LOOKS: usize = air::LOOK_PLACES * MOST_STEPS;

// The walk of a charge from a temperature over the steps, four numbers each. Step i writes place i of the temperatures and rests, and the eleven places of looks from
// 11 i on; a refused step and a refused start write nothing.
// stays: three lists and not one struct of them, since a C call hands over three, and the clause of `walk` names them.
pub fn walk(
    charge: Charge,
    t: Millikelvin,
    sheet: &[u32],
    steps: &[i64],
    temperatures: &mut [i64],
    rests: &mut [i64],
    looks: &mut [u32],
) -> Result<Course, Refusal>
    ensures { WalkPromise (sheet_lines sheet.now) sheet.now charge t.0 steps.now
        (lists temperatures.old rests.old looks.old) result
        (lists temperatures.new rests.new looks.new) }
{
    let heats = rows::columns::heat_column();
    let accepted = sheet::inner::judge(sheet, &heats)?;
    inner::walk_judged(charge, t, steps, temperatures, rests, looks, accepted)
}
