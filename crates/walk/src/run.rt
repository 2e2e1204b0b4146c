// The course of a walk past its start: the steps one after the other, up to the first that is refused.
ghost use Rattle.std.specs.Prelude.{◌≡◌, ◌+◌, ◌*◌, ◌≤◌, length, pos, true, Ok};
ghost use Rattle.signed.specs.Zed.{in_z};
ghost use Rattle.refusal.specs.Refusals.{gives};
ghost use Rattle.air.specs.Limits.{look_places, coldest, hottest};
ghost use Rattle.burning.specs.Burning.{document01, Limits, charge_of};
ghost use Rattle.walk.specs.Limits.{step_numbers, most_steps};
ghost use Rattle.walk.specs.Lists.{lists};
ghost use Rattle.walk.specs.Walk.{course_with, paper_course, run, steps_of, Walks};
ghost use Rattle.walk.specs.inner.Work.{state_of, Stands, Begun, SameLists, step_no};

use crate::lent::Lent;
use crate::stepping::Standing;
use crate::{Course, Step, stepping};
use air::Millikelvin;
use gas::Admitted;
use refusal::Refusal;
use sheet::AcceptedSheet;

// Where a walk stands before its first step.
#[tactic(auto, unfolding(signed::specs::Zed::in_z))]
pub(crate) fn begin(start: Admitted, sheet: AcceptedSheet<'_>) -> Standing
    ensures { Begun sheet.entry.list.now start.gas start.t result }
{
    let gas = start.gas;
    let t = Millikelvin(air::FIFTEEN_DEGREES);
    Standing {
        gas,
        t: start.t,
        heat: gas::inner::heat_at(start, sheet),
        fifteen: gas::inner::heat_at(Admitted { gas, t }, sheet),
    }
}

// A walk done to its end of n steps, or stopped at its step n.
// stays: that n is at most a walk's steps is a clause here and below, where a type of one number would be no plainer.
#[tactic(auto, using(crate::proofs::Halves::mk_told))]
fn came_to(n: usize, st: Standing, stop: Option<Refusal>) -> Course
    requires { (n ≤ most_steps) × Limits document01 st.gas × (in_z (pos coldest) (pos hottest) st.t.0 ≡ true) }
    ensures told { paper_course result ≡ course_with n (charge_of st.gas) (pos (state_of st).mk) stop }
    ensures same { result.stop ≡ stop }
{
    Course {
        steps: n as u32,
        charge: burning::inner::charge_of(st.gas),
        t: st.t,
        stop,
    }
}

// The step at an index of the list.
fn step_at(steps: &[i64], i: usize) -> Step
    requires { (i ≤ most_steps) × (step_numbers * i + step_numbers ≤ length steps.now) }
    ensures { result ≡ step_no steps.now i }
{
    let at = crate::STEP_NUMBERS * i;
    Step {
        fuel: burning::fuelling::fuel_in(&[steps[at], steps[at + 1]]),
        value: steps[at + 2],
        heat: steps[at + 3],
    }
}

// n steps from where the walk stands: each lends on its own eleven places of looks, and writes its temperature and rest once it is done.
pub(crate) fn go(
    start: Standing,
    n: usize,
    steps: &[i64],
    lent: &mut Lent<'_>,
    sheet: AcceptedSheet<'_>,
) -> Course
    requires stands { Stands sheet.list.now start }
    requires n_le_most_steps { (n ≤ most_steps) × (step_numbers * n ≤ length steps.now)
        × (n ≤ length lent.old.temperatures.now) × (n ≤ length lent.old.rests.now) × (look_places * n ≤ length lent.old.looks.now) }
    ensures walks { Walks (gives (run document01 sheet.entry.list.now (state_of start) (steps_of n steps.now)))
        (lists lent.old.temperatures.now lent.old.rests.now lent.old.looks.now) (Ok result)
        (lists lent.new.temperatures.now lent.new.rests.now lent.new.looks.now) }
    ensures same_lists { SameLists lent.old lent.new }
{
    let mut st = start;
    for i in 0..n {
        let place = air::LOOK_PLACES * i;
        match stepping::step(st, step_at(steps, i), &mut lent.looks[place..], sheet) {
            Err(refusal) => return came_to(i, st, Some(refusal)),
            Ok((next, rest)) => {
                lent.temperatures[i] = next.t.0;
                lent.rests[i] = rest.0;
                st = next;
            }
        }
    }
    came_to(n, st, None)
}
