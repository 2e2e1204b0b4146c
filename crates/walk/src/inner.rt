// The inner door of walk: a walk over a sheet that was judged before, for a program that keeps one sheet for many requests.
ghost use Rattle.std.specs.Prelude.{◌≡◌, [], ◌≤◌};
ghost use Rattle.walk.specs.Limits.{most_steps};
ghost use Rattle.walk.specs.Lists.{lists};
ghost use Rattle.walk.specs.Walk.{wrong_steps, short_lists, WalkPromise};

use crate::lent::Lent;
use crate::{Course, run};
use air::Millikelvin;
use burning::Charge;
use refusal::Refusal;
use sheet::AcceptedSheet;

// Whether a list of steps is no multiple of four numbers, or over the most.
fn wrong_steps(numbers: usize) -> bool
    ensures { result ≡ wrong_steps numbers }
{
    numbers % crate::STEP_NUMBERS != 0 || numbers > crate::MOST_NUMBERS
}

// Whether a lent list is too short for n steps.
fn short_lists(n: usize, temperatures: usize, rests: usize, looks: usize) -> bool
    requires { n ≤ most_steps }
    ensures { result ≡ short_lists n temperatures rests looks }
{
    temperatures < n || rests < n || looks < air::LOOK_PLACES * n
}

// A walk over an accepted sheet: refusals 13, 10, 4, 5, 6, then the steps.
// stays: three lists, as the clause of `walk_judged` names them; `run::go` has them under one name.
pub fn walk_judged(
    charge: Charge,
    t: Millikelvin,
    steps: &[i64],
    temperatures: &mut [i64],
    rests: &mut [i64],
    looks: &mut [u32],
    sheet: AcceptedSheet<'_>,
) -> Result<Course, Refusal>
    ensures { WalkPromise [] sheet.entry.list.now charge t.0 steps.now
        (lists temperatures.old rests.old looks.old) result
        (lists temperatures.new rests.new looks.new) }
{
    if wrong_steps(steps.len()) {
        return Err(Refusal::Steps);
    }
    let n = steps.len() / crate::STEP_NUMBERS;
    if short_lists(n, temperatures.len(), rests.len(), looks.len()) {
        return Err(Refusal::ShortList);
    }
    let start = gas::inner::admit_at(charge, t)?;
    let standing = run::begin(start, sheet);
    let mut lent = Lent {
        temperatures,
        rests,
        looks,
    };
    Ok(run::go(standing, n, steps, &mut lent, sheet))
}
