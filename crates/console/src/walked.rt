// A walk with the lists that it wrote, and a step of it.
ghost use Rattle.std.specs.Prelude.{◌≤◌, length};
ghost use Rattle.air.specs.Limits.{look_places};
ghost use Rattle.walk.specs.Walk.{paper_walk};
ghost use Rattle.console.specs.inner.Shown.{steps_in, Holds};

use refusal::Refusal;
use walk::Course;

// What a walk came to, and the lists that it wrote, which have places for the steps that it did.
#[derive(Clone, Copy)]
pub(crate) struct Walked<'a> {
    pub answer: Result<Course, Refusal>,
    pub temperatures: &'a [i64],
    pub rests: &'a [i64],
    pub looks: &'a [u32],
    pub ghost holds: { Holds (steps_in (paper_walk answer)) temperatures.now rests.now looks.now },
}

// A step that was done: its temperature in mK, its rest, and its places of the looks.
#[derive(Clone, Copy)]
pub(crate) struct StepDone<'a> {
    pub mk: i64,
    pub rest: i64,
    pub looks: &'a [u32],
    pub ghost few: { length looks.now ≤ look_places },
}
