// A gas that was admitted: what the two tests of a charge and that of a temperature leave, handed on with what they showed.
ghost use Rattle.std.specs.Prelude.{◌≡◌, true, pos};
ghost use Rattle.signed.specs.Zed.{in_z};
ghost use Rattle.air.specs.Limits.{coldest, hottest};
ghost use Rattle.burning.specs.Burning.{document01, Burns};

use air::Millikelvin;
use burning::Gas;

// A gas that burns lean, at a temperature of the table.
#[derive(Clone, Copy)]
pub struct Admitted {
    pub gas: Gas,
    pub t: Millikelvin,
    pub ghost burns: { Burns document01 gas },
    pub ghost covered: { in_z (pos coldest) (pos hottest) t.0 ≡ true },
}
