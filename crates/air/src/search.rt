// The search of a psi by the halving rule, past its refusals. Between the end tests and the division it reads psi at no whole kelvin but the middles that
// it writes down: `inner::halve` has the only tests on the way, and each follows the write of its look.
ghost use Rattle.std.specs.Prelude.{◌≡◌, ◌≤◌, ◌<◌, ◌*◌, pos, length};
ghost use Rattle.rows.specs.Limits.{first_kelvin, last_kelvin};
ghost use Rattle.rows.specs.Rows.{rows_psi};
ghost use Rattle.rows.specs.Table.{air_psi};
ghost use Rattle.air.specs.Limits.{look_places};
ghost use Rattle.air.specs.inner.Search.{psi_fits, PsiRow, psi_found, PsiSearched};

use crate::{Millikelvin, inner};

// The one division: the temperature between the kelvin kept and the next, with the rest. a and b are psi at the two.
#[tactic(auto, using(crate::proofs::PsiSearch::divided))]
fn divide(target: u64, row: u64, a: u64, b: u64) -> (Millikelvin, u64)
    requires { PsiRow target row a b }
    ensures { result ≡ psi_found target }
{
    let slope = b - a;
    let over = target - 1000 * a;
    let mk = signed::of_u64(1000 * row + inner::thousandths(over, slope));
    (Millikelvin(mk), over % slope)
}

// The answer to a target that the table reaches.
pub(crate) fn psi_reached(
    target: u64,
    looks: &mut [u32],
    psi: &[u32; rows::ROWS],
) -> (Millikelvin, u64)
    requires { (psi.now ≡ rows_psi) × (look_places ≤ length looks.old) × (1000 * air_psi first_kelvin ≤ target) × (target ≤ 1000 * air_psi last_kelvin) }
    ensures { PsiSearched target looks.old result looks.new }
{
    if target == 1000 * rows::figure(psi, rows::LAST_KELVIN) {
        inner::lay(&[0; crate::LOOK_PLACES], looks);
        return (Millikelvin(crate::HOTTEST), 0);
    }
    let mut eleven = [0; crate::LOOK_PLACES];
    let row = inner::halve(
        |k|
            requires { (first_kelvin ≤ k) × (k ≤ last_kelvin) × (psi.now ≡ rows_psi) }
            ensures { result ≡ psi_fits target k }
        { 1000 * rows::figure(psi, k) <= target },
        &mut eleven,
    );
    inner::lay(&eleven, looks);
    divide(
        target,
        row,
        rows::figure(psi, row),
        rows::figure(psi, row + 1),
    )
}
