// The inner door of marking: a station in whole numbers over a sheet that was judged before, for a program that keeps one sheet for many requests.
ghost use Rattle.std.specs.Prelude.{◌≡◌};
ghost use Rattle.marking.specs.Figures.{paper_numbers, numbers_told};

use air::Millikelvin;
use burning::Charge;
use refusal::Refusal;
use sheet::AcceptedSheet;

// A station's whole numbers: mK, specific content in 0.00001 C.H.U./lb, total mass in mg.
#[derive(Clone, Copy)]
pub struct StationNumbers {
    pub mk: i64,
    pub specific: i64,
    pub mass: i64,
}

// The whole numbers of a charge at a temperature: refusals 4, 5 and 6 tested.
pub fn station_judged(
    charge: Charge,
    t: Millikelvin,
    sheet: AcceptedSheet<'_>,
) -> Result<StationNumbers, Refusal>
    ensures { paper_numbers result ≡ numbers_told charge t.0 sheet.entry.list.now }
{
    let at = gas::inner::admit_at(charge, t)?;
    let specific = gas::inner::specific_at(at, sheet);
    let mass = signed::of_u64(burning::inner::total_mass(at.gas));
    Ok(StationNumbers {
        mk: t.0,
        specific,
        mass,
    })
}
