// Figures for the pages and the marking of typed answers (document 01, "Figures for the pages and typed answers").
// `mark` tells the paper's refusals in its order, 12 then 11, else whether the answer counts by the exact value of the number typed in: specs/Marking.antt.
// `station` tells refusals 1, 3, 4, 5 and 6, else three whole numbers as floats; `difference` is one float subtraction, exact for two like figures of any two
// stations: specs/Figures.antt and specs/StationLaws.antt.
#![tactic(auto)]

mod exact;
pub mod inner;

ghost use Rattle.std.specs.Prelude.{◌≡◌, false, not, [], ◌∷◌, ◌≤◌, ◌<◌, ◌^◌, nat_abs};
ghost use Rattle.std.specs.Float.{binary64};
ghost use Rattle.std.specs.Float.Ieee.{sub};
ghost use Rattle.std.specs.Float.Ieee.Scale.{finite};
ghost use Rattle.refusal.specs.Refusals.{first, ◌when◌};
ghost use Rattle.marking.specs.Marking.{paper_mark, marked, near, out_of_range};
ghost use Rattle.marking.specs.Exact.{scaled_of};
ghost use Rattle.marking.specs.Figures.{figures_of, paper_station, station_told};

use air::Millikelvin;
use burning::Charge;
use inner::StationNumbers;
use refusal::Refusal;

const KEY_LIMIT: i64 = 1_000_000_000_000;

const WINDOW_LIMIT: i64 = 100_000;

// What a candidate typed in: kelvins, a specific content in C.H.U./lb, or nothing.
#[derive(Clone, Copy)]
pub enum Typed {
    Kelvins(f64),
    Content(f64),
    Blank,
}

// Whether a typed answer counts.
#[derive(Clone, Copy)]
pub enum Marked {
    Counts,
    Misses,
}

// A typed answer's number with the scale of its kind. It is picked first, so that a number is marked in one place: in two copies, one for each scale, the compiler branches on the answer.
fn at_scale(typed: Typed) -> Option<(u64, f64)>
    ensures { result ≡ scaled_of typed }
{
    match typed {
        Typed::Kelvins(x) => Some((1_000, x)),
        Typed::Content(x) => Some((100_000, x)),
        Typed::Blank => None,
    }
}

// The mark of a typed answer against a key and a window.
pub fn mark(typed: Typed, key: i64, window: i64) -> Result<Marked, Refusal>
    ensures { paper_mark result ≡ marked typed key window }
{
    if !signed::inside(key, -KEY_LIMIT, KEY_LIMIT) || !signed::inside(window, 0, WINDOW_LIMIT) {
        return Err(Refusal::OutOfRange);
    }
    let Some((scale, x)) = at_scale(typed) else {
        return Err(Refusal::NoNumber);
    };
    mark_number(scale, x, key, window)
}

// The mark of a number at a scale, for a key and a window in range.
// stays: the facts of a scale are clauses here, of `lies` and of `cut_by`, and no ghost fields: a struct of one number would have to be built with its proofs in `scaled_of`, and is no plainer.
fn mark_number(scale: u64, x: f64, key: i64, window: i64) -> Result<Marked, Refusal>
    requires scale_some { 0 < scale }
    requires scale_most { scale ≤ 100000 }
    requires in_range { out_of_range key window ≡ false }
    ensures { paper_mark result ≡ first (11 when not (finite x) ∷ []) (near scale x key window) }
{
    if !x.is_finite() {
        return Err(Refusal::NoNumber);
    }
    let fields = exact::fields_of(x);
    let middle = exact::turn(fields.negative, key);
    if exact::lies(scale, fields, middle - window, middle + window) {
        Ok(Marked::Counts)
    } else {
        Ok(Marked::Misses)
    }
}

// A station's figures for the pages, whole numbers all: mK, specific content in 0.00001 C.H.U./lb, total mass in mg.
#[derive(Clone, Copy)]
pub struct StationFigure {
    pub millikelvin: f64,
    pub content: f64,
    pub mass: f64,
}

// The three whole numbers as figures, with no loss.
fn figures(numbers: StationNumbers) -> StationFigure
    requires mk_in_float { nat_abs numbers.mk ≤ 2 ^ 53 }
    requires specific_in_float { nat_abs numbers.specific ≤ 2 ^ 53 }
    requires mass_in_float { nat_abs numbers.mass ≤ 2 ^ 53 }
    ensures { result ≡ figures_of numbers.mk numbers.specific numbers.mass }
{
    StationFigure {
        millikelvin: numbers.mk as f64,
        content: numbers.specific as f64,
        mass: numbers.mass as f64,
    }
}

// The figures of a charge at a temperature.
pub fn station(charge: Charge, t: Millikelvin, sheet: &[u32]) -> Result<StationFigure, Refusal>
    ensures { paper_station result ≡ station_told charge t.0 sheet.now }
{
    let heats = rows::columns::heat_column();
    let accepted = sheet::inner::judge(sheet, &heats)?;
    let numbers = inner::station_judged(charge, t, accepted)?;
    Ok(figures(numbers))
}

// One figure less a like one, by one float subtraction.
pub fn difference(a: f64, b: f64) -> f64
    ensures { result ≡ sub binary64 a b }
{
    a - b
}
