// The calls for C and Rust: numbers and lent lists in, one struct by value out. Each takes every input and asks the entry of the same name; its promise is that entry's,
// with the answer set out as a struct: 0 or the refusal's number, its row and whether it has one, the values, and 0 in every field that a case does not have
// (specs/Flat.antt of telling). Lent lists hold on return what the entry promises (specs/Lent.antt). The reading of a sheet in
// pieces goes in and out as seven numbers. Two have no entry below: the built-in sheet put into a list, and the version.
// include/gaskeys.h has the same calls for a reader of C.
// stays: a charge and a temperature come in as numbers, and the lent lists one by one, for the C interface: they are the arguments of C's calls
#![tactic(auto)]

ghost use Rattle.std.specs.Prelude.{◌≡◌, [], ◌∷◌};
ghost use Rattle.air.specs.Answers.{air_heat_told, psi_told as airPsiTold, cp_told as airCpTold};
ghost use Rattle.sheet.specs.Answers.{judge_told};
ghost use Rattle.burning.specs.Burning.{document01, charge_in};
ghost use Rattle.burning.specs.Answers.{burn_told};
ghost use Rattle.gas.specs.Answers.{heat_told, content_told, specific_told};
ghost use Rattle.walk.specs.Lists.{lists};
ghost use Rattle.marking.specs.Marking.{marked};
ghost use Rattle.marking.specs.Figures.{station_told};
ghost use Rattle.telling.specs.Flat.{flat_sheet, flat_burn, flat_heat, flat_reading, flat_station, flat_mark, typed_of};
ghost use Rattle.sheet.specs.Pieces.{opened};
ghost use Rattle.telling.specs.Pieces.{state_of, reading_in};
ghost use Rattle.capi.specs.Lent.{SheetIs, BuiltInIs, WrittenIs, PieceIs, closed_told, TemperatureIs, PsiIs, WalkCall};

use air::Millikelvin;
use gas::Heat;
use refusal::Refusal;
use telling::pieces::{PieceTold, ReadingState};
use telling::{
    BurnTold, HeatTold, MarkTold, PsiTold, ReadingTold, SheetTold, StationTold, TemperatureTold,
    WalkTold, WrittenTold, pieces,
};

// up by one where a number, a list or a struct changes its meaning: 2 since a specific content is rounded to the nearest
const VERSION: u32 = 2;

// The version of these calls. The symbol has it in its name, so that what was compiled for another version does not link.
#[unsafe(no_mangle)]
pub extern "C" fn gaskeys_version_2() -> u32
    ensures { result ≡ 2 }
{
    VERSION
}

// Reads the text of a sheet into a list of 5,403 numbers.
#[unsafe(no_mangle)]
pub extern "C" fn gaskeys_read_sheet(text: &[u8], list: &mut [u32]) -> SheetTold
    ensures { SheetIs text.now list.old result list.new }
{
    telling::tell_sheet(sheet::read_sheet(text, list))
}

// Judges a sheet list.
#[unsafe(no_mangle)]
pub extern "C" fn gaskeys_judge_sheet(list: &[u32]) -> SheetTold
    ensures { result ≡ flat_sheet (judge_told list.now) }
{
    telling::tell_sheet(sheet::judge_sheet(list))
}

// Puts the built-in sheet into a list of 5,403 numbers.
#[unsafe(no_mangle)]
pub extern "C" fn gaskeys_built_in_sheet(list: &mut [u32]) -> SheetTold
    ensures { BuiltInIs list.old result list.new }
{
    let Some(list) = list.as_mut_array::<{ sheet::NUMBERS }>() else {
        return telling::tell_sheet(Err(Refusal::ListLength));
    };
    let numbers = built_in::sheet();
    sheet::inner::copy(&numbers, list);
    telling::tell_sheet(Ok(()))
}

// Writes the text of a sheet list into a buffer, from its first place on.
#[unsafe(no_mangle)]
pub extern "C" fn gaskeys_write_sheet(list: &[u32], text: &mut [u8]) -> WrittenTold
    ensures { WrittenIs list.now text.old result text.new }
{
    telling::tell_written(sheet::write_sheet(list, text))
}

// A reading of a sheet that comes in pieces, of which no byte has come.
#[unsafe(no_mangle)]
pub extern "C" fn gaskeys_open_reading() -> ReadingState
    ensures { result ≡ state_of opened }
{
    pieces::state_of(sheet::pieces::open_reading())
}

// Reads the next piece of a sheet's text, which may be empty, into the list that is lent each time. Whatever is handed in as the reading has an answer.
#[unsafe(no_mangle)]
pub extern "C" fn gaskeys_read_piece(
    reading: ReadingState,
    piece: &[u8],
    list: &mut [u32],
) -> PieceTold
    ensures { PieceIs reading piece.now list.old result list.new }
{
    pieces::tell_piece(sheet::pieces::read_piece(pieces::reading_in(reading), piece, list))
}

// Closes a reading: no byte follows.
#[unsafe(no_mangle)]
pub extern "C" fn gaskeys_close_reading(reading: ReadingState, list: &[u32]) -> PieceTold
    ensures { result ≡ closed_told (reading_in reading) list.now }
{
    pieces::tell_closed(sheet::pieces::close_reading(pieces::reading_in(reading), list))
}

// The heat of air per pound at a temperature, in 0.00001 C.H.U./lb.
#[unsafe(no_mangle)]
pub extern "C" fn gaskeys_air_heat(millikelvin: i64) -> ReadingTold
    ensures { result ≡ flat_reading (air_heat_told millikelvin) }
{
    telling::tell_reading(air::heat(Millikelvin(millikelvin)))
}

// psi of air at a temperature, in 0.0000001.
#[unsafe(no_mangle)]
pub extern "C" fn gaskeys_air_psi(millikelvin: i64) -> ReadingTold
    ensures { result ≡ flat_reading (airPsiTold millikelvin) }
{
    telling::tell_reading(air::psi(Millikelvin(millikelvin)))
}

// Cp of air at a whole number of kelvins, in ten-thousandths, as printed.
#[unsafe(no_mangle)]
pub extern "C" fn gaskeys_air_cp(kelvin: i64) -> ReadingTold
    ensures { result ≡ flat_reading (airCpTold kelvin) }
{
    telling::tell_reading(air::cp(kelvin))
}

// What a charge burns to, in mg.
#[unsafe(no_mangle)]
pub extern "C" fn gaskeys_burn(air: i64, carbon: i64, hydrogen: i64) -> BurnTold
    ensures { result ≡ flat_burn (burn_told document01 (charge_in (air ∷ carbon ∷ hydrogen ∷ []))) }
{
    telling::tell_burn(burning::burn(burning::inner::charge_in(&[air, carbon, hydrogen])))
}

// The gas heat of a charge at a temperature.
#[unsafe(no_mangle)]
pub extern "C" fn gaskeys_gas_heat(
    air: i64,
    carbon: i64,
    hydrogen: i64,
    millikelvin: i64,
    sheet: &[u32],
) -> HeatTold
    ensures { result ≡ flat_heat (heat_told document01 (charge_in (air ∷ carbon ∷ hydrogen ∷ [])) millikelvin sheet.now) }
{
    let charge = burning::inner::charge_in(&[air, carbon, hydrogen]);
    telling::tell_heat(gas::gas_heat(charge, Millikelvin(millikelvin), sheet))
}

// The content of a charge above 15 °C at a temperature.
#[unsafe(no_mangle)]
pub extern "C" fn gaskeys_content(
    air: i64,
    carbon: i64,
    hydrogen: i64,
    millikelvin: i64,
    sheet: &[u32],
) -> HeatTold
    ensures { result ≡ flat_heat (content_told document01 (charge_in (air ∷ carbon ∷ hydrogen ∷ [])) millikelvin sheet.now) }
{
    let charge = burning::inner::charge_in(&[air, carbon, hydrogen]);
    telling::tell_heat(gas::content(charge, Millikelvin(millikelvin), sheet))
}

// The specific content of a charge at a temperature, to the nearest whole number, a tie to the even one.
#[unsafe(no_mangle)]
pub extern "C" fn gaskeys_specific_content(
    air: i64,
    carbon: i64,
    hydrogen: i64,
    millikelvin: i64,
    sheet: &[u32],
) -> HeatTold
    ensures { result ≡ flat_heat (specific_told document01 (charge_in (air ∷ carbon ∷ hydrogen ∷ [])) millikelvin sheet.now) }
{
    let charge = burning::inner::charge_in(&[air, carbon, hydrogen]);
    telling::tell_specific(gas::specific_content(charge, Millikelvin(millikelvin), sheet))
}

// The greatest temperature whose gas heat is at most the target. The looks go into the first eleven places of the list, 0 where unused.
#[unsafe(no_mangle)]
pub extern "C" fn gaskeys_temperature(
    air: i64,
    carbon: i64,
    hydrogen: i64,
    target: i64,
    sheet: &[u32],
    looks: &mut [u32],
) -> TemperatureTold
    ensures { TemperatureIs document01 (charge_in (air ∷ carbon ∷ hydrogen ∷ [])) target sheet.now looks.old result looks.new }
{
    let charge = burning::inner::charge_in(&[air, carbon, hydrogen]);
    telling::tell_temperature(gas::temperature(charge, Heat(target), sheet, looks))
}

// The greatest temperature whose psi of air is at most the target. The looks go into the first eleven places of the list, 0 where unused.
#[unsafe(no_mangle)]
pub extern "C" fn gaskeys_psi_inverse(target: i64, looks: &mut [u32]) -> PsiTold
    ensures { PsiIs target looks.old result looks.new }
{
    telling::tell_psi(air::psi_inverse(target, looks))
}

// The walk of a charge from a temperature over the steps, four numbers each. Step i writes place i of the temperatures and rests, and the eleven places of looks from
// 11 i on.
#[unsafe(no_mangle)]
pub extern "C" fn gaskeys_walk(
    air: i64,
    carbon: i64,
    hydrogen: i64,
    millikelvin: i64,
    sheet: &[u32],
    steps: &[i64],
    temperatures: &mut [i64],
    rests: &mut [i64],
    looks: &mut [u32],
) -> WalkTold
    ensures { WalkCall sheet.now (charge_in (air ∷ carbon ∷ hydrogen ∷ [])) millikelvin steps.now
        (lists temperatures.old rests.old looks.old) result
        (lists temperatures.new rests.new looks.new) }
{
    let charge = burning::inner::charge_in(&[air, carbon, hydrogen]);
    telling::tell_walk(walk::walk(
        charge,
        Millikelvin(millikelvin),
        sheet,
        steps,
        temperatures,
        rests,
        looks,
    ))
}

// A station's figures: mK, specific content in 0.00001 C.H.U./lb, total mass in mg.
#[unsafe(no_mangle)]
pub extern "C" fn gaskeys_station(
    air: i64,
    carbon: i64,
    hydrogen: i64,
    millikelvin: i64,
    sheet: &[u32],
) -> StationTold
    ensures { result ≡ flat_station (station_told (charge_in (air ∷ carbon ∷ hydrogen ∷ [])) millikelvin sheet.now) }
{
    let charge = burning::inner::charge_in(&[air, carbon, hydrogen]);
    telling::tell_station(marking::station(charge, Millikelvin(millikelvin), sheet))
}

// The mark of a typed answer against a key and a window. A kind that is neither 0 nor 1 is a blank, whatever the number.
#[unsafe(no_mangle)]
pub extern "C" fn gaskeys_mark(kind: u32, number: f64, key: i64, window: i64) -> MarkTold
    ensures { result ≡ flat_mark (marked (typed_of kind number) key window) }
{
    telling::tell_mark(marking::mark(telling::typed_of(kind, number), key, window))
}
