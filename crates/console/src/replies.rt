// The reply to each request: its numbers read, the call of the layer below, its answer put. Each function is one definition of specs/Answers.antt.
ghost use Rattle.text.specs.Puts.{WroteAtMost};
ghost use Rattle.burning.specs.Answers.{paper_burn};
ghost use Rattle.wording.specs.Texts.{burnt_text};
ghost use Rattle.console.specs.Limits.{reply_room};
ghost use Rattle.console.specs.Requests.{unknown_text, misfit_text, no_number_text};
ghost use Rattle.console.specs.Answers.{verdict_in, list_in, air_text, air_reply, burn_text, gas_text, gas_reply, reply_text};
ghost use Rattle.console.specs.inner.Left.{fields_left};

use crate::columns::Table;
use crate::requests::{OfAir, OfGas, Request};
use crate::rest::Rest;
use crate::{marks, requests, walks};
use air::Millikelvin;
use burning::{Charge, Products};
use gas::{Above, Heat};
use refusal::Refusal;
use sheet::AcceptedSheet;
use text::Pen;

// No request begins with this word.
pub(crate) fn put_unknown(pen: &mut Pen<'_>)
    ensures { WroteAtMost reply_room unknown_text pen.old pen.new }
{
    pen.put_text(b"error\tno such request");
}

// The request takes other fields.
pub(crate) fn put_misfit(pen: &mut Pen<'_>)
    ensures { WroteAtMost reply_room misfit_text pen.old pen.new }
{
    pen.put_text(b"error\tthe request takes other fields");
}

// What was typed is no number.
pub(crate) fn put_no_number(pen: &mut Pen<'_>)
    ensures { WroteAtMost reply_room no_number_text pen.old pen.new }
{
    pen.put_text(b"error\tnot a number");
}

// The temperature of a psi, asked with eleven places for looks.
fn ask_psi(target: i64, table: Table<'_>, pen: &mut Pen<'_>)
    ensures { WroteAtMost reply_room (air_text OfAir.Inverse target) pen.old pen.new }
{
    let mut looks = [0u32; air::LOOK_PLACES];
    let answer = air::inner::psi_inverse_lent(target, &mut looks, table.psis);
    wording::put_psi(answer, &looks, pen);
}

// The reading of air at a number: mK, kelvins or a psi.
fn tell_air(reading: OfAir, number: i64, table: Table<'_>, pen: &mut Pen<'_>)
    ensures { WroteAtMost reply_room (air_text reading number) pen.old pen.new }
{
    let t = Millikelvin(number);
    match reading {
        OfAir::Heat => wording::put_reading(air::inner::heat_lent(t, table.heats), pen),
        OfAir::Psi => wording::put_reading(air::inner::psi_lent(t, table.psis), pen),
        OfAir::Cp => wording::put_reading(air::inner::cp_lent(number, table.cps), pen),
        OfAir::Inverse => ask_psi(number, table, pen),
    }
}

// air-heat mK, air-psi mK, air-cp K, air-temperature psi
fn reply_air(reading: OfAir, rest: Rest<'_>, table: Table<'_>, pen: &mut Pen<'_>)
    ensures { WroteAtMost reply_room (air_reply reading (fields_left rest.entry)) pen.old pen.new }
{
    match fields::read_one(rest.line, rest.from) {
        Some(n) => tell_air(reading, n, table, pen),
        None => put_misfit(pen),
    }
}

// What a charge burns to, or its refusal.
fn put_burnt(answer: Result<Products, Refusal>, pen: &mut Pen<'_>)
    ensures { WroteAtMost reply_room (burnt_text (paper_burn answer)) pen.old pen.new }
{
    match answer {
        Ok(products) => wording::put_products(products, pen),
        Err(refusal) => wording::put_refusal(refusal, pen),
    }
}

// burn A c h
fn reply_burn(rest: Rest<'_>, pen: &mut Pen<'_>)
    ensures { WroteAtMost reply_room (burn_text (fields_left rest.entry)) pen.old pen.new }
{
    let mut numbers = [0i64; burning::inner::CHARGE_NUMBERS];
    if !fields::read_exactly(rest.line, rest.from, &mut numbers) {
        return put_misfit(pen);
    }
    put_burnt(burning::burn(burning::inner::charge_in(&numbers)), pen);
}

// The temperature of a gas heat, asked with eleven places for looks.
fn ask_temperature(charge: Charge, target: i64, sheet: AcceptedSheet<'_>, pen: &mut Pen<'_>)
    ensures { WroteAtMost reply_room (gas_text OfGas.Inverse sheet.entry.list.now charge target) pen.old pen.new }
{
    let mut looks = [0u32; air::LOOK_PLACES];
    let answer = gas::inner::temperature_judged(charge, Heat(target), &mut looks, sheet);
    wording::put_temperature(answer, &looks, pen);
}

// What a gas tells at a number: mK, or the target of a temperature.
fn tell_gas(
    quantity: OfGas,
    charge: Charge,
    number: i64,
    sheet: AcceptedSheet<'_>,
    pen: &mut Pen<'_>,
)
    ensures { WroteAtMost reply_room (gas_text quantity sheet.entry.list.now charge number) pen.old pen.new }
{
    let t = Millikelvin(number);
    match quantity {
        OfGas::Heat => {
            let heat = gas::inner::heat_judged(Above::Zero, charge, t, sheet);
            wording::put_heat(heat, pen);
        }
        OfGas::Content => {
            let content = gas::inner::heat_judged(Above::Fifteen, charge, t, sheet);
            wording::put_heat(content, pen);
        }
        OfGas::Specific => {
            wording::put_specific(gas::inner::specific_judged(charge, t, sheet), pen);
        }
        OfGas::Inverse => ask_temperature(charge, number, sheet, pen),
        OfGas::Station => {
            let station = marking::inner::station_judged(charge, t, sheet);
            wording::put_station(station, pen);
        }
    }
}

// gas-heat, content, specific-content and station A c h mK, temperature A c h target: fields of another form are told before the sheet's refusal.
fn reply_gas(
    quantity: OfGas,
    rest: Rest<'_>,
    sheet: Result<AcceptedSheet<'_>, Refusal>,
    pen: &mut Pen<'_>,
)
    ensures { WroteAtMost reply_room (gas_reply quantity (verdict_in sheet.entry) (list_in sheet.entry) (fields_left rest.entry)) pen.old pen.new }
{
    let Some((charge, number)) = requests::asked_of(rest) else {
        return put_misfit(pen);
    };
    match sheet {
        Ok(sheet) => tell_gas(quantity, charge, number, sheet, pen),
        Err(refusal) => wording::put_refusal(refusal, pen),
    }
}

// The reply to a request with the fields that are left.
pub(crate) fn reply(
    request: Request,
    rest: Rest<'_>,
    sheet: Result<AcceptedSheet<'_>, Refusal>,
    table: Table<'_>,
    pen: &mut Pen<'_>,
)
    ensures { WroteAtMost reply_room (reply_text (verdict_in sheet.entry) (list_in sheet.entry) request (fields_left rest.entry)) pen.old pen.new }
{
    match request {
        Request::Mark => marks::reply_mark(rest, pen),
        Request::Walk => walks::reply_walk(rest, sheet, pen),
        Request::Station => reply_gas(OfGas::Station, rest, sheet, pen),
        Request::Temperature => reply_gas(OfGas::Inverse, rest, sheet, pen),
        Request::Specific => reply_gas(OfGas::Specific, rest, sheet, pen),
        Request::Content => reply_gas(OfGas::Content, rest, sheet, pen),
        Request::GasHeat => reply_gas(OfGas::Heat, rest, sheet, pen),
        Request::Burn => reply_burn(rest, pen),
        Request::AirHeat => reply_air(OfAir::Heat, rest, table, pen),
        Request::AirTemperature => reply_air(OfAir::Inverse, rest, table, pen),
        Request::AirPsi => reply_air(OfAir::Psi, rest, table, pen),
        Request::AirCp => reply_air(OfAir::Cp, rest, table, pen),
        Request::Unknown => put_unknown(pen),
    }
}
