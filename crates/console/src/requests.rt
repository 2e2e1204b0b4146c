// The words that requests begin with, and what the numbers of a request on a gas come to.
ghost use Rattle.std.specs.Prelude.{◌≡◌};
ghost use Rattle.fields.specs.Words.{position_of, words_in, named_at};
ghost use Rattle.console.specs.Requests.{requests, request_of, asked_of};
ghost use Rattle.console.specs.inner.Left.{fields_left};

use crate::rest::Rest;
use crate::walks;
use burning::Charge;

// What a line asks for, in the order of the table of words.
#[derive(Clone, Copy)]
pub enum Request {
    Mark,
    Walk,
    Station,
    Temperature,
    Specific,
    Content,
    GasHeat,
    Burn,
    AirHeat,
    AirTemperature,
    AirPsi,
    AirCp,
    Unknown,
}

// What is asked of air, by one number: mK, kelvins, or the psi whose temperature is asked (`Inverse`).
#[derive(Clone, Copy)]
pub enum OfAir {
    Heat,
    Psi,
    Cp,
    Inverse,
}

// What is asked of a gas over a sheet, by a charge's numbers and one more: mK, or the heat whose temperature is asked (`Inverse`).
#[derive(Clone, Copy)]
pub enum OfGas {
    Heat,
    Content,
    Specific,
    Inverse,
    Station,
}

// The place of a word in the table of requests; past its end where it is none of them.
// stays: no Option, since fields::position_in promises this place, on which the definitions of tables (position_of, named_at) rest.
fn position(word: &[u8]) -> usize
    ensures { result ≡ position_of word.now (words_in requests) }
{
    fields::position_in(
        word,
        b"mark\t\
        walk\t\
        station\t\
        temperature\t\
        specific-content\t\
        content\t\
        gas-heat\t\
        burn\t\
        air-heat\t\
        air-temperature\t\
        air-psi\t\
        air-cp",
    )
}

// The request at a place of the table.
fn request_at(p: usize) -> Request
    ensures { result ≡ named_at requests Request.Unknown p }
{
    match p {
        0 => Request::Mark,
        1 => Request::Walk,
        2 => Request::Station,
        3 => Request::Temperature,
        4 => Request::Specific,
        5 => Request::Content,
        6 => Request::GasHeat,
        7 => Request::Burn,
        8 => Request::AirHeat,
        9 => Request::AirTemperature,
        10 => Request::AirPsi,
        11 => Request::AirCp,
        _ => Request::Unknown,
    }
}

// The request that a word names.
#[tactic(auto, unfolding(crate::specs::Requests::request_of))]
pub(crate) fn request_of(word: &[u8]) -> Request
    ensures { result ≡ request_of word.now }
{
    request_at(position(word))
}

// What is asked of a gas: a charge and a number, where the fields that are left are the charge's numbers and one more.
pub(crate) fn asked_of(rest: Rest<'_>) -> Option<(Charge, i64)>
    ensures { result ≡ asked_of (fields_left rest.entry) }
{
    let mut numbers = [0i64; walks::START_NUMBERS];
    if !fields::read_exactly(rest.line, rest.from, &mut numbers) {
        return None;
    }
    Some((
        burning::inner::charge_in(&numbers),
        numbers[burning::inner::CHARGE_NUMBERS],
    ))
}
