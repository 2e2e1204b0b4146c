// What is printed whole, and the lines on standard error, as `forms` puts them.
ghost use Rattle.std.specs.Prelude.{◌≡◌, length};
ghost use Rattle.forms.specs.Limits.{example_room};

use crate::buffers::{ARGUMENT, zeros};
use console::inner::JudgedSheet;
use forms::pages;
use refusal::Refusal;

// Says on standard error what is put into the places for it.
pub(crate) fn say<E: Print, F: FnOnce(&mut [u8; ARGUMENT]) -> usize>(errors: &E, put: F)
    requires { (out : _) → length out.now ≡ 4096 → F.pre put out }
{
    let mut out = zeros();
    let end = put(&mut out);
    stream::say(errors, &out, end);
}

// Says on standard error that the arguments are no form, and which there are.
pub(crate) fn say_usage<E: Print>(errors: &E) {
    say(errors, |out| pages::put_no_form(out));
}

// Prints how to go on.
// stays: beside `print_version` and `print_example`: one `print` over a closure was tried, and a bound of a closure that names a const parameter has no proof.
pub(crate) fn print_usage<W: Print, E: Print>(to: &W, errors: &E) {
    let mut out = zeros::<ARGUMENT>();
    let end = pages::put_help(&mut out);
    stream::flush(to, errors, &out, Some(end));
}

// Prints the version, and which sheet is built in.
pub(crate) fn print_version<W: Print, E: Print>(to: &W, errors: &E) {
    let mut out = zeros::<ARGUMENT>();
    let end = pages::put_version(&mut out);
    stream::flush(to, errors, &out, Some(end));
}

// Says on standard error where `--sheet FILE` belongs.
pub(crate) fn say_misplaced<E: Print>(errors: &E) {
    say(errors, |out| pages::put_misplaced(out));
}

// Says on standard error that a carriage return stands in the row for which a sheet is refused, where it decided so.
pub(crate) fn say_return<E: Print>(errors: &E, verdict: Result<(), Refusal>, returned: bool) {
    say(errors, |out| pages::put_return_note(verdict, returned, out));
}

// Says on standard error what the sheet was refused with, where it was.
pub(crate) fn say_verdict<E: Print>(errors: &E, verdict: Result<(), Refusal>) {
    say(errors, |out| pages::put_verdict_note(verdict, out));
}

// Places for the built-in example.
// stays: a function of its own, since its clause says that EXAMPLE_ROOM is the example's room of the limits
fn example() -> [u8; pages::EXAMPLE_ROOM]
    ensures { example_room ≡ length result }
{
    zeros()
}

// Prints the built-in example, and how to go on.
pub(crate) fn print_example<W: Print, E: Print>(to: &W, errors: &E, judged: JudgedSheet<'_>) {
    let mut out = example();
    let end = pages::put_example_with_list(judged, &mut out);
    stream::flush(to, errors, &out, Some(end));
}
