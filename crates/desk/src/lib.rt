// The program `keys` (docs/PROGRAM.md): its arguments, its files, standard input and output over `console`. No contract can say what is read or written, so these
// functions promise that they are safe and end; the texts that they write are promised by `forms` and the console. Every program that runs a form of `keys` calls `run`.
#![tactic(auto)]

mod arguments;
mod asking;
mod buffers;
mod lines;
mod pages;
mod questions;
mod sheets;

use console::inner::{JudgedSheet, Table};
use forms::arguments::{Form, Job};
use std::io;
use std::rt::{Env, Files};

// Does what the arguments ask for. Answers are printed, and lines on standard error go to `errors`.
pub fn run<R: Files + Env + io::Input + Print, E: Print>(rt: &R, errors: &E) {
    match arguments::read(rt) {
        Form::Over(job, named) => over_sheet(rt, errors, job, named),
        Form::Sheet(named) => sheets::report(rt, errors, named),
        Form::Help => pages::print_usage(rt, errors),
        Form::Version => pages::print_version(rt, errors),
        Form::Misplaced => pages::say_misplaced(errors),
        Form::Wrong => pages::say_usage(errors),
    }
}

// Does a job over the sheet of the file that is named, or over the built-in one. It is judged once, and the columns of Table 1 are built once and lent down.
fn over_sheet<R: Files + Env + io::Input + Print, E: Print>(
    rt: &R,
    errors: &E,
    job: Job,
    named: Option<usize>,
) {
    let heats = rows::columns::heat_column();
    let psis = rows::columns::psi_column();
    let cps = rows::columns::cp_column();
    let table = Table {
        heats: &heats,
        psis: &psis,
        cps: &cps,
    };
    let mut list = built_in::sheet();
    match named {
        None => {
            let sheet = sheet::inner::judge(&list, &heats);
            let judged = JudgedSheet { sheet, list: &list };
            serve(rt, errors, job, judged, table);
        }
        Some(i) => over_file(rt, errors, job, i, &mut list, table),
    }
}

// Does a job over the sheet of a file.
fn over_file<R: Files + Env + io::Input + Print, E: Print>(
    rt: &R,
    errors: &E,
    job: Job,
    i: usize,
    list: &mut [u32; sheet::NUMBERS],
    table: Table<'_>,
) {
    if let Ok(intake) = sheets::read_file(rt, errors, i, list) {
        let sheet = forms::sheets::accept(intake.reading, list, table.heats);
        pages::say_return(errors, sheet.map(|_| ()), intake.returned);
        serve(rt, errors, job, JudgedSheet { sheet, list }, table);
    }
}

// Does a job over a sheet that was judged.
fn serve<R: Files + Env + io::Input + Print, E: Print>(
    rt: &R,
    errors: &E,
    job: Job,
    judged: JudgedSheet<'_>,
    table: Table<'_>,
) {
    match job {
        Job::Example => pages::print_example(rt, errors, judged),
        Job::Walk(named) => questions::print(rt, errors, named, judged),
        Job::Ask => asking::ask(rt, errors, judged, table),
        Job::Write => sheets::write(rt, errors, judged),
    }
}
