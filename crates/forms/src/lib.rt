// The forms of the program `keys` (docs/PROGRAM.md) up to reading and writing: which form the arguments are, what question a text holds, and what is printed, put into
// a lent buffer, each as a definition over the bytes that were read (specs/). `desk` above reads and writes.
#![tactic(auto)]

pub mod arguments;
pub mod pages;
pub mod questions;
pub mod sheets;
