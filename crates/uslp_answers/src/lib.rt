// What the bench says: the answer of a command, to a writer.
#![tactic(auto)]

use std::fmt::Display;
use std::io;
use std::io::Write;
use uslp_kinds::Refusal;
use values::Shown;

pub mod channels;
pub mod reading;
pub mod values;
pub mod writing;

// 0 and what a command found, or the refusal.
pub fn say<W: Write, T: Display + Drop>(out: &mut W, answer: Result<T, Refusal>) -> io::Result<()> {
    match answer {
        Ok(found) => write!(out, "0 {found}"),
        Err(refusal) => write!(out, "{}", Shown(refusal)),
    }
}

// The same of a command that finds nothing to say: no blank stands behind its 0.
pub fn say_done<W: Write>(out: &mut W, answer: Result<(), Refusal>) -> io::Result<()> {
    match answer {
        Ok(()) => write!(out, "0"),
        Err(refusal) => write!(out, "{}", Shown(refusal)),
    }
}
