//! The program: reads a model of a planner's and prints its answer.
#![tactic(auto)]

use hk_base::Gate;
use std::alloc::AllocError;
use std::env::{self, Env};
use std::io::ErrorKind;
use std::process::ExitCode;
use system::RealHost;

mod due;
mod limits;
mod reading;
mod run;
mod system;
#[cfg(test)]
mod tests;

/// The gate of the program: nobody is told that a piece of work begins.
struct OpenGate;

impl Gate for OpenGate {
    fn enter(&self, _piece: u32) {}
}

/// The exit status where the program's own words can't be had for want of memory.
const NO_MEMORY: u8 = 7;

fn main(rt: HostRuntime) -> ExitCode {
    let Ok(words) = own_words(&rt) else {
        return ExitCode::from(NO_MEMORY);
    };
    let mut host = RealHost::new(&rt);
    ExitCode::from(run::run(&rt, rt.alloc(), words.as_slice(), &mut host, &OpenGate))
}

/// The words of the command line, without the program's own name. Fails only for want of memory.
///
/// The system gives all words or none: where one isn't UTF-8, be it the program's own name, there are
/// none. No command is without words, so that such words get what is due to words of no known form.
fn own_words<R: Env + AllocGlobal>(rt: &R) -> Result<Vec<String>, AllocError> {
    match env::args(rt) {
        Ok(all) => all.skip(1).collect::<Vec<String>>(rt.alloc()),
        Err(error) if error.kind() == ErrorKind::InvalidData => Ok(Vec::new(rt.alloc())),
        Err(_) => Err(AllocError),
    }
}
