// The command line: programs and listings from standard input into words or listings.
#![tactic(auto)]

mod command;
mod demonstration;
mod failure;
mod help;
mod input;
mod output;

use command::Command;
use failure::Failure;
use std::alloc::Global;
use std::env;
use std::process::ExitCode;
use std::rt::Env;

// The words of the program on standard input.
fn program(alloc: Global, rt: &impl Input) -> Result<Vec<u64>, Failure> {
    let bytes = input::read(alloc, rt.reader())?;
    output::words(alloc, input::as_text(bytes.as_slice())?)
}

fn run(rt: &(impl Alloc<A = Global> + Env + Input + Print)) -> Result<(), Failure> {
    let alloc = rt.alloc();
    match command::chosen(env::args(rt)?)? {
        Command::Help(page) => rt.print(page)?,
        Command::Pack => rt.print(output::packed(alloc, program(alloc, rt)?.as_slice())?)?,
        Command::List => rt.print(output::listing(alloc, program(alloc, rt)?.as_slice())?)?,
        Command::Demonstrate => rt.print(demonstration::report(alloc)?)?,
    }
    Ok(())
}

fn main(rt: HostRuntime) -> ExitCode {
    match run(&rt) {
        Ok(()) => ExitCode::SUCCESS,
        Err(failure) => {
            // where even this is not told, the status says it
            let _ = eprintln!(rt; "nadvoszip: {failure}");
            ExitCode::FAILURE
        }
    }
}
