//! The program: the words of the command line, the files of the machine and standard output.
//! This is the trusted edge: its adapters tell no content.
#![tactic(auto)]

use disk::Disk;
use output::Output;
use rdb_base::gate::NoGate;
use rdb_runner::region::region_main;
use rdb_runner::status::Status;
use std::process::ExitCode;
use std::{env, io};

mod disk;
mod output;

/// The words behind the program's name.
fn words(rt: &HostRuntime) -> io::Result<Vec<String>> {
    let mut words = Vec::new(rt.alloc());
    for word in env::args(rt)?.skip(1) {
        words.push(word)?;
    }
    Ok(words)
}

/// A word that is no UTF-8 is no word of a command line.
fn main(rt: HostRuntime) -> ExitCode {
    let mut output = Output::new(io::writer(&rt));
    let words = match words(&rt) {
        Ok(words) => words,
        Err(error) if error.kind() == io::ErrorKind::OutOfMemory => {
            return ExitCode::from(Status::NoMemory.number());
        }
        Err(_) => return ExitCode::from(output.usage().number()),
    };
    let mut disk = Disk::new(&rt);
    let number = region_main(
        rt.alloc(),
        words.as_slice(),
        &mut disk,
        &mut output,
        &NoGate,
    );
    ExitCode::from(number)
}
