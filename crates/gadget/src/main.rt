//! A collisionless N-body run in whole numbers: reads the words behind the program's name, does what they
//! ask for in the working folder, and ends with the status's code.
#![tactic(auto)]

mod begins;
mod catalogue_texts;
mod catalogues;
mod command;
mod factors;
mod grouping;
mod inputs;
mod laws;
mod link_texts;
mod linking;
mod look;
mod look_texts;
mod make;
mod named_file;
mod outcome;
mod restart_texts;
mod restarts;
mod run_texts;
mod sessions;
mod snap_texts;
mod snapshots;
mod status;
mod tables;
mod texts;
mod top;

use fixed_point::Memory;
use std::env;
use std::io::ErrorKind;
use std::process::ExitCode;
use store_io::{ConsoleSink, FileStop, FileStore, SeededSchedule, Text};

// The words behind the program's name; one that isn't text is a word that matches no command.
fn words_of(rt: &HostRuntime) -> Result<Vec<Text>, Memory> {
    let alloc = rt.alloc();
    let mut words = Vec::new(alloc);
    let args = match env::args(rt) {
        Ok(args) => args,
        Err(err) if err.kind() == ErrorKind::InvalidData => return Ok(words),
        Err(_) => return Err(Memory),
    };
    for word in args.skip(1) {
        words.push(Text::from_bytes(alloc, word.as_bytes())?)?;
    }
    Ok(words)
}

fn run(rt: &HostRuntime) -> Result<u8, Memory> {
    let words = words_of(rt)?;
    let status = top::gadget(
        rt.alloc(),
        &words,
        &mut FileStore::new(rt.clone()?),
        &mut SeededSchedule::new(),
        &mut FileStop::new(rt.clone()?),
        &mut ConsoleSink::new(rt.clone()?),
    );
    Ok(status.code())
}

fn main(rt: HostRuntime) -> ExitCode {
    match run(&rt) {
        Ok(code) => ExitCode::from(code),
        Err(Memory) => ExitCode::from(3),
    }
}
