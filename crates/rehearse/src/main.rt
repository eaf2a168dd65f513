//! rehearse: a script of calls from standard input, made on a quick and on a slow console, with what both answer side by side.
#![tactic(auto)]

mod parts;
mod sheet;
mod stage;
mod stopped;

use parts::part_of;
use script::{Who, read};
use stage::play_on;
use std::io::{self, BufReader, Read};
use std::process::ExitCode;
use stopped::Stopped;

fn run(rt: &HostRuntime) -> Result<(), Stopped> {
    let heap = rt.alloc();
    let mut text = Vec::new(heap);
    BufReader::new(heap, rt.reader())?.read_to_end(&mut text)?;
    let script = read(heap, text.as_slice())?;
    let text = text.as_slice();
    let quick = part_of(heap, text, &script, Who::Quick)?;
    let slow = part_of(heap, text, &script, Who::Slow)?;
    play_on(rt, heap, text, script.steps.as_slice(), quick, slow)
}

fn main(rt: HostRuntime) -> io::Result<ExitCode> {
    match run(&rt) {
        Ok(()) => Ok(ExitCode::SUCCESS),
        Err(stopped) => {
            eprintln!(rt; "{stopped}")?;
            Ok(ExitCode::FAILURE)
        }
    }
}
