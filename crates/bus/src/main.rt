//! One model chip on standard input and output: the first line names the chip, and each line after it is answered by one line.
#![tactic(auto)]

mod unserved;

use chip::Chip;
use std::io::{self, BufRead, BufReader};
use std::process::ExitCode;
use unserved::Unserved;
use wire::{chip_named, serve};

// A line without its end.
fn line_of(text: &[u8]) -> &[u8] {
    text.strip_suffix(b"\n").unwrap_or(text)
}

fn run(rt: &HostRuntime) -> Result<(), Unserved> {
    let mut reader = BufReader::new(rt.alloc(), rt.reader())?;
    let mut line = Vec::new(rt.alloc());
    reader.read_until(b'\n', &mut line)?;
    let mut chip = Chip::blank(rt.alloc(), chip_named(line_of(line.as_slice()))?)?;
    for _ in 0..u64::MAX {
        line.clear();
        if reader.read_until(b'\n', &mut line)? == 0 {
            break;
        }
        let reply = serve(&mut chip, line_of(line.as_slice()));
        println!(rt; "{reply}")?;
    }
    Ok(())
}

fn main(rt: HostRuntime) -> io::Result<ExitCode> {
    match run(&rt) {
        Ok(()) => Ok(ExitCode::SUCCESS),
        Err(unserved) => {
            eprintln!(rt; "{unserved}")?;
            Ok(ExitCode::FAILURE)
        }
    }
}
