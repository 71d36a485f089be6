// The companion program: shows what a sheet holds.
#![tactic(auto)]

mod choice;

use choice::show_any;
use report::{NotShown, hex_bytes};
use std::process::ExitCode;
use std::{env, fs};

// The cubic net. The tests write it out again, so that they see it change.
const CUBIC: [u8; 18] = [1, 1, 3, 0, 0, 2, 0, 0, 0, 0, 0, 2, 0, 0, 0, 0, 0, 2];

const USAGE: &str = "usage: likhroun [show FILE | show-hex FILE]
  show FILE      what the net of a sheet is
  show-hex FILE  the same, for a sheet as hexadecimal text, blanks between bytes allowed
  (no words)     the same, for the cubic net";

// Prints what there is to say of the sheet; a refusal ends the program with status 1.
fn print_sheet(rt: &HostRuntime, bytes: &[u8]) -> anyhow::Result<ExitCode> {
    match show_any(rt.alloc(), bytes) {
        Ok(text) => {
            rt.println(text.as_str())?;
            Ok(ExitCode::SUCCESS)
        }
        Err(NotShown::Refused(fault)) => {
            rt.println(fault)?;
            Ok(ExitCode::FAILURE)
        }
        Err(NotShown::OutOfMemory(error)) => Err(error.into()),
    }
}

fn print_hex(rt: &HostRuntime, text: &[u8]) -> anyhow::Result<ExitCode> {
    match hex_bytes(rt.alloc(), text)? {
        Some(bytes) => print_sheet(rt, bytes.as_slice()),
        None => {
            rt.println("no hexadecimal text")?;
            Ok(ExitCode::FAILURE)
        }
    }
}

fn usage(rt: &HostRuntime) -> anyhow::Result<ExitCode> {
    rt.println(USAGE)?;
    Ok(ExitCode::FAILURE)
}

fn run(rt: &HostRuntime, word: &str, file: &str) -> anyhow::Result<ExitCode> {
    // two words, once: a table of functions would be longer
    match word {
        "show" => print_sheet(rt, fs::read(rt, file)?.as_slice()),
        "show-hex" => print_hex(rt, fs::read(rt, file)?.as_slice()),
        _ => usage(rt),
    }
}

fn main(rt: HostRuntime) -> anyhow::Result<ExitCode> {
    let mut words = env::args(&rt)?.skip(1);
    match (words.next(), words.next(), words.next()) {
        (None, _, _) => print_sheet(&rt, &CUBIC),
        (Some(word), Some(file), None) => run(&rt, word.as_str(), file.as_str()),
        _ => usage(&rt),
    }
}
