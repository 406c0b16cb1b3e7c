// Carries each log of a folder, NAME.log, through `watch`, and compares the output with the file NAME.out beside it. The folder
// is the argument, or the one that it is run in.
#![tactic(auto)]

mod comparing;

use crate::comparing::first_difference;
use std::{env, fs, io};
use watch_lib::written::output_of;

fn folder_named(rt: &HostRuntime) -> io::Result<String> {
    match env::args(rt)?.nth(1) {
        Some(folder) => Ok(folder),
        None => Ok(String::from_str(rt.alloc(), ".")?),
    }
}

// The names of the folder's logs, in order.
fn log_names(rt: &HostRuntime, folder: &str) -> io::Result<Vec<String>> {
    let mut names = Vec::new(rt.alloc());
    for entry in fs::read_dir(rt, folder)? {
        let entry = entry?;
        if let Some(name) = entry.file_name().strip_suffix(".log") {
            names.push(String::from_str(rt.alloc(), name)?)?;
        }
    }
    names.sort()?;
    Ok(names)
}

// Prints whether the output of a log is as written, and answers it.
fn check_log(rt: &HostRuntime, folder: &str, name: &str) -> io::Result<bool> {
    let log = fs::read(rt, format!(in rt.alloc(); "{folder}/{name}.log")?)?;
    let out = fs::read(rt, format!(in rt.alloc(); "{folder}/{name}.out")?)?;
    let output = output_of(rt.alloc(), log.as_slice())?;
    match first_difference(output.as_bytes(), out.as_slice()) {
        None => {
            println!(rt; "{name}.log as written")?;
            Ok(true)
        }
        Some(line) => {
            println!(rt; "{name}.log differs at line {line}")?;
            Ok(false)
        }
    }
}

fn main(rt: HostRuntime) -> io::Result<()> {
    let folder = folder_named(&rt)?;
    let names = log_names(&rt, folder.as_str())?;
    let mut as_written: usize = 0;
    for name in &names {
        if check_log(&rt, folder.as_str(), name.as_str())? {
            as_written += 1;
        }
    }
    println!(rt; "logs={} as_written={as_written}", names.len())
}
