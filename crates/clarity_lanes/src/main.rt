//! Runs the top call of lanes over real files and standard output, and ends with its status.
#![tactic(auto)]

use cl_lanes_app::clarity_lanes;
use cl_ports::{DiskFiles, StandardOutput};
use std::alloc::Global;
use std::io::ErrorKind;
use std::process::ExitCode;
use std::rt::Env;
use std::{env, io};

// The words after the program's name.
fn words<R: Env + Alloc<A = Global>>(rt: &R) -> io::Result<Vec<String>> {
    let mut words = Vec::new(rt.alloc());
    for word in env::args(rt)?.skip(1) {
        words.push(word)?;
    }
    Ok(words)
}

fn main(rt: HostRuntime) -> ExitCode {
    let alloc = rt.alloc();
    let words = match words(&rt) {
        Ok(words) => words,
        Err(e) => {
            if e.kind() == ErrorKind::OutOfMemory {
                return ExitCode::from(9);
            }
            // Words that cannot be given are not of the shape.
            Vec::new(alloc)
        }
    };
    let mut files = DiskFiles::new(alloc, &rt);
    let mut out = StandardOutput::new(rt.stdout());
    ExitCode::from(clarity_lanes(alloc, &words, &mut files, &mut out))
}
