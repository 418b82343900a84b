//! Runs the top call on each case of the themes that the words name, and prints a line for each
//! that ends otherwise than it is to, and last how many passed. A theme is the file of that name
//! and `.json` in the folder of the run.
#![tactic(auto)]

mod fault;
mod hearing;
mod member;
mod trial;

use crate::trial::{Case, run};
use serde_json::Value;
use std::process::ExitCode;
use std::{env, fs};

/// How many cases passed and failed.
#[derive(Clone, Copy)]
struct Count {
    passed: u64,
    failed: u64,
}

// Runs one case, and says whether it passed.
fn passes(rt: &HostRuntime, theme: &str, shared: &Value, own: &Value) -> anyhow::Result<bool> {
    let name = own.get("name").and_then(Value::as_str).unwrap_or("?");
    match Case::new(shared, own).and_then(|case| run(rt, case)) {
        Ok(ended) => {
            if !ended.is_as_wanted {
                let text = String::from_utf8_lossy(rt.alloc(), ended.out.bytes())?;
                let (status, asked) = (ended.status, ended.files.asked());
                println!(rt;
                    "{theme}: {name}: status {status}, asks for {asked:?}, writes {text:?}"
                )?;
            }
            Ok(ended.is_as_wanted)
        }
        Err(e) => {
            println!(rt; "{theme}: {name}: {e}")?;
            Ok(false)
        }
    }
}

// The file of a theme: the members that its cases share, and the cases.
fn read_theme(rt: &HostRuntime, theme: &str) -> anyhow::Result<Value> {
    let file = format!(in rt.alloc(); "{theme}.json")?;
    Ok(Value::from_slice(rt.alloc(), &fs::read(rt, file.as_str())?)?)
}

// Runs the cases of one theme.
fn run_theme(rt: &HostRuntime, theme: &str, count: &mut Count) -> anyhow::Result<()> {
    let shared = read_theme(rt, theme)?;
    let Some(cases) = shared.get("cases").and_then(Value::as_array) else {
        println!(rt; "{theme}: it has no list of cases")?;
        count.failed = count.failed.saturating_add(1);
        return Ok(());
    };
    for own in cases {
        if passes(rt, theme, &shared, own)? {
            count.passed = count.passed.saturating_add(1);
        } else {
            count.failed = count.failed.saturating_add(1);
        }
    }
    Ok(())
}

fn main(rt: HostRuntime) -> anyhow::Result<ExitCode> {
    let mut count = Count {
        passed: 0,
        failed: 0,
    };
    for theme in env::args(&rt)?.skip(1) {
        if let Err(e) = run_theme(&rt, theme.as_str(), &mut count) {
            count.failed = count.failed.saturating_add(1);
            println!(rt; "{theme}: {e}")?;
        }
    }
    println!(rt; "{} cases passed", count.passed)?;
    if count.failed > 0 {
        return Ok(ExitCode::from(1));
    }
    Ok(ExitCode::from(0))
}
