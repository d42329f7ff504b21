//! Runs a job over the numbers of storage buffers, by references or by places, and prints one number for all bytes that
//! it leaves: wgsl_place_jobs WAY SCALE SEED. `bench/run` times the two ways.
#![tactic(auto)]

mod buffer;
mod digest;
mod forms;
mod job;
mod numbers;
mod places;
mod random;
mod references;
mod ways;

use std::process::ExitCode;
use std::rt::Env;
use std::{env, io};

/// The ways that `all` goes one after the other.
const WAYS: [&str; 2] = ["references", "places"];

/// What is asked for.
#[derive(Drop)]
struct Asked {
    way: String,
    scale: u32,
    seed: u32,
}

fn main(rt: HostRuntime) -> ExitCode {
    match run(&rt) {
        Ok(true) => ExitCode::SUCCESS,
        Ok(false) | Err(_) => ExitCode::FAILURE,
    }
}

// Runs what the words ask for, and says whether that went well.
fn run<R: AllocGlobal + Print + Eprint + Env>(rt: &R) -> io::Result<bool> {
    let Some(asked) = words_asked(rt)? else {
        eprintln!(rt; "usage: wgsl_place_jobs WAY SCALE SEED")?;
        return Ok(false);
    };
    if asked.way.as_str() != "all" {
        return print_digest(rt, "particles", asked.way.as_str(), &asked);
    }
    for way in WAYS {
        if !print_digest(rt, way, way, &asked)? {
            return Ok(false);
        }
    }
    Ok(true)
}

// What the words ask for.
fn words_asked<R: AllocGlobal + Env>(rt: &R) -> io::Result<Option<Asked>> {
    let mut words = env::args(rt)?.skip(1);
    let (Some(way), Some(scale), Some(seed)) = (words.next(), words.next(), words.next()) else {
        return Ok(None);
    };
    match (scale.as_str().parse::<u32>(), seed.as_str().parse::<u32>()) {
        (Ok(scale), Ok(seed)) => Ok(Some(Asked { way, scale, seed })),
        _ => Ok(None),
    }
}

// Prints what the job comes to in this way, behind the name, and says whether that went well.
fn print_digest<R: AllocGlobal + Print + Eprint>(
    rt: &R,
    name: &str,
    way: &str,
    asked: &Asked,
) -> io::Result<bool> {
    match ways::run(rt.alloc(), way, asked.scale, asked.seed) {
        Ok(Some(digest)) => {
            println!(rt; "{name} {:016x}", digest.value())?;
            Ok(true)
        }
        Ok(None) => {
            eprintln!(rt; "wgsl_place_jobs: there is no way `{way}`")?;
            Ok(false)
        }
        Err(error) => {
            eprintln!(rt; "wgsl_place_jobs: {way}: refusal {}", error.number())?;
            Ok(false)
        }
    }
}
