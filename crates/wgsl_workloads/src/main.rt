//! Runs the jobs that users of the library wait for, on inputs that follow from a number, and prints one number for all
//! results of each: wgsl_workloads JOB SCALE SEED. `bench/run` times them.
#![tactic(auto)]

mod constants;
mod digest;
mod modules;
mod random;

use digest::Digest;
use random::Random;
use std::alloc::Global;
use std::process::ExitCode;
use std::rt::Env;
use std::{env, io};
use wgsl_types::Error;

/// The jobs that `all` runs one after the other.
const JOBS: [&str; 2] = ["modules", "constants"];

/// What is asked for.
#[derive(Drop)]
struct Asked {
    job: String,
    scale: u32,
    seed: u32,
}

fn main(rt: HostRuntime) -> ExitCode {
    match run(&rt) {
        Ok(true) => ExitCode::SUCCESS,
        Ok(false) | Err(_) => ExitCode::FAILURE,
    }
}

// Runs what the words ask for, and says whether that went well.
fn run<R: AllocGlobal + Print + Eprint + Env>(rt: &R) -> io::Result<bool> {
    let Some(asked) = words_asked(rt)? else {
        eprintln!(rt; "usage: wgsl_workloads JOB SCALE SEED")?;
        return Ok(false);
    };
    if asked.job.as_str() != "all" {
        return print_digest(rt, asked.job.as_str(), &asked);
    }
    for job in JOBS {
        if !print_digest(rt, job, &asked)? {
            return Ok(false);
        }
    }
    Ok(true)
}

// What the words ask for.
fn words_asked<R: AllocGlobal + Env>(rt: &R) -> io::Result<Option<Asked>> {
    let mut words = env::args(rt)?.skip(1);
    let (Some(job), Some(scale), Some(seed)) = (words.next(), words.next(), words.next()) else {
        return Ok(None);
    };
    match (scale.as_str().parse::<u32>(), seed.as_str().parse::<u32>()) {
        (Ok(scale), Ok(seed)) => Ok(Some(Asked { job, scale, seed })),
        _ => Ok(None),
    }
}

// Prints what the job comes to, and says whether that went well.
fn print_digest<R: AllocGlobal + Print + Eprint>(
    rt: &R,
    job: &str,
    asked: &Asked,
) -> io::Result<bool> {
    let mut random = Random::new(u64::from(asked.seed));
    match digest_of(rt.alloc(), job, asked.scale, &mut random) {
        Ok(Some(digest)) => {
            println!(rt; "{job} {:016x}", digest.value())?;
            Ok(true)
        }
        Ok(None) => {
            eprintln!(rt; "wgsl_workloads: there is no job `{job}`")?;
            Ok(false)
        }
        Err(error) => {
            eprintln!(rt; "wgsl_workloads: {job}: refusal {}", error.number())?;
            Ok(false)
        }
    }
}

fn digest_of(
    alloc: Global,
    job: &str,
    scale: u32,
    random: &mut Random,
) -> Result<Option<Digest>, Error> {
    let mut digest = Digest::new();
    match job {
        "modules" => modules::run(alloc, random, scale, &mut digest)?,
        "constants" => constants::run(alloc, random, scale, &mut digest)?,
        _ => return Ok(None),
    }
    Ok(Some(digest))
}
