//! Takes a case and a number of turns, settles the case's package so many times, and tells how many
//! movements settled over all turns. It is what bench/netting takes the time of.
#![tactic(auto)]

mod package;

use crate::package::Package;
use anyhow::anyhow;
use netting::{MOVEMENTS, settling};
use std::env;

const USAGE: &str = "usage: net_timing worst|full TURNS";

// How many movements of a package settle.
fn count(package: &Package) -> Option<u64> {
    let marks = settling(&package.movements, &[true; MOVEMENTS], &package.amounts)?;
    Some(marks.iter().filter(|mark| **mark).count() as u64)
}

// How many settle over all turns, each of them computed anew.
fn total(mut package: Package, turns: u32) -> Option<u64> {
    let mut settled = 0u64;
    // Stays: the new form is no plainer: a turn alters the package, settles it and may be refused,
    // which one closure of a chain would have to do.
    for turn in 0..turns {
        package.turn(turn);
        settled = settled.saturating_add(count(&package)?);
    }
    Some(settled)
}

fn run(rt: &HostRuntime) -> anyhow::Result<()> {
    let mut words = env::args(rt)?;
    let _ = words.next();
    let (Some(case), Some(turns)) = (words.next(), words.next()) else {
        return Err(anyhow!("{USAGE}"));
    };
    let turns = turns.as_str().parse::<u32>()?;
    let package = match case.as_str() {
        "worst" => Package::worst(),
        "full" => Package::full(),
        _ => return Err(anyhow!("{USAGE}")),
    };
    let Some(settled) = total(package, turns) else {
        return Err(anyhow!("the package is not within the limits"));
    };
    println!(rt; "{case}, turns {turns}, settled {settled}")?;
    Ok(())
}

fn main(rt: HostRuntime) -> anyhow::Result<()> {
    run(&rt)
}
