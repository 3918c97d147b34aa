// Random lists of calls on dictionaries of every make, beside another dictionary that shares nothing with them.

#![tactic(auto)]

mod beside;
mod calls;
mod checks;
mod counts;
mod lists;
mod makes;
mod random;
mod sizes;
mod stop;
#[cfg(test)]
mod tests;
mod words;

use crate::checks::try_checks;
use crate::counts::Counts;
use crate::lists::run_lists;
use crate::stop::Stop;
use std::alloc::Global;
use std::env;

// How many lists are run where the program is not told.
const LISTS: u64 = 4_000;

// All trials, up to the first difference.
fn run_trials(heap: Global, lists: u64, counts: &mut Counts) -> Result<(), Stop> {
    try_checks(heap, counts)?;
    run_lists(heap, lists, counts)
}

fn print_counts(rt: &impl Print, counts: &Counts) -> anyhow::Result<()> {
    let Counts {
        lists,
        dictionaries,
        rows,
        step_nodes,
        no_node_left,
        no_byte_left,
        calls,
        entered,
        changed,
        struck,
        found,
        absent,
        spelled,
        doubled,
        longest,
        most_moves,
        refused,
    } = *counts;
    let anew = entered.saturating_sub(rows);
    println!(rt; "{lists} lists on {dictionaries} dictionaries, {calls} calls")?;
    println!(rt; "rows {rows}, step nodes {step_nodes}, doublings {doubled}")?;
    println!(rt; "ended with no node left {no_node_left}, no byte left {no_byte_left}")?;
    println!(rt; "entered {entered}, of these struck before {anew}")?;
    println!(rt; "changed {changed}, struck {struck}")?;
    println!(rt; "found {found}, absent {absent}, at most {most_moves} moves")?;
    println!(rt; "spelled {spelled}, at most {longest} bytes")?;
    for (number, count) in refused.iter().enumerate().skip(1) {
        println!(rt; "refused {number}: {count}")?;
    }
    Ok(())
}

// Runs as many lists as the first argument says.
fn main(rt: HostRuntime) -> anyhow::Result<()> {
    let lists = match env::args(&rt)?.nth(1) {
        Some(word) => word.as_str().parse::<u64>()?,
        None => LISTS,
    };
    let mut counts = Counts::default();
    let ended = run_trials(rt.alloc(), lists, &mut counts);
    print_counts(&rt, &counts)?;
    match ended {
        Ok(()) => println!(rt; "no difference")?,
        Err(Stop::Difference(what)) => {
            println!(rt; "{what}")?;
            anyhow::bail!("the dictionary differs from the book");
        }
        Err(Stop::OutOfMemory) => anyhow::bail!("no memory is left"),
    }
    Ok(())
}
