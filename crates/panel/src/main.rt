// The berth panel: reads a day's changes, keeps the stays in slots and says what became of each change.

#![tactic(auto)]

mod berths;
mod line;
mod report;

use crate::berths::Berths;
use crate::line::{Change, read_line};
use crate::report::Shown;
use anyhow::bail;
use item_set::{ItemIndex, ItemSlot};
use std::io::{BufRead, BufReader};
use std::{env, io};

/// How many stays there is room for.
const PLACES: usize = 24;

const HELP: &str = "panel: keeps the stays at the berths of a ferry terminal

Reads changes from standard input, one a line:

    add BERTH FROM TO VESSEL    a vessel stays at a berth from one minute to another
    drop BERTH FROM             the stay at a berth that begins at a minute goes

An empty line, and a line that begins with #, is passed over. For each change
it prints what was done; at the end, the slots in use and the free slots.
There is room for 24 stays.

    panel < FILE                reads a file
    panel --help                prints this";

/// Makes the change of a line, and then prints what became of it.
fn make(rt: &HostRuntime, berths: &mut Berths, at: u64, change: Change) -> io::Result<()> {
    match change {
        Change::Add(stay) => match berths.add_stay(stay) {
            Ok((slot, stay)) => {
                println!(rt; "line {at}: slot {} taken by {}", Shown(slot), Shown(stay))
            }
            Err(refusal) => println!(rt; "line {at}: refused, {refusal}"),
        },
        Change::Drop(key) => match berths.drop_stay(key) {
            Ok((slot, stay)) => {
                println!(rt; "line {at}: slot {} freed by {}", Shown(slot), Shown(stay))
            }
            Err(refusal) => println!(rt; "line {at}: nothing to drop: {refusal}"),
        },
    }
}

fn day(rt: &HostRuntime) -> anyhow::Result<()> {
    let heap = rt.alloc();
    let mut slots = [ItemSlot::Vacant {
        next: ItemIndex::SENTINEL,
    }; PLACES];
    let mut berths = Berths::new(&mut slots);
    let lines = BufReader::new(heap, rt.stdin())?.split(heap, b'\n');
    for (at, line) in (1..=u64::MAX).zip(lines) {
        match read_line(line?.as_slice()) {
            Ok(None) => {}
            Ok(Some(change)) => make(rt, &mut berths, at, change)?,
            Err(fault) => println!(rt; "line {at}: not a change: {fault}")?,
        }
    }
    berths.print_slots(rt)?;
    Ok(())
}

fn run(rt: &HostRuntime) -> anyhow::Result<()> {
    match env::args(rt)?.nth(1) {
        None => day(rt),
        Some(word) if word.as_str() == "--help" => {
            println!(rt; "{HELP}")?;
            Ok(())
        }
        Some(_) => bail!("it takes no argument but --help"),
    }
}

fn main(rt: HostRuntime) -> anyhow::Result<()> {
    run(&rt)
}
