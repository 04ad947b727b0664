// The berth panel: reads commands, carries them out on a board of stays and a board of sailings, and tells what was done.

#![tactic(auto)]

mod answers;
mod board;
mod changing;
mod command;
mod handling;
mod help;
mod keeping;
mod line;
mod looking;
mod memory;
mod mistake;
mod panel;
mod reading;
mod refusals;
mod serving;
mod shown;
mod upkeep;

use crate::board::Board;
use crate::help::HELP;
use crate::memory::Memory;
use crate::panel::Panel;
use anyhow::bail;
use std::env;

/// How many stays there is room for.
const STAYS: u32 = 8;

/// How many sailings there is room for.
const SAILINGS: u32 = 6;

fn day(rt: &HostRuntime) -> anyhow::Result<()> {
    let heap = rt.alloc();
    let mut stay_memory = Memory::new(heap, STAYS)?;
    let mut sailing_memory = Memory::new(heap, SAILINGS)?;
    let mut panel = Panel {
        stays: Board::new(&mut stay_memory),
        sailings: Board::new(&mut sailing_memory),
    };
    panel.show_day(rt)
}

fn run(rt: &HostRuntime) -> anyhow::Result<()> {
    match env::args(rt)?.nth(1) {
        None => day(rt),
        Some(word) if word.as_str() == "--help" => {
            println!(rt; "{HELP}")?;
            println!(rt; "\nThere is room for {STAYS} stays and {SAILINGS} sailings.")?;
            Ok(())
        }
        Some(_) => bail!("it takes no argument but --help"),
    }
}

fn main(rt: HostRuntime) -> anyhow::Result<()> {
    run(&rt)
}
