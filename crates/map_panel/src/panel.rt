// The panel: its two boards, and the commands that it carries out on them, line by line.
ghost use Rattle.id_ord_law.specs.Parts.{Sound};
ghost use Rattle.id_ord_map.specs.View.{view};
ghost use Rattle.panel_items.specs.Sailing.{by_code};
ghost use Rattle.panel_items.specs.Stay.{by_berth_then_from};

use crate::board::Board;
use crate::command::Command;
use crate::reading::read_line;
use panel_items::{Sailing, Stay};
use std::io;
use std::io::{BufRead, BufReader};

/// A board of stays and a board of sailings.
#[derive(Drop)]
pub struct Panel<'m> {
    pub stays: Board<'m, Stay>,
    pub sailings: Board<'m, Sailing>,
}

impl<'m> Panel<'m> {
    /// Carries out a command, and prints what was done.
    fn obey(&mut self, rt: &HostRuntime, command: Command<'_>) -> io::Result<()>
        requires stays { Sound by_berth_then_from (view self.old.stays.map) }
        requires sailings { Sound by_code (view self.old.sailings.map) }
        ensures stays { Sound by_berth_then_from (view self.new.stays.map) }
        ensures sailings { Sound by_code (view self.new.sailings.map) }
    {
        match command {
            Command::Stays(order) => self.stays.serve(rt, order),
            Command::Sailings(order) => self.sailings.serve(rt, order),
            Command::Ended(rule) => self.stays.keep(rt, rule),
        }
    }

    /// Carries out the command of a line, if it has one, or tells what is wrong with the line.
    fn obey_line(&mut self, rt: &HostRuntime, at: u64, line: &[u8]) -> io::Result<()>
        requires stays { Sound by_berth_then_from (view self.old.stays.map) }
        requires sailings { Sound by_code (view self.old.sailings.map) }
        ensures stays { Sound by_berth_then_from (view self.new.stays.map) }
        ensures sailings { Sound by_code (view self.new.sailings.map) }
    {
        match read_line(line) {
            Ok(None) => Ok(()),
            Ok(Some(command)) => {
                print!(rt; "line {at}: ")?;
                self.obey(rt, command)
            }
            Err(fault) => println!(rt; "line {at}: {fault}"),
        }
    }

    /// Carries out the commands of the input, line by line.
    fn obey_lines(&mut self, rt: &HostRuntime) -> anyhow::Result<()>
        requires stays { Sound by_berth_then_from (view self.old.stays.map) }
        requires sailings { Sound by_code (view self.old.sailings.map) }
        ensures stays { Sound by_berth_then_from (view self.new.stays.map) }
        ensures sailings { Sound by_code (view self.new.sailings.map) }
    {
        let lines = BufReader::new(rt.alloc(), rt.stdin())?.split(rt.alloc(), b'\n');
        for (at, line) in (1..=u64::MAX).zip(lines) {
            self.obey_line(rt, at, line?.as_slice())?;
        }
        Ok(())
    }

    /// Obeys the input, and prints the boards as they are at its end.
    pub fn show_day(&mut self, rt: &HostRuntime) -> anyhow::Result<()>
        requires stays { Sound by_berth_then_from (view self.old.stays.map) }
        requires sailings { Sound by_code (view self.old.sailings.map) }
        ensures stays { Sound by_berth_then_from (view self.new.stays.map) }
        ensures sailings { Sound by_code (view self.new.sailings.map) }
    {
        self.obey_lines(rt)?;
        println!(rt; "stays:")?;
        self.stays.print_items(rt)?;
        println!(rt; "sailings:")?;
        self.sailings.print_items(rt)?;
        Ok(())
    }
}
