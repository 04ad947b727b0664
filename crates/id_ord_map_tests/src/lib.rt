// Tests of the map.

#![tactic(auto)]

#[cfg(test)]
mod adding_refusals;
#[cfg(test)]
mod adopt_refusals;
#[cfg(test)]
mod boards;
#[cfg(test)]
mod capacity;
#[cfg(test)]
mod compaction_refusals;
mod keep_before;
#[cfg(test)]
mod long_run;
#[cfg(test)]
mod lookup;
#[cfg(test)]
mod memory;
#[cfg(test)]
mod replacing_refusals;
#[cfg(test)]
mod retaining;

pub use keep_before::KeepBefore;
