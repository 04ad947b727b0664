// Tests of the sorted table.

#![tactic(auto)]

#[cfg(test)]
mod closing;
#[cfg(test)]
mod disordered;
#[cfg(test)]
mod every_gap;
#[cfg(test)]
mod fault_numbers;
#[cfg(test)]
mod finding;
#[cfg(test)]
mod long_run;
#[cfg(test)]
mod lookup;
#[cfg(test)]
mod making_entries;
#[cfg(test)]
mod memory;
#[cfg(test)]
mod opening;
#[cfg(test)]
mod order;
#[cfg(test)]
mod reading;
#[cfg(test)]
mod renumbering;
#[cfg(test)]
mod validating;
