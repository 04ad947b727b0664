// Tests of the slot store.

#![tactic(auto)]

#[cfg(test)]
mod churn;
#[cfg(test)]
mod compacting;
#[cfg(test)]
mod every_pattern;
#[cfg(test)]
mod faults;
#[cfg(test)]
mod inserting;
#[cfg(test)]
mod reading;
#[cfg(test)]
mod refusal_numbers;
#[cfg(test)]
mod remapping;
#[cfg(test)]
mod removing;
#[cfg(test)]
mod replacing;
#[cfg(test)]
mod reusing;
#[cfg(test)]
mod slot_numbers;
#[cfg(test)]
mod soundness;
#[cfg(test)]
mod store;
