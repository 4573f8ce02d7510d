//! Tests of disks over folders, of the system and in memory.
#![tactic(auto)]

#[cfg(test)]
mod both_folders;
#[cfg(test)]
mod edges;
#[cfg(test)]
mod power_losses;
