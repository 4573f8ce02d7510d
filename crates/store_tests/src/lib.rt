//! Tests of records and their bytes, disks, logs and stores.
#![tactic(auto)]

#[cfg(test)]
mod tests;
