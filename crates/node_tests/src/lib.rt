//! Tests of the layers of a primary and of a backup.
#![tactic(auto)]

#[cfg(test)]
mod tests;
