//! Tests of plans and of the machine.
#![tactic(auto)]

#[cfg(test)]
mod tests;
