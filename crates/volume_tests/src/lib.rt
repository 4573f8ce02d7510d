//! Tests of volumes: how much room their files take, and bases that have no index, or one that is out of place.
#![tactic(auto)]

#[cfg(test)]
mod tests;
