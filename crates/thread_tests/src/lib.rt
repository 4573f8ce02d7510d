//! Tests of the lock, the board, the pool and the updaters of a session.
#![tactic(auto)]

#[cfg(test)]
mod boards;
#[cfg(test)]
mod counter;
#[cfg(test)]
mod fixtures;
#[cfg(test)]
mod meeting;
#[cfg(test)]
mod pools;
#[cfg(test)]
mod sessions;
#[cfg(test)]
mod turns;
