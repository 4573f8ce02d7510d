//! Which calls of a source or a sink in memory are to fail.
ghost use Rattle.std.specs.Prelude.{◌≡◌, true, false};
ghost use Rattle.rdf_ports.specs.Calls.{no_calls, is_listed, after_call};
ghost use Rattle.rdf_ports.specs.Counts.{Faulted};

use std::marker::Model;

/// The calls that came, numbered from 0, and those that are to fail.
#[derive(Drop)]
pub struct CallList {
    came: u64,
    fails: Vec<u64>,
    failed: u64,
}

impl Model for CallList {
    ghost use Rattle.rdf_ports.specs.Calls.{Calls};

    ghost Value = { Calls };

    ghost view = { λ c. record { came = c.came; fails = c.fails.items; failed = c.failed } };
}

impl CallList {
    /// Of no call yet.
    pub fn new(fails: Vec<u64>) -> CallList
        ensures { result ≡ no_calls fails.items }
    {
        CallList {
            came: 0,
            fails,
            failed: 0,
        }
    }

    /// Counts the next call, and answers whether it is to fail.
    pub fn next_fails(&mut self) -> bool
        ensures answer { result ≡ is_listed self.old }
        ensures calls { self.new ≡ after_call self.old }
        ensures fault { result ≡ true → Faulted self.old.failed self.new.failed }
        ensures fine { result ≡ false → self.new.failed ≡ self.old.failed }
    {
        let is_listed = self.fails.contains(&self.came);
        self.came = self.came.saturating_add(1);
        if is_listed {
            self.failed = self.failed.saturating_add(1);
        }
        is_listed
    }
}
