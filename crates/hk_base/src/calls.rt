//! How many calls of one kind a host in memory had, and which are to fail.

ghost use Rattle.std.specs.Prelude.{◌≡◌, ◌↔◌, [], IsTrue, OnOk, OnErr};
ghost use Rattle.hk_base.specs.Calls.{NextFails, counted, failing_at};

use crate::list::List;
use std::alloc::{AllocError, Global};

/// The calls of a host that are counted together.
#[derive(Clone, Copy, Debug)]
pub enum CallKind {
    Opening,
    Reading,
    Writing,
}

/// How many calls of one kind there were, and the numbers of those that are to fail.
#[derive(Debug, Drop)]
pub struct Calls {
    count: u64,
    to_fail: List<u64>,
}

impl Calls {
    /// No calls yet, none of which is to fail.
    pub fn new(alloc: Global) -> Calls
        ensures { result ≡ record { count = 0; to_fail = [] } }
    {
        Calls {
            count: 0,
            to_fail: List::new(alloc),
        }
    }

    /// Counts one call more, and says whether it is to fail.
    pub fn next_fails(&mut self) -> bool
        ensures fails { IsTrue result ↔ NextFails self.old }
        ensures counted { self.new ≡ counted self.old }
    {
        self.count = self.count.saturating_add(1);
        self.to_fail.as_slice().contains(&self.count)
    }

    /// Makes the call of this number fail.
    pub fn fail_at(&mut self, number: u64) -> Result<(), AllocError>
        ensures ok { OnOk result (self.new ≡ failing_at self.old number) }
        ensures err { OnErr result (self.new ≡ self.old) }
    {
        self.to_fail.push(number)?;
        Ok(())
    }
}
