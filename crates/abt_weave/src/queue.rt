//! The actors that are to be looked at.
ghost use Rattle.std.specs.Prelude.{◌≡◌, ◌<◌, length, IfOk, OnOk, MatchOption};
ghost use Rattle.abt_weave.specs.Queue.{IsQueue, AreAllReady, Wakes, IsFirst, IsEmpty};

use std::alloc::{AllocError, Global};
use std::collections::VecDeque;

/// Actors, by their numbers, that are to be looked at, and those whose next entries mismatched, which aren't any more.
#[derive(Debug, Drop)]
pub(crate) struct Queue {
    // The actors to be looked at, in this order.
    pub ready: VecDeque<u16>,
    // Whether an actor is one of those.
    pub woken: Vec<bool>,
    // Whether its next entry mismatched.
    pub marks: Vec<bool>,
}

impl Queue {
    /// All actors of so many.
    pub(crate) fn of_all(alloc: Global, count: u16) -> Result<Queue, AllocError>
        ensures { IfOk result (AreAllReady count) }
    {
        let mut ready = VecDeque::new(alloc);
        for number in 0..count {
            ready.push_back(number)?;
        }
        let woken = vec![in alloc; true; usize::from(count)]?;
        let marks = vec![in alloc; false; usize::from(count)]?;
        Ok(Queue {
            ready,
            woken,
            marks,
        })
    }

    /// Takes out the first that is to be looked at, if there is one.
    pub(crate) fn next(&mut self) -> Option<u16>
        requires { IsQueue (length self.old.woken.items) self.old }
        ensures { MatchOption result (IsEmpty self.old self.new) (IsFirst self.old self.new) }
    {
        let number = self.ready.pop_front()?;
        self.woken[usize::from(number)] = false;
        Some(number)
    }

    /// Has an actor looked at, unless its next entry mismatched.
    pub(crate) fn wake(&mut self, number: u16) -> Result<(), AllocError>
        requires queue { IsQueue (length self.old.woken.items) self.old }
        requires low { number < length self.old.woken.items }
        ensures queue { OnOk result (IsQueue (length self.old.woken.items) self.new) }
        ensures wakes { OnOk result (Wakes (λ i. i ≡ number) self.old self.new) }
    {
        let place = usize::from(number);
        if self.woken[place] || self.marks[place] {
            return Ok(());
        }
        self.ready.push_back(number)?;
        self.woken[place] = true;
        Ok(())
    }
}
