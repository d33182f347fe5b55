//! Ledgers.
ghost use Rattle.std.specs.Prelude.{◌≡◌, ◌+◌, ◌-◌, ◌<◌, ◌≤◌, ◌↔◌, IsOk, IfOk, IfErr, OnOk, OnErr, IsErrOf};
ghost use Rattle.abt_rate.specs.Limits.{capacity_max};
ghost use Rattle.abt_ledger.specs.Capacity.{capacity_fault, capacity_answer, capacity_after};

use crate::fault::CapacityFault;
use crate::hold::Hold;
use abt_rate::{CAPACITY_MAX, Rate};
use std::marker::Model;

/// The capacity of a link, and the sum of its holds, in units of 1/512 cell per second.
///
/// The sum moves only as [`Hold`]s are exchanged and given back, and is never above the capacity.
#[derive(Debug, Drop)]
pub struct Ledger {
    capacity: u64,
    total: u64,
    ghost within: { total ≤ capacity },
}

impl Model for Ledger {
    ghost use Rattle.abt_ledger.specs.Account.{Account, account_code};

    ghost Value = { Account };

    ghost coded = { account_code };

    ghost view = { λ a. record { capacity = a.capacity; total = a.total; within = a.within } };
}

impl Ledger {
    /// A ledger of a link without holds.
    pub fn new(capacity: u64) -> Ledger
        ensures capacity { result.capacity ≡ capacity }
        ensures total { result.total ≡ 0 }
    {
        Ledger { capacity, total: 0 }
    }

    /// The capacity, in units.
    pub fn capacity(&self) -> u64
        ensures { result ≡ self.now.capacity }
    {
        self.capacity
    }

    /// Sets the link's capacity, in units, to no less than what is held. What is held stays.
    pub fn set_capacity(&mut self, capacity: u64) -> Result<(), CapacityFault>
        ensures value { result ≡ capacity_answer (capacity_fault self.old.total capacity) }
        ensures capacity { self.new.capacity ≡
            capacity_after self.old.capacity capacity (capacity_fault self.old.total capacity) }
        ensures below_sum { IsErrOf result CapacityFault.BelowSum ↔ (capacity < self.old.total) }
        ensures above_limit { IsErrOf result CapacityFault.AboveLimit
            ↔ ((self.old.total ≤ capacity) × (capacity_max < capacity)) }
        ensures ok { OnOk result (self.new.capacity ≡ capacity) }
        ensures total { self.new.total ≡ self.old.total }
        ensures same { OnErr result (self.new ≡ self.old) }
    {
        if capacity < self.total {
            return Err(CapacityFault::BelowSum);
        }
        if capacity > CAPACITY_MAX {
            return Err(CapacityFault::AboveLimit);
        }
        self.capacity = capacity;
        Ok(())
    }

    /// The sum of what is held, in units.
    pub fn total(&self) -> u64
        ensures value { result ≡ self.now.total }
        ensures within { result ≤ self.now.capacity }
    {
        self.total
    }

    /// A hold of nothing.
    pub fn open(&mut self) -> Hold
        ensures value { result ≡ 0 }
        ensures same { self.new ≡ self.old }
    {
        Hold::of(Rate::ZERO)
    }

    /// Exchanges a hold for one of another rate if that fits, and else hands it back.
    pub fn change(&mut self, hold: Hold, rate: Rate) -> Result<Hold, Hold>
        requires { hold ≤ self.old.total }
        ensures fits { IsOk result ↔ (self.old.total - hold + rate ≤ self.old.capacity) }
        ensures ok { IfOk result (λ changed. changed ≡ rate) }
        ensures total { OnOk result (self.new.total ≡ self.old.total - hold + rate) }
        ensures err { IfErr result (λ kept. kept ≡ hold) }
        ensures same { OnErr result (self.new ≡ self.old) }
        ensures capacity { self.new.capacity ≡ self.old.capacity }
    {
        let others = self.total - hold.rate().units();
        if rate.units() > self.capacity - others {
            return Err(hold);
        }
        hold.spend();
        self.total = others + rate.units();
        Ok(Hold::of(rate))
    }

    /// Takes a hold back.
    pub fn close(&mut self, hold: Hold)
        requires { hold ≤ self.old.total }
        ensures total { self.new.total ≡ self.old.total - hold }
        ensures capacity { self.new.capacity ≡ self.old.capacity }
    {
        self.total -= hold.spend().units();
    }
}
