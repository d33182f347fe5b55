//! What is found in a text.
ghost use Rattle.std.specs.Prelude.{◌≡◌, ◌↔◌, [], OnOk, IsTrue};
ghost use Rattle.abt_check.specs.Findings.{IsKept};

use abt_places::{Entry, Layout, Section};
use abt_scenario::ScenarioFault;
use std::alloc::{AllocError, Global};

/// The most faults, and the most warnings, that are told of one text.
pub const FOUND_MAX: usize = 100;

/// A fault of a text, the octets before its place if that is known, and what is wrong, in words.
#[derive(Debug, Drop)]
pub struct Found {
    pub fault: ScenarioFault,
    pub at: Option<usize>,
    pub text: String,
}

/// What is doubtful in a text, and the octets before its place if that is known.
#[derive(Debug, Drop)]
pub struct Warning {
    pub at: Option<usize>,
    pub text: String,
}

/// What is wrong and what is doubtful in a text, at most [`FOUND_MAX`] of each.
#[derive(Debug, Drop)]
pub struct Checked {
    pub faults: Vec<Found>,
    pub warnings: Vec<Warning>,
}

/// What was found so far in a text whose keys stand at these places.
#[derive(Drop)]
pub(crate) struct Findings<'a> {
    pub alloc: Global,
    pub layout: &'a Layout,
    pub found: Checked,
}

impl Findings<'_> {
    // One fault more.
    pub(crate) fn fault(
        &mut self,
        fault: ScenarioFault,
        at: Option<usize>,
        text: String,
    ) -> Result<(), AllocError>
        ensures kept { OnOk result (IsKept self.old.found.faults.items
            (record { fault = fault; at = at; text = text }) self.new.found.faults.items) }
        ensures same { self.new.found.warnings ≡ self.old.found.warnings }
    {
        if self.found.faults.len() < FOUND_MAX {
            self.found.faults.push(Found { fault, at, text })?;
        }
        Ok(())
    }

    // One warning more.
    pub(crate) fn warning(&mut self, at: Option<usize>, text: String) -> Result<(), AllocError>
        ensures kept { OnOk result (IsKept self.old.found.warnings.items
            (record { at = at; text = text }) self.new.found.warnings.items) }
        ensures same { self.new.found.faults ≡ self.old.found.faults }
    {
        if self.found.warnings.len() < FOUND_MAX {
            self.found.warnings.push(Warning { at, text })?;
        }
        Ok(())
    }

    // Whether no fault was found.
    pub(crate) fn is_clean(&self) -> bool
        ensures { IsTrue result ↔ (self.now.found.faults.items ≡ []) }
    {
        self.found.faults.is_empty()
    }
}

// Where a key stands.
pub(crate) fn at_entry(entry: Option<&Entry>) -> Option<usize> {
    entry.map(|entry| entry.at)
}

// Where an item of its array stands, or else the key.
pub(crate) fn at_item(entry: Option<&Entry>, index: usize) -> Option<usize> {
    let entry = entry?;
    match entry.items.get(index) {
        Some(at) => Some(*at),
        None => Some(entry.at),
    }
}

// Where a key of a connection stands.
pub(crate) fn entry_in<'a>(section: Option<&'a Section>, name: &str) -> Option<&'a Entry> {
    section?.entry(name)
}
