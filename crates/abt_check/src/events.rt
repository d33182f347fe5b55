//! Doubts about events.
use crate::finding::{FOUND_MAX, Findings, at_item};
use crate::unable::{Look, Unable, unable_in};
use abt_scenario::Scenario;
use std::alloc::AllocError;

impl Findings<'_> {
    // Each event of a scenario that comes to nothing, and why; no more than are told.
    pub(crate) fn events(&mut self, scenario: &Scenario) -> Result<(), AllocError> {
        let entry = self.layout.entry("events");
        let events = scenario.events.as_slice();
        for found in unable_in(self.alloc, &scenario.net, events, Look::Wide, FOUND_MAX)? {
            let Unable { index, text } = found;
            self.warning(at_item(entry, index), text)?;
        }
        Ok(())
    }
}
