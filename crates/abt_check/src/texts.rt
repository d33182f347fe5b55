//! Texts that say no event, no command and no operation.
use crate::finding::{Findings, at_item, entry_in};
use crate::net::items_at;
use crate::words::{Kind, misfit};
use abt_codes::code_doubt;
use abt_format::{command_of, event_of, operation_of};
use abt_model::{Command, Event};
use abt_scenario::ScenarioFault;
use std::alloc::AllocError;
use toml::{Table, Value};

impl Findings<'_> {
    // All texts of a document that say nothing of their kind.
    pub(crate) fn texts(&mut self, table: &Table) -> Result<(), AllocError> {
        self.event_texts(items_at(table, "events"))?;
        for (index, conn) in items_at(table, "connection").iter().enumerate() {
            if let Some(members) = conn.as_table() {
                self.script_texts(index, items_at(members, "script"))?;
            }
        }
        self.operation_texts(items_at(table, "operator"))
    }

    fn event_texts(&mut self, values: &[Value]) -> Result<(), AllocError> {
        let entry = self.layout.entry("events");
        for (index, value) in values.iter().enumerate() {
            let Some(text) = value.as_str() else {
                continue;
            };
            let at = at_item(entry, index);
            match event_of(text) {
                Some(Event::Ask { .. }) => self.code(text.split(' ').nth(2), at)?,
                Some(_) => {}
                None => {
                    let why = misfit(self.alloc, Kind::Event, text)?;
                    let number = index as u64 + 1;
                    self.fault(ScenarioFault::EventText { number }, at, why)?;
                }
            }
        }
        Ok(())
    }

    fn script_texts(&mut self, conn: usize, values: &[Value]) -> Result<(), AllocError> {
        let entry = entry_in(self.layout.sections.get(conn), "script");
        for (index, value) in values.iter().enumerate() {
            let Some(text) = value.as_str() else {
                continue;
            };
            let at = at_item(entry, index);
            match command_of(text) {
                Some(Command::Ask { .. }) => self.code(text.split(' ').nth(1), at)?,
                Some(_) => {}
                None => {
                    let why = misfit(self.alloc, Kind::Command, text)?;
                    let fault = ScenarioFault::ScriptText {
                        connection: conn as u64,
                        number: index as u64 + 1,
                    };
                    self.fault(fault, at, why)?;
                }
            }
        }
        Ok(())
    }

    // A code that is asked for, in a text at a place.
    fn code(&mut self, word: Option<&str>, at: Option<usize>) -> Result<(), AllocError> {
        let Some(word) = word else {
            return Ok(());
        };
        match code_doubt(self.alloc, word)? {
            Some(text) => self.warning(at, text),
            None => Ok(()),
        }
    }

    fn operation_texts(&mut self, values: &[Value]) -> Result<(), AllocError> {
        let entry = self.layout.entry("operator");
        for (index, value) in values.iter().enumerate() {
            let Some(text) = value.as_str() else {
                continue;
            };
            if operation_of(text).is_none() {
                let why = misfit(self.alloc, Kind::Operation, text)?;
                let number = index as u64 + 1;
                self.fault(
                    ScenarioFault::OperatorText { number },
                    at_item(entry, index),
                    why,
                )?;
            }
        }
        Ok(())
    }
}
