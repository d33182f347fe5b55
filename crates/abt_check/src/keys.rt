//! Keys that are missing, and values that don't stand there.
use crate::finding::{Findings, at_entry, at_item, entry_in};
use abt_places::{Entry, Section};
use abt_scenario::{Key, ScenarioFault};
use std::alloc::{AllocError, Global};
use toml::{Table, Value};

// The greatest whole number of a TOML text.
const WHOLE_MAX: u64 = 9_223_372_036_854_775_807;

impl Findings<'_> {
    // All that is wrong at the keys of a document.
    pub(crate) fn keys(&mut self, table: &Table) -> Result<(), AllocError> {
        let layout = self.layout;
        match table.get("ports") {
            Some(value) => self.numbers(value, Key::Ports, layout.entry("ports"), WHOLE_MAX)?,
            None => {
                let alloc = self.alloc;
                let text = format!(in alloc;
                    "the document has no key `ports`, the capacity of each port in units"
                )?;
                self.fault(ScenarioFault::MissingKey(Key::Ports), None, text)?;
            }
        }
        self.connections(table)?;
        self.texts_at(table, Key::Events, layout.entry("events"))?;
        self.texts_at(table, Key::Operator, layout.entry("operator"))
    }

    fn connections(&mut self, table: &Table) -> Result<(), AllocError> {
        let Some(value) = table.get("connection") else {
            return Ok(());
        };
        let layout = self.layout;
        let Some(items) = value.as_array() else {
            return self.wrong(
                value,
                Key::Connection,
                at_entry(layout.entry("connection")),
                "an array of tables, each behind a line `[[connection]]`,",
            );
        };
        for (index, item) in items.iter().enumerate() {
            if item.as_table().is_none() {
                let at = self.at_section(index);
                self.wrong(item, Key::Connection, at, "a table")?;
            }
        }
        for (index, item) in items.iter().enumerate() {
            if let Some(members) = item.as_table() {
                self.connection(index, members)?;
            }
        }
        Ok(())
    }

    // Where a connection begins.
    pub(crate) fn at_section(&self, index: usize) -> Option<usize> {
        match self.layout.sections.get(index) {
            Some(section) => Some(section.at),
            None => None,
        }
    }

    fn connection(&mut self, index: usize, members: &Table) -> Result<(), AllocError> {
        let section = self.layout.sections.get(index);
        self.whole(index, members, section, Key::Vpi, 4095)?;
        self.whole(index, members, section, Key::Vci, 65535)?;
        match members.get("path") {
            Some(value) => self.numbers(value, Key::Path, entry_in(section, "path"), 65535)?,
            None => self.missing(index, Key::Path)?,
        }
        self.whole(index, members, section, Key::Delay, WHOLE_MAX)?;
        self.whole(index, members, section, Key::Tau, WHOLE_MAX)?;
        self.texts_at(members, Key::Script, entry_in(section, "script"))
    }

    fn missing(&mut self, index: usize, key: Key) -> Result<(), AllocError> {
        let alloc = self.alloc;
        let at = self.at_section(index);
        let text = format!(in alloc; "connection {index} has no key `{key}`")?;
        self.fault(ScenarioFault::MissingKey(key), at, text)
    }

    fn whole(
        &mut self,
        index: usize,
        members: &Table,
        section: Option<&Section>,
        key: Key,
        most: u64,
    ) -> Result<(), AllocError> {
        let Some(value) = members.get(key.name()) else {
            return self.missing(index, key);
        };
        if is_whole(value, most) {
            return Ok(());
        }
        let alloc = self.alloc;
        let wanted = format!(in alloc; "a whole number from 0 to {most}")?;
        self.wrong(
            value,
            key,
            at_entry(entry_in(section, key.name())),
            wanted.as_str(),
        )
    }

    fn numbers(
        &mut self,
        value: &Value,
        key: Key,
        entry: Option<&Entry>,
        most: u64,
    ) -> Result<(), AllocError> {
        let alloc = self.alloc;
        let Some(items) = value.as_array() else {
            return self.wrong(value, key, at_entry(entry), "an array of whole numbers");
        };
        let wanted = format!(in alloc; "a whole number from 0 to {most}")?;
        for (index, item) in items.iter().enumerate() {
            if !is_whole(item, most) {
                self.wrong_item(
                    item,
                    key,
                    index as u64,
                    at_item(entry, index),
                    wanted.as_str(),
                )?;
            }
        }
        Ok(())
    }

    fn texts_at(
        &mut self,
        table: &Table,
        key: Key,
        entry: Option<&Entry>,
    ) -> Result<(), AllocError> {
        let Some(value) = table.get(key.name()) else {
            return Ok(());
        };
        let Some(items) = value.as_array() else {
            return self.wrong(value, key, at_entry(entry), "an array of texts");
        };
        for (index, item) in items.iter().enumerate() {
            if item.as_str().is_none() {
                self.wrong_item(item, key, index as u64 + 1, at_item(entry, index), "a text")?;
            }
        }
        Ok(())
    }

    fn wrong(
        &mut self,
        value: &Value,
        key: Key,
        at: Option<usize>,
        wanted: &str,
    ) -> Result<(), AllocError> {
        let alloc = self.alloc;
        let is = value_text(alloc, value)?;
        let text = format!(in alloc; "`{key}` is {is}; {wanted} is wanted")?;
        self.fault(ScenarioFault::WrongType(key), at, text)
    }

    fn wrong_item(
        &mut self,
        value: &Value,
        key: Key,
        number: u64,
        at: Option<usize>,
        wanted: &str,
    ) -> Result<(), AllocError> {
        let alloc = self.alloc;
        let is = value_text(alloc, value)?;
        let text = format!(in alloc; "item {number} of `{key}` is {is}; {wanted} is wanted")?;
        self.fault(ScenarioFault::WrongType(key), at, text)
    }
}

fn is_whole(value: &Value, most: u64) -> bool {
    match whole_in(value) {
        Some(number) => number <= most,
        None => false,
    }
}

// The whole number from 0 on that a value is.
pub(crate) fn whole_in(value: &Value) -> Option<u64> {
    u64::try_from(value.as_integer()?).ok()
}

// What a value is: the number itself, or its type.
fn value_text(alloc: Global, value: &Value) -> Result<String, AllocError> {
    match value.as_integer() {
        Some(number) => format!(in alloc; "{number}"),
        None => {
            let kind = value.type_str();
            format!(in alloc; "of type {kind}")
        }
    }
}
