//! What is doubtful in a text: keys that nothing reads, and what runs otherwise than it looks.
use crate::expectations::EXPECT;
use crate::finding::{Findings, at_entry, at_item, entry_in};
use crate::near::{meant, near, shown};
use abt_model::Command;
use abt_places::Entry;
use abt_scenario::Scenario;
use std::alloc::AllocError;

const DOCUMENT_KEYS: [&str; 5] = ["ports", "connection", "events", "operator", EXPECT];

const CONNECTION_KEYS: [&str; 6] = ["vpi", "vci", "path", "delay", "tau", "script"];

impl Findings<'_> {
    // All keys that nothing reads.
    pub(crate) fn unread(&mut self) -> Result<(), AllocError> {
        let layout = self.layout;
        for entry in &layout.entries {
            if !DOCUMENT_KEYS.contains(&entry.name.as_str()) {
                self.unread_in_document(entry)?;
            }
        }
        for (index, section) in layout.sections.iter().enumerate() {
            for entry in &section.entries {
                if !CONNECTION_KEYS.contains(&entry.name.as_str()) {
                    self.unread_in_connection(index, entry)?;
                }
            }
        }
        Ok(())
    }

    fn unread_in_document(&mut self, entry: &Entry) -> Result<(), AllocError> {
        let alloc = self.alloc;
        let name = shown(alloc, entry.name.as_str())?;
        let text = if CONNECTION_KEYS.contains(&entry.name.as_str()) {
            format!(in alloc;
                "nothing reads `{name}` here: it belongs to a connection, behind a line `[[connection]]`"
            )?
        } else {
            let meant = meant(alloc, near(alloc, entry.name.as_str(), &DOCUMENT_KEYS)?)?;
            format!(in alloc; "nothing reads the key `{name}`{meant}")?
        };
        self.warning(Some(entry.at), text)
    }

    fn unread_in_connection(&mut self, index: usize, entry: &Entry) -> Result<(), AllocError> {
        let alloc = self.alloc;
        let word = entry.name.as_str();
        let name = shown(alloc, word)?;
        let own = near(alloc, word, &CONNECTION_KEYS)?;
        let text = match near(alloc, word, &DOCUMENT_KEYS)? {
            Some(known) if own.is_none() => {
                let hint = if known == word {
                    meant(alloc, None)?
                } else {
                    meant(alloc, Some(known))?
                };
                format!(in alloc;
                    "nothing reads `{name}` here: it stands behind the beginning of connection {index}, so TOML puts it there; \
                write it before the first `[[connection]]`{hint}"
                )?
            }
            _ => {
                let meant = meant(alloc, own)?;
                format!(in alloc; "nothing reads the key `{name}` of connection {index}{meant}")?
            }
        };
        self.warning(Some(entry.at), text)
    }

    // What is doubtful in what a scenario runs.
    pub(crate) fn runs(&mut self, scenario: &Scenario) -> Result<(), AllocError> {
        let alloc = self.alloc;
        if scenario.events.is_empty()
            && scenario
                .scripts
                .as_slice()
                .iter()
                .all(|script| script.is_empty())
        {
            let text = format!(in alloc; "nothing runs: there are no events and no scripts")?;
            self.warning(None, text)?;
        }
        for (index, script) in scenario.scripts.as_slice().iter().enumerate() {
            let tau = match scenario.net.conns().get(index) {
                Some(conn) => conn.tau,
                None => 0,
            };
            self.script(index, tau, script.as_slice())?;
        }
        self.operator(scenario)
    }

    fn script(&mut self, index: usize, tau: u64, commands: &[Command]) -> Result<(), AllocError> {
        let alloc = self.alloc;
        let entry = entry_in(self.layout.sections.get(index), "script");
        if !commands.is_empty()
            && !commands
                .iter()
                .any(|command| matches!(command, Command::Start { .. }))
        {
            let text = format!(in alloc;
                "the script of connection {index} never starts its source, so `abt threads` sends nothing for it"
            )?;
            self.warning(at_entry(entry), text)?;
        }
        for (place, command) in commands.iter().enumerate() {
            if let Command::Emit {
                now: _,
                jitter: Some(jitter),
            } = *command
                && jitter > tau
            {
                let number = place as u64 + 1;
                let text = format!(in alloc;
                    "command {number} of connection {index} has a jitter of {jitter} above its tau of {tau}: `abt threads` refuses the scenario"
                )?;
                self.warning(at_item(entry, place), text)?;
            }
        }
        Ok(())
    }

    fn operator(&mut self, scenario: &Scenario) -> Result<(), AllocError> {
        let alloc = self.alloc;
        let entry = self.layout.entry("operator");
        let ports = scenario.net.capacities().len();
        for (place, operation) in scenario.operator.as_slice().iter().enumerate() {
            let port = operation.0;
            if usize::from(port) >= ports {
                let number = place as u64 + 1;
                let text = format!(in alloc;
                    "operation {number} names port {port}; the net has {ports} ports, counted from 0: `abt threads` refuses the scenario"
                )?;
                self.warning(at_item(entry, place), text)?;
            }
        }
        Ok(())
    }
}
