//! Files that a command writes, told apart by the system from those that it uses otherwise.
ghost use Rattle.std.specs.Prelude.{◌++◌, IfOk, IsTrue};
ghost use Rattle.abt_files.specs.Names.{AreNamesApart};
ghost use Rattle.abt_cli.specs.Lost.{listed};

use crate::command::{AuditCommand, Command};
use crate::lost::PRINTED;
use abt_files::are_apart;
use abt_plans::PicturePlan;
use std::alloc::{AllocError, AllocGlobal};
use std::rt::Files;

// The standard streams, as files.
const INPUT: &str = "/dev/stdin";

const OUTPUT: &str = "/dev/stdout";

/// Whether no file that a command writes is one that it reads or prints to, and none is written twice, by device and number. What the
/// system tells of files, no clause says.
pub(crate) fn writes_apart<T: Files + AllocGlobal>(
    rt: &T,
    command: &Command,
) -> Result<bool, AllocError> {
    match command {
        Command::Threads(command) => {
            let used = [source(&command.file), OUTPUT];
            both_apart(rt, &used, named(&command.journals), named(&command.events))
        }
        Command::Audit(command) => audit_writes_apart(rt, command),
        Command::Play(plan) => {
            let used = [source(&plan.file), OUTPUT];
            both_apart(rt, &used, drawn(&plan.picture), named(&plan.events))
        }
        Command::Draw(command) => {
            let picture = command.picture.out.as_str();
            let events = named(&command.events);
            if picture == PRINTED {
                return both_apart(rt, &[source(&command.file), OUTPUT], None, events);
            }
            both_apart(rt, &[source(&command.file)], Some(picture), events)
        }
        Command::Switch(plan) => {
            let used = [plan.file.as_str(), INPUT, OUTPUT];
            both_apart(rt, &used, Some(plan.journal.as_str()), None)
        }
        Command::Source(plan) => {
            let used = [plan.file.as_str(), INPUT, OUTPUT];
            let store = plan.store.as_str();
            both_apart(rt, &used, Some(store), Some(plan.journal.as_str()))
        }
        _ => Ok(true),
    }
}

fn audit_writes_apart<T: Files + AllocGlobal>(
    rt: &T,
    command: &AuditCommand,
) -> Result<bool, AllocError> {
    let mut used = Vec::new(rt.alloc());
    used.push(OUTPUT)?;
    for file in &command.files {
        used.push(file.as_str())?;
    }
    if command.files.is_empty() {
        used.push(INPUT)?;
    }
    let picture = drawn(&command.picture);
    both_apart(rt, used.as_slice(), picture, named(&command.events))
}

// The file of a scenario, or else the standard input.
fn source(file: &Option<String>) -> &str {
    match file {
        Some(name) => name.as_str(),
        None => INPUT,
    }
}

fn named(file: &Option<String>) -> Option<&str> {
    match file {
        Some(name) => Some(name.as_str()),
        None => None,
    }
}

// The file for a picture.
fn drawn(picture: &Option<PicturePlan>) -> Option<&str> {
    match picture {
        Some(picture) => Some(picture.out.as_str()),
        None => None,
    }
}

// Whether the files that are written, at most two, are none that are used otherwise, and not one.
fn both_apart<T: Files + AllocGlobal>(
    rt: &T,
    used: &[&str],
    first: Option<&str>,
    second: Option<&str>,
) -> Result<bool, AllocError>
    ensures { IfOk result (λ apart. IsTrue apart →
        AreNamesApart (λ name. name.now) used.now (listed first.entry ++ listed second.entry)) }
{
    match (first, second) {
        (Some(first), Some(second)) => are_apart(rt, used, &[first, second]),
        (Some(first), None) => are_apart(rt, used, &[first]),
        (None, Some(second)) => are_apart(rt, used, &[second]),
        (None, None) => Ok(true),
    }
}
