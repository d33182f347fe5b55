//! The plans of commands.
ghost use Rattle.std.specs.Prelude.{◌≡◌, IfSome};
ghost use Rattle.abt_perform.specs.Plans.{IsWithinLimits};
ghost use Rattle.abt_cli.specs.Commands.{IsAllowed};
ghost use Rattle.abt_cli.specs.Plans as spec;

use crate::command::{Command, ThreadsCommand};
use abt_perform::Plan;

// The plan of a command, if it has one.
pub(crate) fn plan_of(command: Command) -> Option<Plan>
    ensures plan { result ≡ spec.plan_of command }
    ensures limits { IsAllowed command → IfSome result IsWithinLimits }
{
    match command {
        Command::Rate { code, json: false } => Some(Plan::Rate(code)),
        Command::Cell {
            cell: Some(cell),
            json: false,
        } => Some(Plan::Cell(cell)),
        Command::Port {
            capacity,
            cells: Some(cells),
            json: false,
        } => Some(Plan::Port { capacity, cells }),
        Command::Run {
            file,
            json: false,
            strict: false,
            ..
        } => Some(Plan::Run(file)),
        Command::Threads(command) => plan_of_threads(command),
        _ => None,
    }
}

// The plan of a run in threads that isn't said as JSON, and of which no file is written.
fn plan_of_threads(command: ThreadsCommand) -> Option<Plan>
    ensures plan { result ≡ spec.of_threads command command.json command.journals command.events }
{
    if command.json || command.journals.is_some() || command.events.is_some() {
        return None;
    }
    Some(Plan::Threads {
        file: command.file,
        workers: command.workers,
    })
}
