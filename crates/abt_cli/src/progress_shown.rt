//! Whether it is shown how far a command is.
ghost use Rattle.std.specs.Prelude.{◌≡◌};
ghost use Rattle.abt_cli.specs.Showing as spec;

use crate::command::Command;

/// Whether it is to be shown on a terminal how far a command is: if it reads an input that can be long, unless it is to be quiet.
pub fn shows_progress(command: &Command) -> bool
    ensures { result ≡ spec.shows_progress command.now }
{
    match command {
        Command::Run { quiet, .. } | Command::Explain { quiet, .. } => !*quiet,
        Command::Threads(command) => !command.quiet,
        Command::Audit(command) => !command.quiet,
        Command::AuditLog(command) => !command.quiet,
        _ => false,
    }
}
