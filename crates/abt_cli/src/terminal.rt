//! Commands where the standard output is a terminal.
ghost use Rattle.std.specs.Prelude.{◌≡◌};
ghost use Rattle.abt_cli.specs.Commands.{IsAllowed};
ghost use Rattle.abt_cli.specs.OnTerminal as spec;

use crate::command::{Command, DrawCommand};
use crate::lost::PRINTED;
use abt_plans::PictureForm;

/// The command that is carried out if the standard output is a terminal: `abt draw -o -` draws text there.
pub fn on_terminal(command: Command) -> Command
    ensures command { result ≡ spec.on_terminal command }
    ensures limits { IsAllowed command → IsAllowed result }
{
    match command {
        Command::Draw(command) => Command::Draw(draw_on_terminal(command)),
        other => other,
    }
}

fn draw_on_terminal(mut command: DrawCommand) -> DrawCommand
    ensures { result ≡ spec.draw_on_terminal command }
{
    if command.picture.out.as_str() == PRINTED {
        command.picture.form = PictureForm::Text;
    }
    command
}
