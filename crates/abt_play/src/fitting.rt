//! Whether scripts fit a net.
ghost use Rattle.std.specs.Prelude.{◌↔◌, IsTrue, All};
ghost use Rattle.abt_links.specs.Runs.{ScriptsFit};
ghost use Rattle.abt_links.specs.Scripts.{IsInTolerance};

use abt_model::{Command, Script};
use abt_net::Conn;

// Whether there is one script for each connection, and no jitter is above its tau.
pub(crate) fn scripts_fit(conns: &[Conn], scripts: &[Script]) -> bool
    ensures { IsTrue result ↔ ScriptsFit conns.now scripts.now }
{
    match (conns.split_first(), scripts.split_first()) {
        (None, None) => true,
        (Some((conn, conns)), Some((script, scripts))) => {
            all_in_tolerance(script.as_slice(), conn.tau) && scripts_fit(conns, scripts)
        }
        _ => false,
    }
}

// Whether no jitter of these commands is above a tau.
fn all_in_tolerance(commands: &[Command], tau: u64) -> bool
    ensures { IsTrue result ↔ All (IsInTolerance tau) commands.now }
{
    commands.iter().all(|command| is_in_tolerance(command, tau))
}

// Whether a command has no jitter above a tau.
fn is_in_tolerance(command: &Command, tau: u64) -> bool
    ensures { IsTrue result ↔ IsInTolerance tau command.now }
{
    match *command {
        Command::Emit {
            now: _,
            jitter: Some(jitter),
        } => jitter <= tau,
        _ => true,
    }
}
