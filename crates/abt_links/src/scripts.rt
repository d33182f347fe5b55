//! Whether scripts fit a net.
ghost use Rattle.std.specs.Prelude.{◌≡◌, ◌<◌, ◌↔◌, IsTrue, All, Some, length, slice_get};
ghost use Rattle.abt_net.specs.Topology.{conn_at};
ghost use Rattle.abt_net.specs.declared.conn.Conn.{Conn};
ghost use Rattle.abt_links.specs.Scripts.{IsInTolerance};
ghost use Rattle.abt_links.specs.Runs.{ScriptsFit};

use abt_model::{Command, Script};
use abt_net::{Conn, Net};

// Whether there is one script for each connection, and no jitter is above its tau.
pub(crate) fn scripts_fit(conns: &[Conn], scripts: &[Script]) -> bool
    ensures { IsTrue result ↔ ScriptsFit conns.now scripts.now }
{
    match (conns.split_first(), scripts.split_first()) {
        (None, None) => true,
        (Some((conn, conns)), Some((script, scripts))) => {
            all_in_tolerance(script.as_slice(), conn.tau) && scripts_fit(conns, scripts)
        }
        _ => false,
    }
}

// Whether no jitter of these commands is above a tau.
fn all_in_tolerance(commands: &[Command], tau: u64) -> bool
    ensures { IsTrue result ↔ All (IsInTolerance tau) commands.now }
{
    commands.iter().all(|command| is_in_tolerance(command, tau))
}

// Whether a command has no jitter above a tau.
fn is_in_tolerance(command: &Command, tau: u64) -> bool
    ensures { IsTrue result ↔ IsInTolerance tau command.now }
{
    match *command {
        Command::Emit {
            now: _,
            jitter: Some(jitter),
        } => jitter <= tau,
        _ => true,
    }
}

// The script of a connection, if scripts fit the net.
pub(crate) fn script_of<'run>(net: &Net, scripts: &'run [Script], conn: u16) -> &'run Script
    requires fit { ScriptsFit net.now.conns scripts.now }
    requires within { conn < length scripts.now }
    ensures script { slice_get scripts.now conn ≡ Some result.now }
    ensures conn { conn < length net.now.conns }
    ensures jitters { (line : Conn) → conn_at net.now conn ≡ Some line →
        All (IsInTolerance line.tau) result.now }
{
    &scripts[usize::from(conn)]
}
