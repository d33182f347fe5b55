//! Texts that are written to files of their own: whole, or not at all.
ghost use Rattle.std.specs.Prelude.{◌≡◌, ◌⊎◌, IfOk, option_map, string_bytes};
ghost use Rattle.std.specs.Io.KnownBytes.{Keeps};
ghost use Rattle.abt_commands.specs.Saved.{IsFiled, IsSavedIfNamed, IsUnsavedIfNamed};
ghost use Rattle.abt_commands.specs.Saved as spec;

use crate::unwritten::tell_unwritten;
use abt_files::{OutFault, Why, write_output};
use abt_model::Event;
use abt_net::Net;
use abt_perform::tell_text;
use abt_scenario::{EventsFault, sample_text};
use std::alloc::AllocGlobal;
use std::io::Write;
use std::rt::Files;

// Writes a text to the file of a name. The standard output is no such file.
pub(crate) fn write_file<T: Files + AllocGlobal>(
    rt: &T,
    name: &str,
    text: &[u8],
) -> Result<(), OutFault>
    ensures { IfOk result (λ _. IsFiled text.now) }
{
    let mut here = Vec::new(rt.alloc());
    match write_output(rt, name, &mut here, text) {
        Ok(Some(_)) => Ok(()),
        Ok(None) => Err(OutFault::Open(Why::Name)),
        Err(fault) => Err(fault),
    }
}

// Writes events as a scenario to the file that may be named, or tells why not. Gives the exit status.
pub(crate) fn save_if_named<T: Files + AllocGlobal, E: Write>(
    rt: &T,
    name: &Option<String>,
    net: &Net,
    events: &[Event],
    errors: &mut E,
) -> u8
    ensures status { (result ≡ 0) ⊎ (result ≡ 1) }
    ensures ok { result ≡ 0 → IsSavedIfNamed (option_map string_bytes name.now) net.now events.now }
    ensures quiet { result ≡ 0 → Keeps (E.contents errors.old) (E.contents errors.new) }
    ensures err { result ≡ 1 → IsUnsavedIfNamed (option_map string_bytes name.now) net.now events.now
        (E.contents errors.old) (E.contents errors.new) }
{
    let Some(name) = name else {
        return 0;
    };
    let text = match sample_text(rt.alloc(), net, events) {
        Ok(text) => text,
        Err(fault) => {
            tell_text(errors, fault.line());
            return 1;
        }
    };
    match write_file(rt, name.as_str(), text.as_bytes()) {
        Ok(()) => 0,
        Err(fault) => {
            let line = fault_of_file(fault).line();
            tell_unwritten(rt.alloc(), line, name.as_str(), why_of_file(fault), errors);
            1
        }
    }
}

// The fault of events whose file isn't written.
fn fault_of_file(fault: OutFault) -> EventsFault
    ensures { result ≡ spec.fault_of_file fault }
{
    match fault {
        OutFault::Open(Why::Memory) => EventsFault::Memory,
        OutFault::Open(_) => EventsFault::Open,
        OutFault::Write(_) => EventsFault::Write,
    }
}

// Why a file isn't written.
pub(crate) fn why_of_file(fault: OutFault) -> Why
    ensures { result ≡ spec.why_of_file fault }
{
    match fault {
        OutFault::Open(why) | OutFault::Write(why) => why,
    }
}
