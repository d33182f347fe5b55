//! Whole texts to outputs.
ghost use Rattle.std.specs.Prelude.{◌≡◌, ◌≢◌, IfOk, IfSome, IsSome, OnOk};
ghost use Rattle.std.specs.Io.KnownBytes.{Appends, Keeps};
ghost use Rattle.abt_files.specs.Calls.{IsBegun, IsWritten};
ghost use Rattle.abt_files.specs.Names.{standard};

use crate::names::is_standard;
use crate::opening::create_output;
use crate::output::{Kept, Output, Unkept};
use crate::why::{OutFault, Why};
use abt_text::put;
use std::alloc::AllocGlobal;
use std::fs::OpenFile;
use std::io::Write;
use std::rt::Files;

/// Writes a whole text to the output of a name, or to the standard output if the name is `-`.
///
/// # Errors
/// If not all of it was written. Then a file of the name is as it was.
pub fn write_output<T: Files + AllocGlobal, W: Write>(
    rt: &T,
    name: &str,
    here: &mut W,
    text: &[u8],
) -> Result<Option<Kept>, OutFault>
    ensures here { name.now ≡ standard →
        OnOk result (Appends (W.contents here.old) (W.contents here.new) text.now) }
    ensures elsewhere { name.now ≢ standard → Keeps (W.contents here.old) (W.contents here.new) }
    ensures some { name.now ≢ standard → IfOk result IsSome }
    ensures written { IfOk result (λ kept. IfSome kept (λ kept. IsWritten text.now kept.log.calls)) }
{
    if is_standard(name) {
        return match put(here, text) {
            Ok(()) => Ok(None),
            Err(_) => Err(OutFault::Write(Why::Other)),
        };
    }
    match create_output(rt, name) {
        Ok(output) => Ok(Some(fill(rt, output, text)?)),
        Err(why) => Err(OutFault::Open(why)),
    }
}

// Writes a whole text to an output to which nothing went out, and ends it.
fn fill<T: Files<File = F>, F: Write + OpenFile + Drop>(
    rt: &T,
    mut output: Output<F>,
    text: &[u8],
) -> Result<Kept, OutFault>
    requires { IsBegun output.log.calls }
    ensures { IfOk result (λ kept. IsWritten text.now kept.log.calls) }
{
    if put(&mut output, text).is_err() {
        let why = output.fault().unwrap_or(Why::Other);
        let _ = output.discard(rt);
        return Err(OutFault::Write(why));
    }
    match output.keep(rt) {
        Ok(kept) => Ok(kept),
        Err(Unkept { why, log: _ }) => Err(OutFault::Write(why)),
    }
}
