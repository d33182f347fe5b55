//! What a plan prints.
ghost use Rattle.std.specs.Prelude.{◌≡◌, ◌⊎◌, true, false, IfOk, IfErr, OnOk, string_bytes};
ghost use Rattle.std.specs.Io.KnownBytes.{Keeps};
ghost use Rattle.abt_codes.specs.Printed.{EndsBy, IsPrinted, IsRefused, Refuses, Says};
ghost use Rattle.abt_codes.specs.declared.fault.CodesFault.TheVariants.{Memory};

use crate::fault::CodesFault;
use crate::objects::{code_objects, written_object};
use crate::plan::CodesPlan;
use crate::text::code_text;
use crate::written::write_text;
use abt_perform::tell_text;
use abt_text::put;
use std::alloc::Global;
use std::io::Write;

/// Prints what a plan asks for, in words or as JSON, and gives the exit status: 0 if all of it went out to `writer`, and 1 if a line on `errors` tells why
/// not. A line that can't be written there changes no status.
pub fn perform_codes<W: Write, E: Write>(
    alloc: Global,
    plan: &CodesPlan,
    json: bool,
    writer: &mut W,
    errors: &mut E,
) -> u8
    ensures status { (result ≡ 0) ⊎ (result ≡ 1) }
    ensures ok { result ≡ 0 → IsPrinted json plan.now (W.contents writer.old) (W.contents writer.new) }
    ensures quiet { result ≡ 0 → Keeps (E.contents errors.old) (E.contents errors.new) }
    ensures err { result ≡ 1 → IsRefused json plan.now (W.contents writer.old) (W.contents writer.new)
        (E.contents errors.old) (E.contents errors.new) }
{
    match print(alloc, plan, json, writer) {
        Ok(()) => 0,
        Err(fault) => {
            tell_text(errors, fault.line());
            1
        }
    }
}

// Writes what a plan prints.
fn print<W: Write>(
    alloc: Global,
    plan: &CodesPlan,
    json: bool,
    writer: &mut W,
) -> Result<(), CodesFault>
    ensures ok { OnOk result (IsPrinted json plan.now (W.contents writer.old) (W.contents writer.new)) }
    ensures err { IfErr result
        (λ fault. EndsBy fault json plan.now (W.contents writer.old) (W.contents writer.new)) }
{
    let text = said(alloc, plan, json)?;
    put(writer, text.as_bytes()).map_err(|_| CodesFault::Write)
}

// What a plan prints.
fn said(alloc: Global, plan: &CodesPlan, json: bool) -> Result<String, CodesFault>
    ensures ok { IfOk result (λ text. Says json plan.now (string_bytes text)) }
    ensures err { IfErr result (λ fault. (fault ≡ Memory) ⊎ Refuses plan.now fault) }
{
    if json {
        objects_of(alloc, plan)
    } else {
        text_of(alloc, plan)
    }
}

fn objects_of(alloc: Global, plan: &CodesPlan) -> Result<String, CodesFault>
    ensures ok { IfOk result (λ text. Says true plan.now (string_bytes text)) }
    ensures err { IfErr result (λ fault. (fault ≡ Memory) ⊎ Refuses plan.now fault) }
{
    match plan {
        CodesPlan::Code(word) => code_objects(alloc, word.as_str()),
        CodesPlan::Write(words) => written_object(alloc, words),
    }
}

fn text_of(alloc: Global, plan: &CodesPlan) -> Result<String, CodesFault>
    ensures ok { IfOk result (λ text. Says false plan.now (string_bytes text)) }
    ensures err { IfErr result (λ fault. (fault ≡ Memory) ⊎ Refuses plan.now fault) }
{
    match plan {
        CodesPlan::Code(word) => code_text(alloc, word.as_str()),
        CodesPlan::Write(words) => write_text(alloc, words),
    }
}
