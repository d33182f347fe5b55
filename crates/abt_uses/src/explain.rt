//! A scenario, explained from any reader to any writer.
ghost use Rattle.std.specs.Prelude.{◌≡◌, true, IfOk, string_bytes};
ghost use Rattle.abt_explain.specs.Explained.{IsExplained};
ghost use Rattle.abt_explain.specs.Told.{IsTold};

use abt_explain::{explain_text, told_text};
use abt_model::Event;
use abt_net::Net;
use std::alloc::{AllocError, Global};
use std::io::{Read, Write};

/// Explains the scenario that a reader has left, and says whether the whole explanation went out.
pub fn is_explained<R: Read, W: Write>(alloc: Global, reader: &mut R, writer: &mut W) -> bool
    ensures { result ≡ true → IsExplained (R.remaining reader.old) (W.contents writer.old)
        (W.contents writer.new) }
{
    let explained = explain_text(alloc, reader, writer);
    explained.is_ok()
}

/// What is told of woven events: how many, each with its reason, and who was granted what.
pub fn woven_told(alloc: Global, net: &Net, events: &[Event]) -> Result<String, AllocError>
    ensures { IfOk result (λ text. IsTold net.now events.now (string_bytes text)) }
{
    told_text(alloc, net, events)
}
