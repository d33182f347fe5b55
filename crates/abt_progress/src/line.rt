//! The line that is drawn.
ghost use Rattle.std.specs.Prelude.{◌≡◌, IfOk, string_bytes};
ghost use Rattle.abt_progress.specs.Line.{line_text};
ghost use Rattle.abt_progress.specs.Line as spec;

use itoa::Buffer;
use std::alloc::{AllocError, Global};

// The octets that take the line away: back to its first column, and all behind it.
pub(crate) const CLEAR: &str = "\r\x1b[K";

// The line, drawn over the one that is there. In between the terminal wraps no line, so that it stays one if a window is narrow.
pub(crate) fn line_text(alloc: Global, octets: u64, ended: bool) -> Result<String, AllocError>
    ensures { IfOk result (λ text. string_bytes text ≡ line_text octets ended) }
{
    let mut digits = Buffer::new();
    let mut text = String::new(alloc);
    text.push_str("\r\x1b[?7labt: ")?;
    text.push_str(digits.format(octets))?;
    text.push_str(said(ended))?;
    text.push_str("\x1b[K\x1b[?7h")?;
    Ok(text)
}

// What is said of the octets.
fn said(ended: bool) -> &'static str
    ensures { result.now ≡ spec.said ended }
{
    if ended {
        " octets read, at work"
    } else {
        " octets read"
    }
}
