//! Reasons, as lines.
ghost use Rattle.std.specs.Prelude.{◌≡◌, IfOk, string_bytes};
ghost use Rattle.abt_audit.specs.Why as spec;

use crate::stuck::name_of;
use crate::why::Why;
use abt_journal_text::Spot;
use std::alloc::{AllocError, Global};

// The line from which on something is so, if there is one.
fn since_text(alloc: Global, names: &[String], spot: Option<Spot>) -> Result<String, AllocError>
    ensures { IfOk result (λ text. string_bytes text ≡ spec.since_text names.now spot) }
{
    let Some(spot) = spot else {
        return Ok(String::new(alloc));
    };
    let name = name_of(names, spot.text);
    let line = spot.line;
    format!(in alloc; " since {name}:{line}")
}

#[tactic(auto, using(crate::proofs::Whys::why_of_some))]
// The line of a reason; none if there is no reason.
pub(crate) fn why_line(alloc: Global, reason: &str, since: &str) -> Result<Vec<u8>, AllocError>
    ensures { IfOk result (λ line. line.items ≡ spec.why_line reason.now since.now) }
{
    let mut line = Vec::new(alloc);
    if reason.is_empty() {
        return Ok(line);
    }
    line.extend_from_slice(b"why")?;
    line.extend_from_slice(reason.as_bytes())?;
    line.extend_from_slice(since.as_bytes())?;
    line.push(b'\n')?;
    Ok(line)
}

// The line of why the protocol answers as it does.
pub(crate) fn why_text(alloc: Global, names: &[String], why: &Why) -> Result<Vec<u8>, AllocError>
    ensures { IfOk result (λ line. line.items ≡ spec.why_text names.now why.now) }
{
    let since = since_text(alloc, names, why.since)?;
    why_line(alloc, why.reason.as_str(), since.as_str())
}
