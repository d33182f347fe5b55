//! Objects of a kind, on lines of their own.
ghost use Rattle.std.specs.Prelude.{◌≡◌, ◌∷◌, ◌++◌, [], IfOk, OnOk, codes, string_bytes};
ghost use Rattle.json.specs.Print.{print};
ghost use Rattle.json.specs.Token.{end_object};
ghost use Rattle.abt_entry.specs.ObjectMembers.{Holds, text_member};
ghost use Rattle.abt_text.specs.Text.{◌⋅◌, newline};

use abt_entry::{begin, push_text};
use json::Writer;
use std::alloc::{AllocError, Global};

/// Begins an object of a kind, which is its first member.
///
/// # Errors
/// If memory is refused.
pub fn begin_kind(alloc: Global, kind: &str) -> Result<Writer, AllocError>
    ensures { IfOk result (λ object. Holds [] (text_member (codes "kind") kind.now) object) }
{
    let mut object = Writer::new(Vec::new(alloc));
    object.begin_object()?;
    push_text(&mut object, "kind", kind)?;
    Ok(object)
}

/// Begins an object of a kind behind the octets of a text, which it takes until the object ends.
pub(crate) fn begin_kind_behind(
    alloc: Global,
    text: &mut Vec<u8>,
    kind: &str,
) -> Result<Writer, AllocError>
    ensures { IfOk result (Holds text.old.items (text_member (codes "kind") kind.now)) }
{
    let mut writer = begin(alloc, text)?;
    push_text(&mut writer, "kind", kind)?;
    Ok(writer)
}

/// Ends an object, and adds its line to a text.
///
/// # Errors
/// If memory is refused.
pub fn end_line(object: Writer, text: &mut String) -> Result<(), AllocError>
    requires { object.before ≡ [] }
    ensures { OnOk result (string_bytes text.new
        ≡ string_bytes text.old ⋅ (print (object.tokens ++ end_object ∷ []) ⋅ newline)) }
{
    let mut object = object;
    object.end_object()?;
    let octets = object.into_inner();
    match std::str::from_utf8(octets.as_slice()) {
        Ok(line) => {
            text.push_str(line)?;
            text.push_str("\n")
        }
        // What the writer makes is text.
        Err(_) => unreachable!(),
    }
}
