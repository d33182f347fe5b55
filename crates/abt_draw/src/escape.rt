//! Texts within elements and within the values of attributes.
ghost use Rattle.std.specs.Prelude.{◌≡◌, ◌++◌, ◌∷◌, ◌<◌, IfOk, IfSome, IsNone, IsTrue, string_bytes};
ghost use Rattle.abt_draw.specs.Escapes.{IsPlain};
ghost use Rattle.abt_draw.specs.Escapes as spec;

use std::alloc::{AllocError, Global};

/// A text as it stands within an element or within the value of an attribute. A control octet but the line feed is a space there, since
/// XML has none.
///
/// # Errors
/// If memory is refused.
pub fn escaped(alloc: Global, text: &str) -> Result<String, AllocError>
    ensures value { IfOk result (λ out. string_bytes out ≡ spec.escaped text.entry.now) }
{
    let mut out = String::new(alloc);
    let mut rest = text;
    while let Some((before, octet, behind)) = cut_of(rest) {
        out.push_str(before)?;
        out.push_str(entity_of(octet))?;
        rest = behind;
    }
    out.push_str(rest)?;
    Ok(out)
}

// The text before its first octet that can't stand as it is, that octet, and the text behind it.
fn cut_of(text: &str) -> Option<(&str, u8, &str)>
    ensures some { IfSome result
        (λ cut. (text.now ≡ cut.0.now ++ (cut.1 ∷ cut.2.now)) × IsPlain cut.0.now ×
        IsTrue (spec.is_special cut.1)) }
    ensures none { IsNone result → IsPlain text.now }
{
    for (place, octet) in text.as_bytes().iter().enumerate() {
        if is_special(*octet) {
            return Some((&text[..place], *octet, &text[place + 1..]));
        }
    }
    None
}

fn is_special(octet: u8) -> bool
    ensures value { result ≡ spec.is_special octet }
    ensures ascii { IsTrue result → octet < 128 }
{
    match octet {
        b'&' | b'<' | b'>' | b'"' | b'\'' => true,
        b'\n' => false,
        _ => octet < 32,
    }
}

// What stands for an octet that can't stand as it is.
fn entity_of(octet: u8) -> &'static str
    ensures { result.now ≡ spec.entity octet }
{
    match octet {
        b'&' => "&amp;",
        b'<' => "&lt;",
        b'>' => "&gt;",
        b'"' => "&quot;",
        b'\'' => "&#39;",
        _ => " ",
    }
}
