//! Texts as they are shown.
ghost use Rattle.std.specs.Prelude.{◌≡◌, IfOk, string_bytes};
ghost use Rattle.abt_files.specs.Shown as spec;

use std::alloc::{AllocError, Global};

/// A text as a terminal shows it on one line: each character that would move what stands beside it, or that isn't seen, is a `?`
/// (docs/FORMATS.md, "Files").
///
/// # Errors
/// If memory is refused.
pub fn shown(alloc: Global, text: &str) -> Result<String, AllocError>
    ensures { IfOk result (λ out. string_bytes out ≡ spec.shown text.now) }
{
    text.chars()
        .map(|letter| shown_letter(letter))
        .collect(alloc)
}

/// What stands for a character where a text is shown: itself, or `?`.
pub fn shown_letter(letter: char) -> char
    ensures { result ≡ spec.shown_letter letter }
{
    if letter.is_control() || is_unseen(letter as u32) || is_no_character(letter as u32) {
        '?'
    } else {
        letter
    }
}

// Whether a character has no width, or changes the direction or the place of what stands beside it.
fn is_unseen(code: u32) -> bool
    ensures { result ≡ spec.is_unseen code }
{
    match code {
        0xAD | 0x61C | 0x180E | 0xFEFF => true,
        0x200B..=0x200F | 0x2028..=0x202E | 0x2060..=0x206F | 0xFFF9..=0xFFFB => true,
        0xE0000..=0xE0FFF => true,
        _ => false,
    }
}

// Whether a code is never one of a character.
fn is_no_character(code: u32) -> bool
    ensures { result ≡ spec.is_no_character code }
{
    match code {
        0xFDD0..=0xFDEF => true,
        _ => matches!(code % 65536, 0xFFFE | 0xFFFF),
    }
}
