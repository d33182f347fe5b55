//! Servers of lines.
ghost use Rattle.std.specs.Prelude.{◌≡◌, ℕ, [], Option, OnOk, string_bytes};
ghost use Rattle.std.specs.Option.{option_map};
ghost use Rattle.abt_text.specs.Text.{Text};

use std::alloc::{AllocError, Global};

/// A server of lines, one after the other. Contracts see it as the steps that it may take, so an answer may depend on all lines before.
pub trait LineServer {
    // It may answer the line of this number so, and is then that. A line that is too long isn't seen.
    ghost steps: { (old : Self) → ℕ → Option Text → (said : Text) → (new : Self) → Type 0 };

    // What it may say behind the last line, if the next one would have this number.
    ghost ends: { Self → ℕ → (said : Text) → Type 0 };

    /// Puts the answer to the next line, which has this number, or is too long if there is `None`, into an empty text. Where memory is
    /// refused, what the text then has isn't said.
    fn answer(
        &mut self,
        alloc: Global,
        number: u64,
        line: Option<&[u8]>,
        text: &mut String,
    ) -> Result<(), AllocError>
        requires { string_bytes text.old ≡ [] }
        ensures { OnOk result (steps self.old number (option_map (λ line. line.now) line.entry)
            (string_bytes text.new) self.new) };

    /// Puts what is said behind the last line into an empty text, if the next one would have this number.
    fn end(&self, alloc: Global, number: u64, text: &mut String) -> Result<(), AllocError>
        requires { string_bytes text.old ≡ [] }
        ensures { OnOk result (ends self.now number (string_bytes text.new)) };
}
