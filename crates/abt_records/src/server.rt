//! Servers of records.
ghost use Rattle.std.specs.Prelude.{◌≡◌, [], Option, OnOk};
ghost use Rattle.std.specs.Option.{option_map};
ghost use Rattle.abt_text.specs.Text.{Text};

use std::alloc::{AllocError, Global};

/// A server of lines and cells, one after the other. Contracts see it as the steps that it may take, so an answer may depend on all records
/// before.
pub trait RecordServer {
    // It may answer this record so, and is then that. A line that is too long isn't seen.
    ghost steps: { (old : Self) → Option Text → (said : Text) → (new : Self) → Type 0 };

    /// Puts the answer to the next record, which is a line that is too long if there is `None`, where no octets are. Where memory is refused,
    /// what is there then isn't said.
    fn answer(
        &mut self,
        alloc: Global,
        seen: Option<&[u8]>,
        said: &mut Vec<u8>,
    ) -> Result<(), AllocError>
        requires { said.old.items ≡ [] }
        ensures { OnOk result (steps self.old (option_map (λ octets. octets.now) seen.entry)
            said.new.items self.new) };
}
