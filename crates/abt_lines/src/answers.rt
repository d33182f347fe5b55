//! Answers on their way out.
ghost use Rattle.std.specs.Prelude.{◌≡◌, OnOk, OnErr, string_bytes};
ghost use Rattle.abt_text.specs.Text.{◌⋅◌};

use std::alloc::{AllocError, Global};

// The answers that were made and have still to go out, and room in which the next one is made.
#[derive(Drop)]
pub(crate) struct Answers {
    pub(crate) made: String,
    pub(crate) next: String,
}

impl Answers {
    // Without answers.
    pub(crate) fn new(alloc: Global) -> Answers {
        Answers {
            made: String::new(alloc),
            next: String::new(alloc),
        }
    }

    // Adds the next one to those that were made.
    pub(crate) fn add_next(&mut self) -> Result<(), AllocError>
        ensures ok { OnOk result
            (string_bytes self.new.made ≡ string_bytes self.old.made ⋅ string_bytes self.old.next) }
        ensures err { OnErr result (string_bytes self.new.made ≡ string_bytes self.old.made) }
    {
        self.made.push_str(self.next.as_str())
    }
}
