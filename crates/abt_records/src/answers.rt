//! Answers on their way out.
ghost use Rattle.std.specs.Prelude.{◌≡◌, OnOk, OnErr};
ghost use Rattle.abt_text.specs.Text.{◌⋅◌};

use std::alloc::{AllocError, Global};

// The answers that were made and have still to go out, and room in which the next one is made.
#[derive(Drop)]
pub(crate) struct Answers {
    pub(crate) made: Vec<u8>,
    pub(crate) next: Vec<u8>,
}

impl Answers {
    // Without answers.
    pub(crate) fn new(alloc: Global) -> Answers {
        Answers {
            made: Vec::new(alloc),
            next: Vec::new(alloc),
        }
    }

    // Adds the next one to those that were made.
    pub(crate) fn add_next(&mut self) -> Result<(), AllocError>
        ensures ok { OnOk result (self.new.made.items ≡ self.old.made.items ⋅ self.old.next.items) }
        ensures err { OnErr result (self.new.made.items ≡ self.old.made.items) }
    {
        self.made.extend_from_slice(self.next.as_slice())
    }
}
