//! The line that has begun.
ghost use Rattle.std.specs.Prelude.{◌≡◌, ◌≢◌, ◌≤◌, ◌+◌, ◌⊎◌, [], ◌∷◌, ◌++◌, length, vec_len, OnOk, IfErr};
ghost use Rattle.abt_text.specs.Text.{line_feed};
ghost use Rattle.abt_text.specs.Words.{Lacks};
ghost use Rattle.abt_journal_text.specs.Entering.{IsOwn};
ghost use Rattle.abt_journal_text.specs.Texts.{below, line_max, top};
ghost use Rattle.abt_journal_text.specs.declared.fault.Cause.TheVariants as cause;

use crate::fault::Cause;
use crate::spot::Spot;
use std::alloc::Global;

/// The octets of a line at most, without its line feed.
pub const LINE_MAX: usize = 16777215;

// The octets of the next line that have come.
#[derive(Drop)]
pub(crate) struct Begun {
    pub(crate) octets: Vec<u8>,
    pub(crate) spot: Spot,
    ghost whole: { Lacks line_feed octets.items },
    ghost within: { vec_len octets ≤ line_max },
}

impl Begun {
    // Before the first line of a text.
    pub(crate) fn new(alloc: Global, text: u64) -> Begun
        ensures octets { result.octets.items ≡ [] }
        ensures spot { result.spot ≡ top text }
    {
        Begun {
            octets: Vec::new(alloc),
            spot: Spot { text, line: 1 },
        }
    }

    // Adds an octet of the line.
    pub(crate) fn add(&mut self, octet: u8) -> Result<(), Cause>
        requires { octet ≢ line_feed }
        ensures ok { OnOk result (self.new.octets.items ≡ self.old.octets.items ++ octet ∷ []) }
        ensures spot { self.new.spot ≡ self.old.spot }
        ensures err { IfErr result
            (λ why. (why ≡ cause.Memory) ⊎
            ((why ≡ cause.TooLong) × (length self.old.octets.items ≡ line_max))) }
    {
        if self.octets.len() == LINE_MAX {
            return Err(Cause::TooLong);
        }
        Ok(self.octets.push(octet)?)
    }

    // Begins the next line.
    pub(crate) fn next(&mut self) -> Result<(), Cause>
        ensures octets { OnOk result (self.new.octets.items ≡ []) }
        ensures spot { OnOk result (self.new.spot ≡ below self.old.spot 1) }
        ensures err { IfErr result IsOwn }
    {
        let Some(line) = self.spot.line.checked_add(1) else {
            return Err(Cause::Endless);
        };
        self.octets.clear();
        self.spot.line = line;
        Ok(())
    }
}
