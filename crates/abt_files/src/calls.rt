//! The calls of a file that is written, which only clauses read.
ghost use Rattle.std.specs.Prelude.{◌≡◌, ◌++◌, List, [], ◌∷◌};
ghost use Rattle.abt_files.specs.declared.calls.OutCall.{OutCall};
ghost use Rattle.std.specs.Borrow.{ftrue};

use std::marker::{Model, PhantomData};

/// A call of the system for a file that is written, with what came of it.
#[derive(Clone, Copy, Debug, PartialEq, Eq)]
pub enum OutCall {
    /// A file was made beside OUT, under a name that nothing had.
    Made,
    /// OUT itself was opened, which is no regular file.
    Opened,
    /// An octet was written.
    Wrote { octet: u8 },
    /// A call failed.
    Failed,
    /// All that was written is on the device.
    Synced,
    /// The file that was made has OUT's name.
    Named,
    /// The file that was made is gone.
    Removed,
    /// It couldn't be removed.
    Left,
}

/// All calls of a file so far, the newest first. It has no octets: only clauses read it.
#[derive(Drop)]
pub struct CallLog {
    marker: PhantomData<u8>,
    pub ghost calls: { List OutCall },
}

impl Model for CallLog {
    ghost also_owns = { λ _. ftrue };
}

impl CallLog {
    // The log of a file of which nothing was asked.
    pub(crate) fn new() -> CallLog
        ensures { result.calls ≡ [] }
    {
        CallLog {
            marker: PhantomData,
        }
    }

    // Notes a call.
    pub(crate) fn note(&mut self, _call: &OutCall)
        ensures { self.new.calls ≡ _call.now ∷ self.old.calls }
    {}
}

impl CallLog {
    ghost use Rattle.abt_files.specs.Calls as spec;

    #[tactic(auto, using(crate::proofs::Wrote::wrote_more, crate::proofs::Wrote::octets_of_wrote, crate::proofs::Wrote::has_failed_wrote, crate::proofs::Wrote::is_made_wrote))]
    // Notes octets that went out.
    pub(crate) fn note_octets(&mut self, octets: &[u8])
        ensures calls { self.new.calls ≡ spec.wrote self.old.calls octets.now }
        ensures octets { spec.octets_of self.new.calls ≡ spec.octets_of self.old.calls ++ octets.now }
        ensures same { (spec.has_failed self.new.calls ≡ spec.has_failed self.old.calls)
            × (spec.is_made self.new.calls ≡ spec.is_made self.old.calls) }
    {
        for octet in octets {
            self.note(&OutCall::Wrote { octet: *octet });
        }
    }
}
