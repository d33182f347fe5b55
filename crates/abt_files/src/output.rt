//! Outputs of a name, which are written whole or not at all.
ghost use Rattle.std.specs.IoError.{error_kind};
ghost use Rattle.std.specs.Prelude.{◌≡◌, ◌≢◌, ◌++◌, ◌∷◌, Some, true, false, is_some, IfOk, IfErr, OnOk, OnErr};
ghost use Rattle.std.specs.Io.{WritesAtMost};
ghost use Rattle.std.specs.Io.KnownBytes.{WriteAppends, Appends, Keeps};
ghost use Rattle.abt_files.specs.Calls.{octets_of, has_failed, is_made, IsBegun, IsKept, IsGone, IsRemoved};
ghost use Rattle.abt_files.specs.declared.calls.OutCall.TheVariants.{Failed, Named, Synced};

use crate::beside::{Beside, sync_file};
use crate::calls::{CallLog, OutCall};
use crate::why::{Why, why_of};
use std::fs::OpenFile;
use std::io::{ErrorKind, Result, Write};
use std::rt::Files;

/// An output of a name. It isn't `Drop`: it ends by [`Output::keep`] or [`Output::discard`], and code that forgets it doesn't compile.
pub struct Output<F> {
    file: F,
    // The file to be named, unless OUT itself is written.
    beside: Option<Beside>,
    // Why the first write failed that did.
    fault: Option<Why>,
    log: CallLog,
    ghost noted: { is_some fault ≡ has_failed log.calls },
    ghost made: { is_some beside ≡ is_made log.calls },
}

/// An output that is kept.
#[derive(Drop)]
pub struct Kept {
    pub log: CallLog,
}

/// An output that couldn't be kept, and is gone.
#[derive(Drop)]
pub struct Unkept {
    pub why: Why,
    pub log: CallLog,
}

/// An output that is gone.
#[derive(Drop)]
pub struct Gone {
    pub log: CallLog,
}

impl<F> Output<F> {
    // Of a file that was made beside the one of its name.
    pub(crate) fn beside(beside: Beside, file: F) -> Output<F>
        ensures { IsBegun result.log.calls }
    {
        let mut log = CallLog::new();
        log.note(&OutCall::Made);
        Output {
            file,
            beside: Some(beside),
            fault: None,
            log,
        }
    }

    // Of OUT itself.
    pub(crate) fn straight(file: F) -> Output<F>
        ensures { IsBegun result.log.calls }
    {
        let mut log = CallLog::new();
        log.note(&OutCall::Opened);
        Output {
            file,
            beside: None,
            fault: None,
            log,
        }
    }

    /// Why the first write failed that did.
    pub fn fault(&self) -> Option<Why>
        ensures { is_some result ≡ has_failed self.now.log.calls }
    {
        let Output { fault, .. } = self;
        *fault
    }
}

impl<F: Write> Write for Output<F> {
    ghost contents = { λ output. Some (octets_of output.log.calls) };

    fn write(&mut self, octets: &[u8]) -> Result<usize>
        ensures bound { WritesAtMost result octets.now }
        ensures bytes { WriteAppends (Some (octets_of self.old.log.calls)) (Some (octets_of self.new.log.calls)) result octets.now }
        ensures failed { IfErr result (λ error. error_kind error ≢ ErrorKind.Interrupted → has_failed self.new.log.calls ≡ true) }
    {
        match self.file.write(octets) {
            Ok(count) => {
                self.log.note_octets(&octets[..count]);
                Ok(count)
            }
            Err(error) => {
                if error.kind() != ErrorKind::Interrupted {
                    self.note_fault(why_of(error.kind()));
                }
                Err(error)
            }
        }
    }

    fn flush(&mut self) -> Result<()> {
        self.file.flush()
    }
}

impl<F> Output<F> {
    fn note_fault(&mut self, why: Why)
        ensures { self.new.log.calls ≡ Failed ∷ self.old.log.calls }
    {
        if self.fault.is_none() {
            self.fault = Some(why);
        }
        self.log.note(&OutCall::Failed);
    }
}

impl<F: OpenFile + Drop> Output<F> {
    /// Has what was written stand under OUT's name. With a fault it is removed, and OUT is as it was, unless it is a device, a pipe or a file
    /// that a process holds.
    ///
    /// # Errors
    /// Why a write failed, or the system doesn't put the file on the device or name it.
    pub fn keep<T: Files<File = F>>(self, rt: &T) -> std::result::Result<Kept, Unkept>
        ensures ok { IfOk result (λ kept. IsKept self.log.calls kept.log.calls) }
        ensures octets { IfOk result (λ kept. octets_of kept.log.calls ≡ octets_of self.log.calls) }
        ensures err { IfErr result (λ unkept. IsGone self.log.calls unkept.log.calls) }
    {
        let Output {
            file,
            beside,
            fault,
            mut log,
        } = self;
        if let Some(why) = fault {
            remove_it(rt, beside, &mut log);
            return Err(Unkept { why, log });
        }
        let Some(beside) = beside else {
            return Ok(Kept { log });
        };
        match finish(rt, file, beside, &mut log) {
            Ok(()) => Ok(Kept { log }),
            Err(why) => Err(Unkept { why, log }),
        }
    }

    /// Has what was written removed, and OUT as it was, unless it is a device, a pipe or a file that a process holds.
    pub fn discard<T: Files<File = F>>(self, rt: &T) -> Gone
        ensures { IsGone self.log.calls result.log.calls }
    {
        let Output {
            file: _,
            beside,
            fault: _,
            mut log,
        } = self;
        remove_it(rt, beside, &mut log);
        Gone { log }
    }
}

// Has a file on the device, and names it. If that can't be, it is removed.
fn finish<T: Files<File = F>, F: OpenFile + Drop>(
    rt: &T,
    file: F,
    beside: Beside,
    log: &mut CallLog,
) -> std::result::Result<(), Why>
    ensures ok { OnOk result (log.new.calls ≡ Named ∷ Synced ∷ log.old.calls) }
    ensures err { OnErr result (IsRemoved log.old.calls log.new.calls) }
{
    if let Err(why) = sync_file(&file, log) {
        beside.remove(rt, log);
        return Err(why);
    }
    match beside.name_it(rt, log) {
        Ok(()) => Ok(()),
        Err((beside, why)) => {
            beside.remove(rt, log);
            Err(why)
        }
    }
}

// Removes a file that was made, if one was.
fn remove_it<T: Files>(rt: &T, beside: Option<Beside>, log: &mut CallLog)
    ensures made { is_some beside ≡ true → IsRemoved log.old.calls log.new.calls }
    ensures none { is_some beside ≡ false → log.new.calls ≡ log.old.calls }
{
    match beside {
        Some(beside) => beside.remove(rt, log),
        None => {}
    }
}
