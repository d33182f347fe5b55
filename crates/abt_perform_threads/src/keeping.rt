//! A run whose journals are kept: written as a text, whether they are woven or not.
ghost use Rattle.std.specs.Prelude.{◌≡◌, ◌⊎◌, length, IfErr, OnOk};
ghost use Rattle.std.specs.Io.KnownBytes.{Keeps};
ghost use Rattle.abt_journal_text.specs.Lines.{Writes};
ghost use Rattle.abt_perform.specs.Plans.{Tells};
ghost use Rattle.abt_perform_threads.specs.Kept.{EndsKeepingBy, IsKept, IsTold, IsUnkept, lines_left, unwritten_line};
ghost use Rattle.abt_perform_threads.specs.Kept as spec;

use crate::faults::{fault_of_run, fault_of_show};
use crate::judging::Judged;
use crate::ran::{Ran, Unrun};
use crate::showing::{ShowFault, Shown, show_run};
use abt_journal_text::{WriteFault, write_journals};
use abt_links::OpenGate;
use abt_perform::{Fault, tell_fault, tell_text};
use std::alloc::Global;
use std::io::Write;
use std::sync::Wait;
use std::thread::Threads;

/// A run in threads whose journals are to be written.
#[derive(Drop)]
pub struct KeepPlan {
    /// The file of the scenario, or `None` for the standard input.
    pub file: Option<String>,
    /// How many link workers there are.
    pub workers: u16,
    /// The file for the text of the journals.
    pub journals: String,
}

/// Why a run isn't both shown and kept.
#[derive(Clone, Copy, Debug, PartialEq, Eq)]
pub enum KeepFault {
    /// There is no run.
    Unrun(Fault),
    /// Not all lines of the run went out. The text of its journals is written whole.
    Unshown(Fault),
    /// All lines went out, and the text of the journals isn't written whole.
    Unwritten(WriteFault),
    /// Not all lines went out, and the text isn't written whole.
    Neither(Fault, WriteFault),
}

/// The line of a text of journals that can't be written.
const JOURNALS_LINE: &str = "fault: journals\n";

/// Runs a scenario's scripts in threads, shows the run line by line to `writer`, and writes the text of its net and of its journals to
/// `journals`, also of a run that isn't shown whole: if memory is refused, or a line can't be written. Gives the exit status: 0 if all
/// lines and the whole text went out, and 1 if lines on `errors` tell why not, first of the run and then of its journals. A line that
/// can't be written there changes no status.
pub fn keep_run<T: Threads + Wait + Sync, W: Write, J: Write, E: Write>(
    rt: &T,
    alloc: Global,
    workers: u16,
    unrun: Unrun,
    writer: &mut W,
    journals: &mut J,
    errors: &mut E,
) -> u8
    ensures status { (result ≡ 0) ⊎ (result ≡ 1) }
    ensures ok { result ≡ 0 → IsKept workers unrun (W.contents writer.old) (W.contents writer.new)
        (J.contents journals.old) (J.contents journals.new) }
    ensures quiet { result ≡ 0 → Keeps (E.contents errors.old) (E.contents errors.new) }
    ensures err { result ≡ 1 → IsUnkept workers unrun (W.contents writer.old) (W.contents writer.new)
        (J.contents journals.old) (J.contents journals.new) (E.contents errors.old) (E.contents errors.new) }
{
    match keep_all(rt, alloc, workers, unrun, writer, journals) {
        Ok(()) => 0,
        Err(fault) => {
            tell_unkept(fault, errors);
            1
        }
    }
}

/// The same as [`keep_run`], which tells nothing.
///
/// # Errors
/// Why the run isn't both shown and kept. The text of the journals is whole also at [`KeepFault::Unshown`].
pub fn keep_all<T: Threads + Wait + Sync, W: Write, J: Write>(
    rt: &T,
    alloc: Global,
    workers: u16,
    unrun: Unrun,
    writer: &mut W,
    journals: &mut J,
) -> Result<(), KeepFault>
    ensures ok { OnOk result (IsKept workers unrun (W.contents writer.old) (W.contents writer.new)
        (J.contents journals.old) (J.contents journals.new)) }
    ensures err { IfErr result
        (λ fault. EndsKeepingBy workers unrun fault (W.contents writer.old) (W.contents writer.new)
        (J.contents journals.old) (J.contents journals.new)) }
{
    let shown = match show_run(rt, alloc, workers, unrun, &OpenGate, writer) {
        Ok(shown) => shown,
        Err(fault) => return Err(KeepFault::Unrun(fault_of_run(fault))),
    };
    let Shown { ran, judged } = shown;
    let written = keep(alloc, &ran, journals);
    end_of(&judged, written)
}

// How a run ends, by what became of showing it and of writing its journals.
fn end_of(
    judged: &Result<Judged, ShowFault>,
    written: Result<(), WriteFault>,
) -> Result<(), KeepFault>
    ensures { result ≡ spec.end_of judged.now written }
{
    match (judged, written) {
        (Ok(_), Ok(())) => Ok(()),
        (Ok(_), Err(why)) => Err(KeepFault::Unwritten(why)),
        (Err(fault), Ok(())) => Err(KeepFault::Unshown(fault_of_show(fault))),
        (Err(fault), Err(why)) => Err(KeepFault::Neither(fault_of_show(fault), why)),
    }
}

// Writes the journals that a run left.
fn keep<J: Write>(alloc: Global, ran: &Ran, journals: &mut J) -> Result<(), WriteFault>
    requires ports { length ran.now.gathered.journals ≡ length ran.now.net.capacities }
    requires sources { length ran.now.gathered.sources.items ≡ length ran.now.net.conns }
    ensures { Writes result (lines_left ran.now) (J.contents journals.old) (J.contents journals.new) }
{
    let Ran { net, gathered } = ran;
    write_journals(
        alloc,
        net,
        &gathered.journals,
        gathered.sources.as_slice(),
        journals,
    )
}

/// Tells why a run isn't both shown and kept, as far as the writer takes it: a line of the run, one of its journals, or both.
pub fn tell_unkept<E: Write>(fault: KeepFault, errors: &mut E)
    ensures { IsTold fault (E.contents errors.old) (E.contents errors.new) }
{
    match fault {
        KeepFault::Unrun(fault) | KeepFault::Unshown(fault) => tell_fault(fault, errors),
        KeepFault::Unwritten(why) => tell_unwritten(why, errors),
        KeepFault::Neither(fault, why) => {
            tell_fault(fault, errors);
            tell_unwritten(why, errors)
        }
    }
}

// Tells why a text isn't written whole, as far as the writer takes it.
fn tell_unwritten<E: Write>(why: WriteFault, errors: &mut E)
    ensures { Tells (unwritten_line why) (E.contents errors.old) (E.contents errors.new) }
{
    match why {
        WriteFault::TooLong => tell_fault(Fault::TooLong, errors),
        WriteFault::Write => tell_text(errors, JOURNALS_LINE),
        WriteFault::Memory => tell_fault(Fault::Memory, errors),
    }
}
