//! What journals say over any lines.
ghost use Rattle.abt_live_laws.specs.Deeds.{ClockedJournalsAreDeeds, JournalsAreDeeds};
ghost use Rattle.abt_live_laws.specs.Journals.{JournalsAreSteps};
ghost use Rattle.abt_live_laws.specs.Machine.{SourcesMove};
ghost use Rattle.abt_live_laws.specs.Octets.{DeedsAreRead, StepsAreRead};
ghost use Rattle.abt_live_laws.specs.Pasts.{BeginsSo, PastsAreTold};
ghost use Rattle.abt_live_laws.specs.Ports.{SwitchesServe};

use abt_keep::SeqStore;
use abt_live::NanoClock;
use std::io::Write;

/// Whatever lines a switch answers, its journal gets the lines of the steps that its ports did, and nothing else. Those of each port are its
/// steps, one after the other: each has the count of the port's steps before, and the reply of its table then.
pub fn journals_are_steps<J: Write>()
    ensures { JournalsAreSteps J.contents }
{}

/// Whatever lines a source answers, its journal gets the lines of its deeds, and nothing else. They are its deeds one after the other: each has
/// the outcome that the event of its name has there.
pub fn journals_are_deeds<K: SeqStore, J: Write>()
    ensures { JournalsAreDeeds K J.contents }
{}

/// So does the journal of a source that has its moments of a clock, whatever the clock reads.
pub fn clocked_journals_are_deeds<K: SeqStore, J: Write, N: NanoClock>()
    ensures { ClockedJournalsAreDeeds K N.reads J.contents }
{}

/// What a source does with a line, if it is one of live processes and what is handed in was sent, is a move of theirs by which it goes on, or
/// nothing. Its journal gets just the lines of that (docs/LIVE.md, "The law").
pub fn source_steps_are_moves<K: SeqStore, J: Write>()
    ensures { SourcesMove K J.contents }
{}

/// What a switch does with a line that brings something to one of its ports is what a move of live processes has that port do, with what
/// follows along the path sent and said, or nothing. Its journal gets just the line of the step (docs/LIVE.md, "The law").
pub fn switch_steps_are_moves<J: Write>()
    ensures { SwitchesServe J.contents }
{}

/// A source that has read all lines of its journal, and none that can't come there, goes on behind what they tell: so many cells, the
/// greatest moment of a start or an emission, whether it was up, and the ask that was about to write. So it begins as the machine of live
/// processes has it, and writes just the lines of what became of the process before.
pub fn pasts_are_told()
    ensures told { PastsAreTold }
    ensures begins { BeginsSo }
{}

/// What a switch or a source wrote into its journal, of steps and deeds whose numbers fit their fields, is read by the reader of journals as
/// just these, one after the other; of a source without the lines of what was about to be done, which that reader doesn't take. A step of a
/// data cell is read without the cell's number, and an ask whose record wasn't kept leaves open whether it is stored.
pub fn octets_are_read()
    ensures steps { StepsAreRead }
    ensures deeds { DeedsAreRead }
{}
