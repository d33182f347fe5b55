//! The entries at which journals are stuck, as marks.
ghost use Rattle.std.specs.Prelude.{◌≡◌, map, IfOk};
ghost use Rattle.abt_audit.specs.Parts.{said_in, said_of};

use crate::stuck::add_stuck;
use abt_journal_text::Run;
use abt_weave::{Actor, Stuck};
use std::alloc::{AllocError, Global};

/// An entry at which a journal is stuck.
#[derive(Debug, Drop)]
pub struct Mark {
    /// The source or port whose journal it is.
    pub actor: Actor,
    /// What an audit tells of the entry: its text, its line there, and the entry, and a line feed.
    pub line: Vec<u8>,
}

/// The marks of entries at which the journals of a run are stuck, in their order. The names are those of its texts.
pub fn marks_of(
    alloc: Global,
    names: &[String],
    run: &Run,
    stuck: &[Stuck],
) -> Result<Vec<Mark>, AllocError>
    ensures { IfOk result (λ marks. map said_in marks.items ≡ map (said_of names.now run.now) stuck.now) }
{
    let mut marks = Vec::with_capacity(alloc, stuck.len())?;
    for one in stuck {
        let mut line = Vec::new(alloc);
        add_stuck(alloc, &mut line, names, run, *one)?;
        let actor = one.actor;
        marks.push(Mark { actor, line })?;
    }
    Ok(marks)
}
