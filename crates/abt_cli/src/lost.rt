//! Commands that would lose a text, as one file is both read and written, or written twice.
ghost use Rattle.std.specs.Prelude.{◌≡◌, ◌↔◌, ◌⊎◌, string_bytes, Any, IsTrue};
ghost use Rattle.abt_cli.specs.Lost.{AreOne, HasOne, IsAmong, IsDrawnOver, IsNamed, IsPlayDrawnOver, IsTaken, LosesText, SourceLosesText, SwitchLosesText};

use crate::command::Command;
use abt_plans::{PicturePlan, SourcePlan, SwitchPlan};

/// The standard output.
pub(crate) const PRINTED: &str = "-";

// Whether a command would write over a file that it reads, or write one file twice. Files are told apart by their names.
pub(crate) fn loses_text(command: &Command) -> bool
    ensures { IsTrue result ↔ LosesText command.now }
{
    match command {
        Command::Threads(command) => {
            are_one(&command.file, &command.journals)
                || are_one(&command.file, &command.events)
                || are_one(&command.journals, &command.events)
                || is_named(&command.journals, PRINTED)
                || is_named(&command.events, PRINTED)
        }
        Command::Audit(command) => {
            let files = command.files.as_slice();
            has_one(files, &command.events)
                || is_named(&command.events, PRINTED)
                || is_drawn_over(files, &command.events, &command.picture)
        }
        Command::Play(plan) => {
            are_one(&plan.file, &plan.events)
                || is_named(&plan.events, PRINTED)
                || is_play_drawn_over(&plan.file, &plan.events, &plan.picture)
        }
        Command::Draw(command) => {
            let picture = command.picture.out.as_str();
            are_one(&command.file, &command.events)
                || is_named(&command.file, picture)
                || is_named(&command.events, picture)
                || is_named(&command.events, PRINTED)
        }
        Command::Switch(plan) => switch_loses_text(plan),
        Command::Source(plan) => source_loses_text(plan),
        _ => false,
    }
}

fn switch_loses_text(plan: &SwitchPlan) -> bool
    ensures { IsTrue result ↔ SwitchLosesText plan.now }
{
    let journal = plan.journal.as_str();
    is_same(plan.file.as_str(), journal) || is_same(journal, PRINTED)
}

fn source_loses_text(plan: &SourcePlan) -> bool
    ensures { IsTrue result ↔ SourceLosesText plan.now }
{
    let file = plan.file.as_str();
    let store = plan.store.as_str();
    let journal = plan.journal.as_str();
    is_same(file, store)
        || is_same(file, journal)
        || is_same(store, journal)
        || is_same(store, PRINTED)
        || is_same(journal, PRINTED)
}

// Whether two names are the same.
fn is_same(name: &str, other: &str) -> bool
    ensures { IsTrue result ↔ (name.now ≡ other.now) }
{
    name == other
}

// Whether the file that may be named has this name.
fn is_named(file: &Option<String>, name: &str) -> bool
    ensures { IsTrue result ↔ IsNamed file.now name.now }
{
    match file {
        Some(file) => file.as_str() == name,
        None => false,
    }
}

// Whether two files that may be named are one.
fn are_one(file: &Option<String>, other: &Option<String>) -> bool
    ensures { IsTrue result ↔ AreOne file.now other.now }
{
    match other {
        Some(other) => is_named(file, other.as_str()),
        None => false,
    }
}

// Whether one of the files is the other that may be named.
fn has_one(files: &[String], other: &Option<String>) -> bool
    ensures { IsTrue result ↔ HasOne files.now other.now }
{
    match other {
        Some(other) => is_among(files, other.as_str()),
        None => false,
    }
}

// Whether a picture is to go to a name that its audit uses already.
fn is_drawn_over(files: &[String], events: &Option<String>, picture: &Option<PicturePlan>) -> bool
    ensures { IsTrue result ↔ IsDrawnOver files.now events.now picture.now }
{
    match picture {
        Some(picture) => is_taken(files, events, picture.out.as_str()),
        None => false,
    }
}

// Whether a picture is to go to the file that its play may read, or to the one for its events.
fn is_play_drawn_over(
    file: &Option<String>,
    events: &Option<String>,
    picture: &Option<PicturePlan>,
) -> bool
    ensures { IsTrue result ↔ IsPlayDrawnOver file.now events.now picture.now }
{
    match picture {
        Some(picture) => is_either(file, events, picture.out.as_str()),
        None => false,
    }
}

// Whether one of two files that may be named has this name.
fn is_either(file: &Option<String>, other: &Option<String>, name: &str) -> bool
    ensures { IsTrue result ↔ (IsNamed file.now name.now ⊎ IsNamed other.now name.now) }
{
    is_named(file, name) || is_named(other, name)
}

// Whether an audit uses a name already: for one of its files, or for that of its events.
fn is_taken(files: &[String], events: &Option<String>, name: &str) -> bool
    ensures { IsTrue result ↔ IsTaken files.now events.now name.now }
{
    is_among(files, name) || is_named(events, name)
}

// Whether one of some files has this name.
fn is_among(files: &[String], name: &str) -> bool
    ensures { IsTrue result ↔ IsAmong files.now name.now }
{
    is_one_of(files, name.as_bytes())
}

fn is_one_of(files: &[String], name: &[u8]) -> bool
    ensures { IsTrue result ↔ IsAmong files.now name.now }
{
    for file in files {
        if file.as_bytes() == name {
            return true;
        }
    }
    false
}
