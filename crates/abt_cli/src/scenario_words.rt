//! The words of the commands of cells, scenarios and journals.
ghost use Rattle.std.specs.Prelude.{IfErr, IfOk, codes};
ghost use Rattle.abt_cli.specs.Commands.{AreCells, IsAllowed, IsCell, IsCommandOf};
ghost use Rattle.abt_cli.specs.Refused.{IsRefused};
ghost use Rattle.abt_perform.specs.declared.plan.WordsFault.TheVariants.{Memory};

use crate::command::{AuditCommand, CheckCommand, Command, ThreadsCommand};
use crate::log_words::{log_actor, log_audit};
use crate::names::{
    CODE, EVENTS, EXPECT, EXPLAIN, HEX, JOURNALS, JSON, LOCATED, QUIET, STDIN, STRICT,
};
use crate::picture_words::picture_if_named;
use crate::readers::{capacity_of, file_in, files_in, text_in, word_in, words_in, workers_of};
use abt_perform::WordsFault;
use clap::ArgMatches;
use std::alloc::{AllocError, Global};

pub(crate) fn rate_of(alloc: Global, found: &ArgMatches<'_>) -> Result<Command, WordsFault>
    ensures limits { IfOk result IsAllowed }
    ensures command { IfOk result (IsCommandOf (codes "rate") found.now) }
    ensures err { IfErr result (IsRefused (codes "rate") found.now) }
{
    let code = word_in(alloc, found, CODE)?;
    let json = found.get_flag(JSON);
    Ok(Command::Rate { code, json })
}

pub(crate) fn cell_of(alloc: Global, found: &ArgMatches<'_>) -> Result<Command, WordsFault>
    ensures limits { IfOk result IsAllowed }
    ensures command { IfOk result (IsCommandOf (codes "cell") found.now) }
    ensures err { IfErr result (IsRefused (codes "cell") found.now) }
{
    let cell = cell_in(alloc, found)?;
    let json = found.get_flag(JSON);
    Ok(Command::Cell { cell, json })
}

// The cell that is named, unless cells come from the standard input.
fn cell_in(alloc: Global, found: &ArgMatches<'_>) -> Result<Option<String>, AllocError>
    ensures { IfOk result (IsCell found.now) }
{
    if found.get_flag(STDIN) {
        return Ok(None);
    }
    Ok(Some(word_in(alloc, found, HEX)?))
}

pub(crate) fn port_of(alloc: Global, found: &ArgMatches<'_>) -> Result<Command, WordsFault>
    ensures limits { IfOk result IsAllowed }
    ensures command { IfOk result (IsCommandOf (codes "port") found.now) }
    ensures err { IfErr result (IsRefused (codes "port") found.now) }
{
    let capacity = capacity_of(alloc, found)?;
    let cells = cells_in(alloc, found)?;
    let json = found.get_flag(JSON);
    Ok(Command::Port {
        capacity,
        cells,
        json,
    })
}

// The cells that are named, unless cells come from the standard input.
fn cells_in(alloc: Global, found: &ArgMatches<'_>) -> Result<Option<Vec<String>>, AllocError>
    ensures { IfOk result (AreCells found.now) }
{
    if found.get_flag(STDIN) {
        return Ok(None);
    }
    Ok(Some(words_in(alloc, found, HEX)?))
}

pub(crate) fn run_of(alloc: Global, found: &ArgMatches<'_>) -> Result<Command, WordsFault>
    ensures limits { IfOk result IsAllowed }
    ensures command { IfOk result (IsCommandOf (codes "run") found.now) }
    ensures err { IfErr result (IsRefused (codes "run") found.now) }
{
    let file = file_in(alloc, found)?;
    let json = found.get_flag(JSON);
    let explain = found.get_flag(EXPLAIN);
    let strict = found.get_flag(STRICT);
    let quiet = found.get_flag(QUIET);
    Ok(Command::Run {
        file,
        json,
        explain,
        strict,
        quiet,
    })
}

pub(crate) fn threads_of(alloc: Global, found: &ArgMatches<'_>) -> Result<Command, WordsFault>
    ensures limits { IfOk result IsAllowed }
    ensures command { IfOk result (IsCommandOf (codes "threads") found.now) }
    ensures err { IfErr result (IsRefused (codes "threads") found.now) }
{
    let workers = workers_of(alloc, found)?;
    let file = file_in(alloc, found)?;
    let journals = text_in(alloc, found, JOURNALS)?;
    let events = text_in(alloc, found, EVENTS)?;
    Ok(Command::Threads(ThreadsCommand {
        file,
        workers,
        json: found.get_flag(JSON),
        journals,
        events,
        explain: found.get_flag(EXPLAIN),
        quiet: found.get_flag(QUIET),
    }))
}

pub(crate) fn explain_of(alloc: Global, found: &ArgMatches<'_>) -> Result<Command, WordsFault>
    ensures limits { IfOk result IsAllowed }
    ensures command { IfOk result (IsCommandOf (codes "explain") found.now) }
    ensures err { IfErr result (IsRefused (codes "explain") found.now) }
{
    let file = file_in(alloc, found)?;
    let json = found.get_flag(JSON);
    let quiet = found.get_flag(QUIET);
    Ok(Command::Explain { file, json, quiet })
}

pub(crate) fn check_of(alloc: Global, found: &ArgMatches<'_>) -> Result<Command, WordsFault>
    ensures limits { IfOk result IsAllowed }
    ensures command { IfOk result (IsCommandOf (codes "check") found.now) }
    ensures err { IfErr result (IsRefused (codes "check") found.now) }
{
    let as_json = found.get_flag(JSON);
    Ok(Command::Check(CheckCommand {
        files: files_in(alloc, found)?,
        json: as_json,
        located: found.get_flag(LOCATED),
        expect: found.get_flag(EXPECT),
    }))
}

pub(crate) fn audit_of(alloc: Global, found: &ArgMatches<'_>) -> Result<Command, WordsFault>
    ensures limits { IfOk result IsAllowed }
    ensures command { IfOk result (IsCommandOf (codes "audit") found.now) }
    ensures err { IfErr result (IsRefused (codes "audit") found.now) }
{
    if let Some(actor) = log_actor(alloc, found)? {
        return Ok(Command::AuditLog(log_audit(alloc, found, actor)?));
    }
    let picture = picture_if_named(alloc, found)?;
    let files = files_in(alloc, found)?;
    let events = text_in(alloc, found, EVENTS)?;
    let json = found.get_flag(JSON);
    let quiet = found.get_flag(QUIET);
    Ok(Command::Audit(AuditCommand {
        files,
        events,
        picture,
        json,
        quiet,
    }))
}
