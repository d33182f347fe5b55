//! The words of a command line, and the commands that they ask for.
ghost use Rattle.std.specs.Prelude.{IfErr, IfOk};
ghost use Rattle.abt_perform.specs.Plans.{IsWithinLimits};
ghost use Rattle.abt_cli.specs.Commands.{IsAllowed, IsCommandOf};
ghost use Rattle.abt_cli.specs.Lost.{LosesText};
ghost use Rattle.abt_cli.specs.Refused.{IsCommand, IsRefused};

use crate::command::Command;
use crate::hand_words::{code_of, draw_of, play_of, police_of, shape_of, step_of, write_of};
use crate::line::program;
use crate::live_words::{source_of, switch_of};
use crate::lost::loses_text;
use crate::plans::plan_of;
use crate::readers::{refusal, wrong_words};
use crate::scenario_words::{
    audit_of, cell_of, check_of, explain_of, port_of, rate_of, run_of, threads_of,
};
use abt_perform::{Plan, WordsFault};
use clap::ArgMatches;
use std::alloc::Global;

// Why words are wrong that name no command.
const NO_COMMAND: &str = "no such command";

// What is told of words that name a file to be written which is read as well, or another one to be written.
pub(crate) const ONE_FILE: &str =
    "an output can't be a file that is read or written already, nor - where lines are printed";

/// The command that the words behind the program's name ask for.
///
/// `clap` decides which words are refused, and writes what is told then, and the help; a number is decimal digits, and nothing else.
/// Refused are also words with which a text would be lost: a file to be written is one that is read, or is to be written twice. Files are
/// told apart by their names alone.
///
/// # Errors
/// The words are refused, or ask for help, or there is no memory.
pub fn command_words<'a>(alloc: Global, words: &'a [&'a str]) -> Result<Command, WordsFault>
    ensures limits { IfOk result IsAllowed }
    ensures apart { IfOk result (λ command. ¬ LosesText command) }
{
    let matches = match program(alloc)?.try_get_matches_from(words) {
        Ok(matches) => matches,
        Err(error) => return Err(refusal(alloc, &error)),
    };
    let Some((name, found)) = matches.subcommand() else {
        return Err(wrong_words(alloc, NO_COMMAND)?);
    };
    let command = command_of(alloc, name, found)?;
    if loses_text(&command) {
        return Err(wrong_words(alloc, ONE_FILE)?);
    }
    Ok(command)
}

// The command of this name, by what `clap` found behind it.
fn command_of(alloc: Global, name: &str, found: &ArgMatches<'_>) -> Result<Command, WordsFault>
    ensures limits { IfOk result IsAllowed }
    ensures command { IfOk result (IsCommandOf name.now found.now) }
    ensures err { IsCommand name.now → IfErr result (IsRefused name.now found.now) }
{
    match name {
        "rate" => rate_of(alloc, found),
        "cell" => cell_of(alloc, found),
        "port" => port_of(alloc, found),
        "run" => run_of(alloc, found),
        "threads" => threads_of(alloc, found),
        "explain" => explain_of(alloc, found),
        "check" => check_of(alloc, found),
        "audit" => audit_of(alloc, found),
        "police" => police_of(alloc, found),
        "shape" => shape_of(alloc, found),
        "step" => step_of(alloc, found),
        "play" => play_of(alloc, found),
        "code" => code_of(alloc, found),
        "write" => write_of(alloc, found),
        "draw" => draw_of(alloc, found),
        "switch" => switch_of(alloc, found),
        "source" => source_of(alloc, found),
        _ => Err(wrong_words(alloc, NO_COMMAND)?),
    }
}

/// The plan that words ask for, if they ask for one: what a rate or a cell means, what a port answers, a run, or a run in threads of which
/// no file is written.
///
/// # Errors
/// Those of [`command_words`]; the words ask for another command, or for one that is carried out in another way.
pub fn plan_words<'a>(alloc: Global, words: &'a [&'a str]) -> Result<Plan, WordsFault>
    ensures limits { IfOk result IsWithinLimits }
{
    let command = command_words(alloc, words)?;
    match plan_of(command) {
        Some(plan) => Ok(plan),
        None => Err(wrong_words(alloc, NO_COMMAND)?),
    }
}
