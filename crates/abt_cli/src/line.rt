//! The command line, as `clap` is told of it: a function for each command.
use crate::examples;
use crate::hand_line::{
    code_command, draw_command, play_command, police_command, shape_command, step_command,
    write_command,
};
use crate::live_line::{source_command, switch_command};
use crate::names::{
    CODE, DRAW, EVENTS, EXPLAIN, JOURNALS, JSON, LOCATED, OF_SOURCE, PORT, capacity, cell, cells,
    expect, explain, journal_files, json, located, quiet, scenario, scenario_files, stdin, strict,
    valued, with_drawn_part, word, workers, written,
};
use clap::Command;
use std::alloc::{AllocError, Global};

/// The version that `abt --version` tells; CHANGELOG.md tells what each is.
pub const VERSION: &str = "0.1.0";

/// The whole command line behind the program's name.
pub(crate) fn program<'a>(alloc: Global) -> Result<Command<'a>, AllocError> {
    let program = Command::new(alloc, "abt")
        .bin_name("abt")?
        .version(VERSION)
        .about("A bandwidth controller for ATM block transfer with delayed transmission")
        .no_binary_name(true)
        .subcommand_required(true)
        .after_help(examples::PROGRAM);
    let program = with_scenarios(alloc, with_cells(alloc, program)?)?;
    with_processes(alloc, with_others(alloc, program)?)
}

// The commands of rates, cells and ports.
fn with_cells<'a>(alloc: Global, program: Command<'a>) -> Result<Command<'a>, AllocError> {
    let program = with(program, rate_command(alloc))?;
    let program = with(program, cell_command(alloc))?;
    with(program, port_command(alloc))
}

// The commands of scenarios and journals.
fn with_scenarios<'a>(alloc: Global, program: Command<'a>) -> Result<Command<'a>, AllocError> {
    let program = with(program, run_command(alloc))?;
    let program = with(program, threads_command(alloc))?;
    let program = with(program, explain_command(alloc))?;
    let program = with(program, check_command(alloc))?;
    with(program, audit_command(alloc))
}

// The commands of parts by hand, of plays and of pictures.
fn with_others<'a>(alloc: Global, program: Command<'a>) -> Result<Command<'a>, AllocError> {
    let program = with(program, police_command(alloc))?;
    let program = with(program, shape_command(alloc))?;
    let program = with(program, step_command(alloc))?;
    let program = with(program, play_command(alloc))?;
    let program = with(program, code_command(alloc))?;
    let program = with(program, write_command(alloc))?;
    with(program, draw_command(alloc))
}

// The commands that are processes of a net.
fn with_processes<'a>(alloc: Global, program: Command<'a>) -> Result<Command<'a>, AllocError> {
    let program = with(program, switch_command(alloc))?;
    with(program, source_command(alloc))
}

// A command line with one more command, if there was memory for it. A `?` for each command, with the whole line alive, takes longer to
// prove.
fn with<'a>(
    program: Command<'a>,
    command: Result<Command<'a>, AllocError>,
) -> Result<Command<'a>, AllocError> {
    program.subcommand(command?)
}

// A command without arguments yet.
pub(crate) fn command<'a>(
    alloc: Global,
    name: &'a str,
    about: &'static str,
    example: &'static str,
) -> Command<'a> {
    Command::new(alloc, name).about(about).after_help(example)
}

fn rate_command<'a>(alloc: Global) -> Result<Command<'a>, AllocError> {
    command(alloc, "rate", "Say what a rate code means", examples::RATE)
        .arg(word(alloc, CODE, "The code: four hexadecimal digits"))?
        .arg(json(alloc))
}

fn cell_command<'a>(alloc: Global) -> Result<Command<'a>, AllocError> {
    command(alloc, "cell", "Say what an RM cell says", examples::CELL)
        .arg(cell(alloc)?)?
        .arg(json(alloc))?
        .arg(stdin(alloc)?)
}

fn port_command<'a>(alloc: Global) -> Result<Command<'a>, AllocError> {
    command(
        alloc,
        "port",
        "Serve RM cells at one port of a switch",
        examples::PORT,
    )
    .arg(capacity(alloc))?
    .arg(cells(alloc)?)?
    .arg(json(alloc))?
    .arg(stdin(alloc)?)
}

fn run_command<'a>(alloc: Global) -> Result<Command<'a>, AllocError> {
    command(
        alloc,
        "run",
        "Run a scenario, and report what each of its events answered",
        examples::RUN,
    )
    .arg(scenario(alloc))?
    .arg(json(alloc))?
    .arg(explain(alloc).conflicts_with(JSON)?)?
    .arg(strict(alloc).conflicts_with(EXPLAIN)?)?
    .arg(quiet(alloc))
}

fn threads_command<'a>(alloc: Global) -> Result<Command<'a>, AllocError> {
    let workers = workers(
        alloc,
        "How many link workers carry messages between ports: 1 to 64",
    );
    let journals = written(
        alloc,
        JOURNALS,
        "Write the journals of the run to this file, whether it is shown to be woven and safe or not",
    );
    let events = written(
        alloc,
        EVENTS,
        "Write the events that were woven to this file, as a scenario for abt run",
    );
    let explain = explain(alloc).help(
        "Tell on standard error the events that were woven, with their reasons, and what abt check says of the scenario",
    );
    command(
        alloc,
        "threads",
        "Run a scenario's scripts in threads, and say what is shown of the run",
        examples::THREADS,
    )
    .arg(scenario(alloc))?
    .arg(workers.required(true))?
    .arg(json(alloc).conflicts_with(EXPLAIN)?)?
    .arg(journals.conflicts_with(EXPLAIN)?.conflicts_with(JSON)?)?
    .arg(events.conflicts_with(JOURNALS)?.conflicts_with(JSON)?)?
    .arg(explain)?
    .arg(quiet(alloc))
}

fn explain_command<'a>(alloc: Global) -> Result<Command<'a>, AllocError> {
    command(
        alloc,
        "explain",
        "Run a scenario, and tell each of its events with its line and its reason",
        examples::EXPLAIN,
    )
    .arg(scenario(alloc))?
    .arg(json(alloc))?
    .arg(quiet(alloc))
}

fn check_command<'a>(alloc: Global) -> Result<Command<'a>, AllocError> {
    command(
        alloc,
        "check",
        "Tell what is wrong or doubtful in scenarios, with line and column",
        examples::CHECK,
    )
    .arg(scenario_files(alloc))?
    .arg(json(alloc))?
    .arg(located(alloc))?
    .arg(expect(alloc).conflicts_with(JSON)?.conflicts_with(LOCATED)?)
}

fn audit_command<'a>(alloc: Global) -> Result<Command<'a>, AllocError> {
    let events = written(
        alloc,
        EVENTS,
        "Write the net and the events, or those before journals are stuck, to this file as a scenario",
    );
    let draw = written(
        alloc,
        DRAW,
        "Draw the events, or those before journals are stuck, to this file: a picture if it ends in .svg, a page if in .html, text if in .txt",
    );
    let audit = command(
        alloc,
        "audit",
        "Say whether journals are those of one safe run",
        examples::AUDIT,
    );
    let audit = audit.arg(journal_files(alloc))?.arg(events)?.arg(draw)?;
    let audit = with_drawn_part(alloc, audit)?;
    let audit = with_one_log(alloc, audit)?;
    audit
        .arg(json(alloc).help(
            "Tell what is found on the standard output as JSON, one object a line",
        ))?
        .arg(quiet(alloc))
}

// Whose log is judged alone. Nothing is woven then, so there are no events.
fn with_one_log<'a>(alloc: Global, audit: Command<'a>) -> Result<Command<'a>, AllocError> {
    let port = valued(
        alloc,
        PORT,
        "P",
        "Judge the log of this port alone, by its number in the net, taking what comes in as sent",
    );
    let source = valued(
        alloc,
        OF_SOURCE,
        "C",
        "Judge the log of the source of this connection alone, taking what comes in as sent",
    );
    let port = port.conflicts_with(OF_SOURCE)?.conflicts_with(EVENTS)?;
    let source = source.conflicts_with(EVENTS)?.conflicts_with(DRAW)?;
    audit.arg(port.conflicts_with(DRAW)?)?.arg(source)
}
