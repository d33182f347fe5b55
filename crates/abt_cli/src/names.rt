//! The arguments and options of commands but for processes: each name stands here once, with its help.
use clap::{Arg, ArgAction, Command, value_parser};
use std::alloc::{AllocError, Global};

/// The rate code of `abt rate`.
pub const CODE: &str = "CODE";

/// The cell of `abt cell`, the cells of `abt port`.
pub const HEX: &str = "HEX";

/// The capacity of `abt port`.
pub const CAPACITY: &str = "CAPACITY";

/// A scenario.
pub const FILE: &str = "FILE";

/// The scenario that has the net of `abt switch` and `abt source`, and the connection of `abt source`.
pub const NET: &str = "NET";

pub const CONNECTION: &str = "CONNECTION";

/// The scenarios of `abt check`, the journals of `abt audit`.
pub const FILES: &str = "FILES";

/// The rate of `abt code`.
pub const QUANTITY: &str = "RATE";

/// The message of `abt write`, and what it says.
pub const MESSAGE: &str = "MESSAGE";

pub const VPI: &str = "VPI";

pub const VCI: &str = "VCI";

pub const SEQ: &str = "SEQ";

pub const FLOOR: &str = "FLOOR";

pub const ASK: &str = "ASK";

/// Whether a command answers as JSON.
pub const JSON: &str = "json";

/// Whether each line of a check names its file.
pub const LOCATED: &str = "located";

/// Whether scenarios are tested by what they expect.
pub const EXPECT: &str = "expect";

/// Whether cells come from the standard input.
pub const STDIN: &str = "stdin";

/// Whether a run is checked besides, and woven events are told.
pub const EXPLAIN: &str = "explain";

/// Whether each event of a run has to be enabled.
pub const STRICT: &str = "strict";

/// Whether nothing is shown of how far a command is.
pub const QUIET: &str = "quiet";

/// Whether answers tell rates and capacities too.
pub const STATE: &str = "state";

/// Whether answers tell what can happen next too.
pub const POSSIBLE: &str = "possible";

/// How many link workers a run in threads has.
pub const WORKERS: &str = "workers";

/// The file for journals.
pub const JOURNALS: &str = "journals";

/// The file for events, as a scenario.
pub const EVENTS: &str = "events";

/// The file for the picture of `abt draw`.
pub const OUTPUT: &str = "output";

/// The file for the picture of `abt audit` and of `abt play`.
pub const DRAW: &str = "draw";

/// The source whose log `abt audit` judges alone.
pub const OF_SOURCE: &str = "source";

/// The connections that a picture shows, its first event and its last.
pub const ONLY: &str = "only";

pub const FROM: &str = "from";

pub const TO: &str = "to";

/// The tolerance and the rate of cells by hand.
pub const TAU: &str = "tau";

pub const RATE: &str = "rate";

/// The ports of `abt switch`, and that whose log `abt audit` judges alone.
pub const PORT: &str = "port";

/// The seed and the chances of a play.
pub const SEED: &str = "seed";

pub const LOSS: &str = "loss";

pub const REPEAT: &str = "repeat";

pub const DELAY: &str = "delay";

/// A word that must be there.
pub(crate) fn word<'a>(alloc: Global, name: &'a str, help: &'a str) -> Arg<'a> {
    Arg::new(alloc, name).required(true).help(help)
}

/// An option without a value.
pub(crate) fn flag<'a>(alloc: Global, name: &'a str, help: &'a str) -> Arg<'a> {
    Arg::new(alloc, name)
        .long(name)
        .action(ArgAction::SetTrue)
        .help(help)
}

/// An option with a value.
pub(crate) fn valued<'a>(alloc: Global, name: &'a str, value: &'a str, help: &'a str) -> Arg<'a> {
    Arg::new(alloc, name)
        .long(name)
        .value_name(value)
        .help(help)
}

/// An option that names a file to be written.
pub(crate) fn written<'a>(alloc: Global, name: &'a str, help: &'a str) -> Arg<'a> {
    valued(alloc, name, "OUT", help)
}

pub(crate) fn scenario<'a>(alloc: Global) -> Arg<'a> {
    Arg::new(alloc, FILE).help(
        "The scenario, a TOML text; without a file it is read from the standard input",
    )
}

pub(crate) fn net<'a>(alloc: Global) -> Arg<'a> {
    word(
        alloc,
        NET,
        "The net: a scenario, a TOML text, whose events don't happen",
    )
}

pub(crate) fn capacity<'a>(alloc: Global) -> Arg<'a> {
    word(
        alloc,
        CAPACITY,
        "The capacity of the port's link in units of 1/512 cell/s, at most 2^60, or in words, as 155Mbps",
    )
}

pub(crate) fn cell<'a>(alloc: Global) -> Result<Arg<'a>, AllocError> {
    let cell = Arg::new(alloc, HEX).required_unless_present(STDIN)?;
    Ok(cell.help("The cell without its HEC: 52 octets in hexadecimal digits"))
}

pub(crate) fn cells<'a>(alloc: Global) -> Result<Arg<'a>, AllocError> {
    let cells = Arg::new(alloc, HEX).required_unless_present(STDIN)?;
    Ok(
        cells.action(ArgAction::Append).num_args(1..).help(
            "The cells without their HEC: 52 octets each in hexadecimal digits",
        ),
    )
}

/// Any number of files that are read.
fn files<'a>(alloc: Global, help: &'a str) -> Arg<'a> {
    Arg::new(alloc, FILES)
        .value_name("FILE")
        .action(ArgAction::Append)
        .num_args(0..)
        .help(help)
}

pub(crate) fn journal_files<'a>(alloc: Global) -> Arg<'a> {
    files(
        alloc,
        "The journals, as JSON Lines; without a file they are read from the standard input",
    )
}

pub(crate) fn scenario_files<'a>(alloc: Global) -> Arg<'a> {
    files(
        alloc,
        "The scenarios, TOML texts; without a file one is read from the standard input",
    )
}

pub(crate) fn located<'a>(alloc: Global) -> Arg<'a> {
    flag(
        alloc,
        LOCATED,
        "Begin each line with FILE:LINE:COLUMN, as is done if there are several files",
    )
}

pub(crate) fn expect<'a>(alloc: Global) -> Arg<'a> {
    flag(
        alloc,
        EXPECT,
        "Run each scenario, and test that its events have the outcomes of its array expect; answer in TAP",
    )
}

pub(crate) fn json<'a>(alloc: Global) -> Arg<'a> {
    flag(alloc, JSON, "Answer as JSON, one object a line")
}

pub(crate) fn state<'a>(alloc: Global) -> Arg<'a> {
    flag(
        alloc,
        STATE,
        "Tell behind each answer to an event the rates, what is held, the totals and the capacities",
    )
}

pub(crate) fn possible<'a>(alloc: Global) -> Arg<'a> {
    flag(
        alloc,
        POSSIBLE,
        "Tell behind each answer to an event which deliveries and arrivals can happen next",
    )
}

pub(crate) fn stdin<'a>(alloc: Global) -> Result<Arg<'a>, AllocError> {
    flag(
        alloc,
        STDIN,
        "Take cells from the standard input, a line each, and answer each before the next",
    )
    .conflicts_with(HEX)
}

pub(crate) fn explain<'a>(alloc: Global) -> Arg<'a> {
    flag(
        alloc,
        EXPLAIN,
        "Tell on standard error, behind the run's fault, what abt check says of the scenario",
    )
}

pub(crate) fn strict<'a>(alloc: Global) -> Arg<'a> {
    flag(
        alloc,
        STRICT,
        "End with status 1 if an event isn't enabled, and tell the first such event, and why",
    )
}

pub(crate) fn quiet<'a>(alloc: Global) -> Arg<'a> {
    flag(
        alloc,
        QUIET,
        "Draw no progress line; one is drawn on standard error where that is a terminal",
    )
}

/// How many link workers there are.
pub(crate) fn workers<'a>(alloc: Global, help: &'a str) -> Arg<'a> {
    valued(alloc, WORKERS, "N", help).value_parser(value_parser!(u64).range(1..=64))
}

pub(crate) fn tau<'a>(alloc: Global) -> Arg<'a> {
    valued(
        alloc,
        TAU,
        "T",
        "The tolerance in picoseconds, at most 10^12, or in ns, us or ms, as 200ns",
    )
    .required(true)
}

pub(crate) fn rate<'a>(alloc: Global) -> Arg<'a> {
    valued(
        alloc,
        RATE,
        "RATE",
        "The rate: a code, four hexadecimal digits, or a rate in words, as 500cps; it means the nearest code below",
    )
    .required(true)
}

pub(crate) fn seed<'a>(alloc: Global) -> Arg<'a> {
    valued(
        alloc,
        SEED,
        "N",
        "The seed, a number below 2^63; the same one gives the same events",
    )
    .required(true)
    .value_parser(value_parser!(u64).range(0..=9223372036854775807))
}

/// A chance of a hundred.
pub(crate) fn chance<'a>(alloc: Global, name: &'a str, help: &'a str) -> Arg<'a> {
    valued(alloc, name, "P", help).value_parser(value_parser!(u64).range(0..=100))
}

pub(crate) fn delay<'a>(alloc: Global) -> Arg<'a> {
    valued(
        alloc,
        DELAY,
        "D",
        "The next message is one of the D + 1 sent first; without it, any",
    )
    .value_parser(value_parser!(u64).range(0..=4294967295))
}

/// What is shown of events that are drawn besides.
pub(crate) fn with_drawn_part<'a>(
    alloc: Global,
    command: Command<'a>,
) -> Result<Command<'a>, AllocError> {
    let only = valued(
        alloc,
        ONLY,
        "LIST",
        "With --draw, show these connections alone, as 0,2",
    );
    let from = valued(
        alloc,
        FROM,
        "N",
        "With --draw, show the events from this one on, counted from 1",
    );
    let to = valued(
        alloc,
        TO,
        "N",
        "With --draw, show the events up to this one",
    );
    command
        .arg(only.requires_arg(DRAW)?)?
        .arg(from.requires_arg(DRAW)?)?
        .arg(to.requires_arg(DRAW)?)
}
