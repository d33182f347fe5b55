//! The command line of a switch and a source as processes.
use crate::examples;
use crate::line::command;
use crate::live_names::{binary, clock, journal, new, ports, store};
use crate::names::{CONNECTION, net, word};
use clap::Command;
use std::alloc::{AllocError, Global};

pub(crate) fn switch_command<'a>(alloc: Global) -> Result<Command<'a>, AllocError> {
    command(
        alloc,
        "switch",
        "Be ports of a switch, a line of the standard input each message",
        examples::SWITCH,
    )
    .arg(net(alloc))?
    .arg(ports(alloc))?
    .arg(journal(
        alloc,
        "The journal, a file that must not be there: a switch that ended lost its reservations",
    ))?
    .arg(binary(alloc))
}

pub(crate) fn source_command<'a>(alloc: Global) -> Result<Command<'a>, AllocError> {
    let source = command(
        alloc,
        "source",
        "Be the source of a connection, a line of the standard input each command and answer",
        examples::SOURCE,
    );
    source
        .arg(net(alloc))?
        .arg(word(
            alloc,
            CONNECTION,
            "The connection, by its number in the net, the first by 0",
        ))?
        .arg(store(alloc))?
        .arg(journal(
            alloc,
            "The journal: read first, and written behind its last line",
        ))?
        .arg(new(alloc))?
        .arg(binary(alloc))?
        .arg(clock(alloc))
}
