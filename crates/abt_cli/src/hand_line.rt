//! The command line of parts by hand, of plays and of pictures.
use crate::examples;
use crate::line::command;
use crate::names::{
    ASK, DRAW, EVENTS, FILE, FLOOR, FROM, LOSS, MESSAGE, ONLY, OUTPUT, QUANTITY, REPEAT, SEQ, TO,
    VCI, VPI, WORKERS, chance, delay, json, possible, rate, scenario, seed, state, tau, valued,
    with_drawn_part, word, workers, written,
};
use clap::Command;
use std::alloc::{AllocError, Global};

pub(crate) fn police_command<'a>(alloc: Global) -> Result<Command<'a>, AllocError> {
    command(
        alloc,
        "police",
        "Judge the arrivals of cells, a line of the standard input each",
        examples::POLICE,
    )
    .arg(tau(alloc))?
    .arg(rate(alloc))?
    .arg(json(alloc))
}

pub(crate) fn shape_command<'a>(alloc: Global) -> Result<Command<'a>, AllocError> {
    command(
        alloc,
        "shape",
        "Say when cells leave, a line of the standard input each",
        examples::SHAPE,
    )
    .arg(rate(alloc))?
    .arg(json(alloc))
}

pub(crate) fn step_command<'a>(alloc: Global) -> Result<Command<'a>, AllocError> {
    command(
        alloc,
        "step",
        "Let events happen to a net, a line of the standard input each",
        examples::STEP,
    )
    .arg(word(
        alloc,
        FILE,
        "The net: a scenario, a TOML text, whose events happen before the first line",
    ))?
    .arg(json(alloc))?
    .arg(state(alloc))?
    .arg(possible(alloc))
}

pub(crate) fn play_command<'a>(alloc: Global) -> Result<Command<'a>, AllocError> {
    let loss = chance(
        alloc,
        LOSS,
        "How many of a hundred messages are lost; without it, none",
    );
    let repeat = chance(
        alloc,
        REPEAT,
        "How many of a hundred others come twice; without it, none",
    );
    let events = written(
        alloc,
        EVENTS,
        "Write the events to this file, as a scenario for abt run",
    );
    let draw = written(
        alloc,
        DRAW,
        "Draw the events to this file: a picture if it ends in .svg, a page if in .html, text if in .txt",
    );
    let play = command(
        alloc,
        "play",
        "Carry out a scenario's scripts in one thread, with losses and repeats drawn by a seed",
        examples::PLAY,
    )
    .arg(scenario(alloc))?
    .arg(seed(alloc))?
    .arg(loss)?
    .arg(repeat)?
    .arg(delay(alloc))?
    .arg(events)?
    .arg(draw)?;
    with_drawn_part(alloc, play)
}

pub(crate) fn code_command<'a>(alloc: Global) -> Result<Command<'a>, AllocError> {
    command(
        alloc,
        "code",
        "Say which rate codes are nearest to a rate",
        examples::CODE,
    )
    .arg(word(
        alloc,
        QUANTITY,
        "The rate: a decimal number of at most 9 places, and cps, bps, kbps, Mbps or Gbps",
    ))?
    .arg(json(alloc))
}

pub(crate) fn write_command<'a>(alloc: Global) -> Result<Command<'a>, AllocError> {
    command(
        alloc,
        "write",
        "Write the RM cell of a request, or of an answer to one",
        examples::WRITE,
    )
    .arg(word(
        alloc,
        MESSAGE,
        "Which message: request, or yes or no, the answers to one",
    ))?
    .arg(word(alloc, VPI, "The virtual path identifier, below 2^12"))?
    .arg(word(alloc, VCI, "The virtual channel identifier, below 2^16"))?
    .arg(word(alloc, SEQ, "The sequence number, from 1, below 2^32"))?
    .arg(word(
        alloc,
        FLOOR,
        "The code of the floor: four hexadecimal digits",
    ))?
    .arg(word(
        alloc,
        ASK,
        "The code of the asked rate, which isn't below the floor",
    ))?
    .arg(json(alloc))
}

pub(crate) fn draw_command<'a>(alloc: Global) -> Result<Command<'a>, AllocError> {
    let out = written(
        alloc,
        OUTPUT,
        "Write the picture to this file: a picture if it ends in .svg, a page if in .html, text if in .txt; - is the standard output, and on a terminal text",
    );
    let draw = command(
        alloc,
        "draw",
        "Run a scenario, and draw who sent what to whom, and who held what meanwhile",
        examples::DRAW,
    );
    let draw = draw
        .arg(scenario(alloc))?
        .arg(out.short('o').required(true))?
        .arg(valued(alloc, ONLY, "LIST", "Show these connections alone, as 0,2"))?
        .arg(valued(
            alloc,
            FROM,
            "N",
            "Show the events from this one on, counted from 1",
        ))?
        .arg(valued(alloc, TO, "N", "Show the events up to this one"))?;
    with_woven_run(alloc, draw)
}

// Whether the events that are drawn are those of a run in threads.
fn with_woven_run<'a>(alloc: Global, draw: Command<'a>) -> Result<Command<'a>, AllocError> {
    let workers = workers(
        alloc,
        "Run the scenario's scripts in threads, with this many link workers, 1 to 64, and draw the events that were woven",
    );
    let events = written(
        alloc,
        EVENTS,
        "With --workers, write the events that were woven to this file too, as a scenario for abt run",
    );
    draw.arg(workers)?.arg(events.requires_arg(WORKERS)?)
}
