//! Commands in words.
use abt_cli::{AuditCommand, CheckCommand, Command, DrawCommand, LogCommand, ThreadsCommand};
use abt_codes::{Kind, MessageWords};
use abt_draw::{PictureForm, PicturePlan};
use abt_play::PlayPlan;
use abt_weave::Actor;
use std::alloc::Global;
use std::test::Fail;

// A command in words: its name, its fields in their order, and the flags that are set.
pub(super) fn told(alloc: Global, command: &Command) -> Result<String, Fail> {
    match command {
        Command::Rate { code, json } => flagged(
            alloc,
            &["rate", code.as_str()],
            &[("json", *json)],
        ),
        Command::Cell { cell, json } => flagged(alloc, &["cell", named(cell)], &[("json", *json)]),
        Command::Port {
            capacity,
            cells,
            json,
        } => {
            let cells = match cells {
                Some(cells) => listed(alloc, cells.as_slice())?,
                None => String::from_str(alloc, "-")?,
            };
            let text = format!(in alloc; "port {capacity} {cells}")?;
            flagged(alloc, &[text.as_str()], &[("json", *json)])
        }
        Command::Run {
            file,
            json,
            explain,
            strict,
            quiet,
        } => flagged(
            alloc,
            &["run", named(file)],
            &[
                ("json", *json),
                ("explain", *explain),
                ("strict", *strict),
                ("quiet", *quiet),
            ],
        ),
        Command::Threads(command) => threads_told(alloc, command),
        Command::Explain { file, json, quiet } => flagged(
            alloc,
            &["explain", named(file)],
            &[("json", *json), ("quiet", *quiet)],
        ),
        Command::Check(command) => check_told(alloc, command),
        Command::Audit(command) => audit_told(alloc, command),
        Command::AuditLog(command) => log_told(alloc, command),
        _ => other_told(alloc, command),
    }
}

fn other_told(alloc: Global, command: &Command) -> Result<String, Fail> {
    match command {
        Command::Police { tau, rate, json } => {
            let units = rate.rate.units();
            let text = format!(in alloc; "police {tau} {units}")?;
            flagged(alloc, &[text.as_str()], &[("json", *json)])
        }
        Command::Shape { rate, json } => {
            let units = rate.rate.units();
            let text = format!(in alloc; "shape {units}")?;
            flagged(alloc, &[text.as_str()], &[("json", *json)])
        }
        Command::Step { file, form } => flagged(
            alloc,
            &["step", file.as_str()],
            &[
                ("json", form.json),
                ("state", form.state),
                ("possible", form.possible),
            ],
        ),
        Command::Play(plan) => play_told(alloc, plan),
        Command::Code { rate, json } => flagged(
            alloc,
            &["code", rate.as_str()],
            &[("json", *json)],
        ),
        Command::Write { words, json } => {
            let text = message_told(alloc, words)?;
            flagged(alloc, &[text.as_str()], &[("json", *json)])
        }
        Command::Draw(command) => draw_told(alloc, command),
        _ => Err(Fail::from("another command")),
    }
}

fn check_told(alloc: Global, command: &CheckCommand) -> Result<String, Fail> {
    let files = listed(alloc, command.files.as_slice())?;
    let flags = [
        ("json", command.json),
        ("located", command.located),
        ("expect", command.expect),
    ];
    flagged(alloc, &["check", files.as_str()], &flags)
}

fn threads_told(alloc: Global, command: &ThreadsCommand) -> Result<String, Fail> {
    let workers = command.workers;
    let workers = format!(in alloc; "{workers}")?;
    flagged(
        alloc,
        &[
            "threads",
            named(&command.file),
            workers.as_str(),
            named(&command.journals),
            named(&command.events),
        ],
        &[
            ("json", command.json),
            ("explain", command.explain),
            ("quiet", command.quiet),
        ],
    )
}

fn audit_told(alloc: Global, command: &AuditCommand) -> Result<String, Fail> {
    let files = listed(alloc, command.files.as_slice())?;
    let events = named(&command.events);
    let text = match &command.picture {
        Some(picture) => {
            let picture = picture_told(alloc, picture)?;
            format!(in alloc; "audit {files} {events} {picture}")?
        }
        None => format!(in alloc; "audit {files} {events}")?,
    };
    flagged(
        alloc,
        &[text.as_str()],
        &[("json", command.json), ("quiet", command.quiet)],
    )
}

fn log_told(alloc: Global, command: &LogCommand) -> Result<String, Fail> {
    let files = listed(alloc, command.files.as_slice())?;
    let (kind, number) = match command.actor {
        Actor::Port(port) => ("port", port),
        Actor::Source(source) => ("source", source),
    };
    let text = format!(in alloc; "audit {kind} {number} {files}")?;
    flagged(
        alloc,
        &[text.as_str()],
        &[("json", command.json), ("quiet", command.quiet)],
    )
}

fn draw_told(alloc: Global, command: &DrawCommand) -> Result<String, Fail> {
    let file = named(&command.file);
    let events = named(&command.events);
    let picture = picture_told(alloc, &command.picture)?;
    match command.workers {
        Some(workers) => Ok(format!(in alloc; "draw {file} {workers} {events} {picture}")?),
        None => Ok(format!(in alloc; "draw {file} - {events} {picture}")?),
    }
}

fn play_told(alloc: Global, plan: &PlayPlan) -> Result<String, Fail> {
    let file = named(&plan.file);
    let events = named(&plan.events);
    let seed = plan.chances.seed;
    let loss = plan.chances.loss;
    let repeat = plan.chances.repeat;
    let delay = plan.chances.delay;
    match &plan.picture {
        Some(picture) => {
            let picture = picture_told(alloc, picture)?;
            Ok(format!(in alloc; "play {file} {seed} {loss} {repeat} {delay} {events} {picture}")?)
        }
        None => Ok(format!(in alloc; "play {file} {seed} {loss} {repeat} {delay} {events}")?),
    }
}

fn message_told(alloc: Global, words: &MessageWords) -> Result<String, Fail> {
    let kind = match words.kind {
        Kind::Request => "request",
        Kind::Yes => "yes",
        Kind::No => "no",
    };
    flagged(
        alloc,
        &[
            "write",
            kind,
            words.vpi.as_str(),
            words.vci.as_str(),
            words.seq.as_str(),
            words.floor.as_str(),
            words.ask.as_str(),
        ],
        &[],
    )
}

// What a picture shows: its kind, its file, its connections, and its events, 0 where none is named.
fn picture_told(alloc: Global, picture: &PicturePlan) -> Result<String, Fail> {
    let kind = match picture.form {
        PictureForm::Svg => "picture",
        PictureForm::Page => "page",
        PictureForm::Text => "text",
    };
    let out = picture.out.as_str();
    let from = picture.from.unwrap_or(0);
    let to = picture.to.unwrap_or(0);
    let mut only = String::new(alloc);
    for conn in &picture.only {
        if !only.is_empty() {
            only.push_str(",")?;
        }
        write!(only, "{conn}")?;
    }
    if only.is_empty() {
        only.push_str("-")?;
    }
    Ok(format!(in alloc; "{kind} {out} {only} {from} {to}")?)
}

// Words, and behind them the flags that are set.
pub(crate) fn flagged(
    alloc: Global,
    words: &[&str],
    flags: &[(&str, bool)],
) -> Result<String, Fail> {
    let mut text = String::new(alloc);
    for word in words {
        if !text.is_empty() {
            text.push_str(" ")?;
        }
        text.push_str(word)?;
    }
    for (flag, set) in flags {
        if *set {
            text.push_str(" ")?;
            text.push_str(flag)?;
        }
    }
    Ok(text)
}

fn named(file: &Option<String>) -> &str {
    match file {
        Some(name) => name.as_str(),
        None => "-",
    }
}

fn listed(alloc: Global, names: &[String]) -> Result<String, Fail> {
    let mut text = String::new(alloc);
    for name in names {
        if !text.is_empty() {
            text.push_str(",")?;
        }
        text.push_str(name.as_str())?;
    }
    if text.is_empty() {
        text.push_str("-")?;
    }
    Ok(text)
}
