//! Which switch and which source words ask for: a row for each option, where it is there and where it isn't.
use super::command_told::flagged;
use super::command_words::refused_at_want;
use abt_cli::{Command, command_words};
use abt_live_files::{SourcePlan, SwitchPlan};
use abt_perform::WordsFault;
use std::alloc::Global;
use std::process::Abort;
use std::test::Fail;

// Words behind the program's name, and the command that they ask for, as `told` says it.
const ROWS: [(&str, &str); 9] = [
    (
        "switch a.toml --port 0 --journal j.jsonl",
        "switch a.toml 0 j.jsonl",
    ),
    (
        "switch --port 65535 a.toml --journal j.jsonl --port 7",
        "switch a.toml 65535,7 j.jsonl",
    ),
    (
        "switch a.toml --binary --port 0 --journal j.jsonl",
        "switch a.toml 0 j.jsonl binary",
    ),
    (
        "source a.toml 0 --store s --journal j.jsonl --binary",
        "source a.toml 0 s j.jsonl binary",
    ),
    (
        "source a.toml 0 --store s --journal j.jsonl",
        "source a.toml 0 s j.jsonl",
    ),
    (
        "source --new a.toml 65535 --journal j.jsonl --store s",
        "source a.toml 65535 s j.jsonl new",
    ),
    (
        "source a.toml 0 --store s --journal ./s",
        "source a.toml 0 s ./s",
    ),
    (
        "source a.toml 0 --store s --journal j.jsonl --clock 0",
        "source a.toml 0 s j.jsonl from 0",
    ),
    (
        "source --clock 9999999999999999999 a.toml 0 --store s --journal j.jsonl",
        "source a.toml 0 s j.jsonl from 9999999999999999999",
    ),
];

// Words that are refused.
const REFUSED: [&str; 21] = [
    "switch a.toml --journal j.jsonl",
    "switch a.toml --port 0",
    "switch --port 0 --journal j.jsonl",
    "switch a.toml --port 65536 --journal j.jsonl",
    "switch a.toml --port 0,1 --journal j.jsonl",
    "switch a.toml --port 0 --port 0 --journal j.jsonl",
    "switch a.toml --port 7 --port 1 --port 07 --journal j.jsonl",
    "switch a.toml --port 0 --journal a.toml",
    "switch a.toml --port 0 --journal -",
    "source a.toml --store s --journal j.jsonl",
    "source a.toml 0 --store s",
    "source a.toml 0 --journal j.jsonl",
    "source a.toml 65536 --store s --journal j.jsonl",
    "source a.toml 0 --store a.toml --journal j.jsonl",
    "source a.toml 0 --store s --journal a.toml",
    "source a.toml 0 --store s --journal s --new",
    "source a.toml 0 --store - --journal j.jsonl",
    "source a.toml 0 --store s --journal -",
    "source a.toml 0 --store s --journal j.jsonl --clock",
    "source a.toml 0 --store s --journal j.jsonl --clock 1s",
    "source a.toml 0 --store s --journal j.jsonl --clock 10000000000000000000",
];

#[test]
fn words_ask_for_these_processes(rt: HostRuntime) -> Result<(), Fail> {
    let alloc = rt.alloc();
    for (words, expected) in ROWS {
        let words: Vec<&str> = words.split(' ').collect(alloc)?;
        match command_words(alloc, words.as_slice()) {
            Ok(command) => assert_eq!(rt; told(alloc, &command)?.as_str(), expected),
            Err(fault) => refused_at_want(fault)?,
        }
    }
    Ok(())
}

#[test]
fn these_words_of_processes_are_refused(rt: HostRuntime) -> Result<(), Fail> {
    let alloc = rt.alloc();
    for text in REFUSED {
        let words: Vec<&str> = text.split(' ').collect(alloc)?;
        match command_words(alloc, words.as_slice()) {
            Ok(_) => assert!(rt; false, "{text}"),
            Err(WordsFault::Words(_)) => {}
            Err(fault) => refused_at_want(fault)?,
        }
    }
    Ok(())
}

// A command in words: its name, its fields in their order, and the flag that is set.
fn told(alloc: Global, command: &Command) -> Result<String, Fail> {
    match command {
        Command::Switch(plan) => switch_told(alloc, plan),
        Command::Source(plan) => source_told(alloc, plan),
        _ => Err(Fail::from("another command")),
    }
}

fn switch_told(alloc: Global, plan: &SwitchPlan) -> Result<String, Fail> {
    let mut ports = String::new(alloc);
    for port in &plan.ports {
        if !ports.is_empty() {
            ports.push_str(",")?;
        }
        write!(ports, "{port}")?;
    }
    flagged(
        alloc,
        &[
            "switch",
            plan.file.as_str(),
            ports.as_str(),
            plan.journal.as_str(),
        ],
        &[("binary", plan.is_binary)],
    )
}

fn source_told(alloc: Global, plan: &SourcePlan) -> Result<String, Fail> {
    let conn = plan.conn;
    let conn = format!(in alloc; "{conn}")?;
    let epoch = epoch_told(alloc, plan.epoch)?;
    flagged(
        alloc,
        &[
            "source",
            plan.file.as_str(),
            conn.as_str(),
            plan.store.as_str(),
            plan.journal.as_str(),
        ],
        &[
            ("new", plan.is_new),
            ("binary", plan.is_binary),
            (epoch.as_str(), plan.epoch.is_some()),
        ],
    )
}

fn epoch_told(alloc: Global, epoch: Option<u64>) -> Result<String, Fail> {
    match epoch {
        Some(epoch) => Ok(format!(in alloc; "from {epoch}")?),
        None => Ok(String::new(alloc)),
    }
}
