//! Which command words ask for: a row for each option of each command, where it is there and where it isn't.
use super::command_told::told;
use abt_cli::command_words;
use abt_perform::WordsFault;
use std::alloc::Global;
use std::process::Abort;
use std::test::Fail;

// Words behind the program's name, and the command that they ask for, as `told` says it. A field that is empty is told as `-`.
const ROWS: [(&str, &str); 51] = [
    ("rate 53e8", "rate 53e8"),
    ("rate 53e8 --json", "rate 53e8 json"),
    ("rate --json 53e8", "rate 53e8 json"),
    ("cell 00", "cell 00"),
    ("cell 00 --json", "cell 00 json"),
    ("cell --stdin", "cell -"),
    ("cell --stdin --json", "cell - json"),
    ("port 7 00 11 zz", "port 7 00,11,zz"),
    ("port 007 00", "port 7 00"),
    ("port 7 --stdin", "port 7 -"),
    ("port --stdin 7", "port 7 -"),
    ("port 7 00 --json", "port 7 00 json"),
    ("port 7 --stdin --json", "port 7 - json"),
    ("run", "run -"),
    ("run a.toml", "run a.toml"),
    ("run a.toml --json", "run a.toml json"),
    ("run a.toml --explain", "run a.toml explain"),
    ("run a.toml --strict", "run a.toml strict"),
    ("run --strict --json a.toml", "run a.toml json strict"),
    ("run --quiet", "run - quiet"),
    ("run --explain --quiet a.toml", "run a.toml explain quiet"),
    ("threads --workers 4", "threads - 4 - -"),
    ("threads a.toml --workers 64", "threads a.toml 64 - -"),
    (
        "threads --workers 004 a.toml --journals j.jsonl",
        "threads a.toml 4 j.jsonl -",
    ),
    (
        "threads a.toml --workers 4 --events e.toml",
        "threads a.toml 4 - e.toml",
    ),
    (
        "threads a.toml --workers 4 --explain",
        "threads a.toml 4 - - explain",
    ),
    (
        "threads a.toml --workers 4 --json --quiet",
        "threads a.toml 4 - - json quiet",
    ),
    (
        "threads a.toml --workers 4 --quiet",
        "threads a.toml 4 - - quiet",
    ),
    (
        "threads a.toml --workers 4 --events e.toml --explain --quiet",
        "threads a.toml 4 - e.toml explain quiet",
    ),
    ("explain", "explain -"),
    ("explain a.toml --json", "explain a.toml json"),
    ("explain a.toml --quiet", "explain a.toml quiet"),
    ("check", "check -"),
    ("check a.toml", "check a.toml"),
    ("check a.toml --json", "check a.toml json"),
    ("check a.toml b.toml", "check a.toml,b.toml"),
    ("check --located a.toml", "check a.toml located"),
    (
        "check a.toml --json b.toml --located",
        "check a.toml,b.toml json located",
    ),
    ("check --expect", "check - expect"),
    ("check --expect a.toml b.toml", "check a.toml,b.toml expect"),
    ("audit", "audit - -"),
    ("audit a.jsonl b.jsonl", "audit a.jsonl,b.jsonl -"),
    ("audit a.jsonl --events e.toml", "audit a.jsonl e.toml"),
    ("audit --quiet a.jsonl", "audit a.jsonl - quiet"),
    ("audit --json a.jsonl", "audit a.jsonl - json"),
    (
        "audit a.jsonl --draw d.svg",
        "audit a.jsonl - picture d.svg - 0 0",
    ),
    (
        "audit a.jsonl --events e.toml --draw d.html --only 0,2 --from 3 --to 9",
        "audit a.jsonl e.toml page d.html 0,2 3 9",
    ),
    ("audit --port 0", "audit port 0 -"),
    (
        "audit a.jsonl b.jsonl --port 65535",
        "audit port 65535 a.jsonl,b.jsonl",
    ),
    (
        "audit --quiet a.jsonl --source 007",
        "audit source 7 a.jsonl quiet",
    ),
    ("audit --json a.jsonl --port 1", "audit port 1 a.jsonl json"),
];

// The same of parts by hand, nets that are asked line by line, plays, pictures and processes.
const OTHER_ROWS: [(&str, &str); 38] = [
    ("police --tau 200 --rate 53e8", "police 200 512000"),
    ("police --rate 1000cps --tau 0", "police 0 512000"),
    ("police --rate 1000.5cps --tau 2ns", "police 2000 512000"),
    (
        "police --json --tau 200 --rate 53e8",
        "police 200 512000 json",
    ),
    ("shape --rate 53e8", "shape 512000"),
    ("shape --rate 53e8 --json", "shape 512000 json"),
    ("step a.toml", "step a.toml"),
    ("step a.toml --json", "step a.toml json"),
    ("step --state a.toml", "step a.toml state"),
    ("step a.toml --json --state", "step a.toml json state"),
    ("step a.toml --possible", "step a.toml possible"),
    (
        "step --possible --state a.toml",
        "step a.toml state possible",
    ),
    ("play --seed 1", "play - 1 0 0 4294967295 -"),
    (
        "play a.toml --seed 9223372036854775807",
        "play a.toml 9223372036854775807 0 0 4294967295 -",
    ),
    (
        "play a.toml --seed 1 --loss 20",
        "play a.toml 1 20 0 4294967295 -",
    ),
    (
        "play a.toml --seed 1 --repeat 30",
        "play a.toml 1 0 30 4294967295 -",
    ),
    ("play a.toml --seed 1 --delay 40", "play a.toml 1 0 0 40 -"),
    (
        "play a.toml --delay 0 --repeat 100 --loss 100 --events e.toml --seed 0",
        "play a.toml 0 100 100 0 e.toml",
    ),
    (
        "play a.toml --seed 1 --draw d.svg",
        "play a.toml 1 0 0 4294967295 - picture d.svg - 0 0",
    ),
    (
        "play --seed 1 --events e.toml --draw d.html --only 0,2 --from 3 --to 9",
        "play - 1 0 0 4294967295 e.toml page d.html 0,2 3 9",
    ),
    ("code 1.3Mbps", "code 1.3Mbps"),
    ("code 1.3Mbps --json", "code 1.3Mbps json"),
    (
        "write request 1 2 3 0000 5258",
        "write request 1 2 3 0000 5258",
    ),
    ("write yes 1 2 3 0000 5258", "write yes 1 2 3 0000 5258"),
    ("write no 1 2 3 0000 5258", "write no 1 2 3 0000 5258"),
    (
        "write --json no 1 2 3 0000 5258",
        "write no 1 2 3 0000 5258 json",
    ),
    ("draw -o d.svg", "draw - - - picture d.svg - 0 0"),
    ("draw - -o -", "draw - - - picture - - 0 0"),
    ("run -", "run -"),
    (
        "draw a.toml --output d.html",
        "draw a.toml - - page d.html - 0 0",
    ),
    (
        "draw a.toml --output d.txt",
        "draw a.toml - - text d.txt - 0 0",
    ),
    (
        "draw a.toml -o d.svg --only 7",
        "draw a.toml - - picture d.svg 7 0 0",
    ),
    (
        "draw a.toml -o d.svg --from 5",
        "draw a.toml - - picture d.svg - 5 0",
    ),
    (
        "draw a.toml -o d.svg --to 6",
        "draw a.toml - - picture d.svg - 0 6",
    ),
    (
        "draw a.toml -o d.svg --workers 4",
        "draw a.toml 4 - picture d.svg - 0 0",
    ),
    (
        "draw a.toml -o d.svg --workers 4 --events e.toml",
        "draw a.toml 4 e.toml picture d.svg - 0 0",
    ),
    (
        "draw -o ./a.svg a.svg",
        "draw a.svg - - picture ./a.svg - 0 0",
    ),
    ("audit e.toml --events ./e.toml", "audit e.toml ./e.toml"),
];

// Words that are refused, beside those of a plan (`plans`).
const REFUSED: [&str; 62] = [
    "none",
    "rate 53e8 --stdin",
    "cell 00 --stdin",
    "port 7 00 --stdin",
    "code 1.3Mbps --quiet",
    "run --json --explain",
    "run --strict --explain",
    "run --journals j.jsonl",
    "threads --workers 4 --json --explain",
    "threads --workers 4 --json --events e.toml",
    "threads --workers 4 --json --journals j.jsonl",
    "threads --workers 4 --journals j.jsonl --events e.toml",
    "threads --workers 4 --journals j.jsonl --explain",
    "threads a.toml --workers 4 --journals a.toml",
    "threads a.toml --workers 4 --events a.toml",
    "threads --workers 4 --events -",
    "threads --workers 4 --journals -",
    "explain a.toml b.toml",
    "check --quiet",
    "check --expect --json a.toml",
    "check --expect --located a.toml",
    "audit e.toml --events e.toml",
    "audit a.jsonl e.toml --events e.toml",
    "audit d.svg --draw d.svg",
    "audit --events d.svg --draw d.svg",
    "audit --events -",
    "audit --draw -",
    "audit --draw d.png",
    "audit --only 0",
    "audit --draw d.svg --from 0",
    "audit --draw d.svg --only 0,",
    "audit --port 65536",
    "audit --port x",
    "audit --source 0x1",
    "audit --port",
    "audit --port 0 --port 1",
    "audit --port 0 --source 0",
    "audit --port 0 --events e.toml",
    "audit --source 0 --draw d.svg",
    "police --tau 1000000000001 --rate 53e8",
    "police --tau 200",
    "shape --rate 53e",
    "step",
    "step a.toml --quiet",
    "play a.toml",
    "play a.toml --seed 9223372036854775808",
    "play a.toml --seed 1 --loss 101",
    "play a.toml --seed 1 --delay 4294967296",
    "play a.toml --seed 1 --events a.toml",
    "play d.svg --seed 1 --draw d.svg",
    "play --seed 1 --events d.svg --draw d.svg",
    "play --seed 1 --draw -",
    "play --seed 1 --draw d.png",
    "play --seed 1 --only 0",
    "play --seed 1 --draw d.svg --from 0",
    "write maybe 1 2 3 0000 5258",
    "draw a.toml",
    "draw a.svg -o a.svg",
    "draw -o d.svg --events e.toml",
    "draw -o d.svg --workers 65",
    "draw -o d.svg --workers 4 --events -",
    "draw -o d.svg --workers 4 --events d.svg",
];

// Each row's words ask for its command.
fn each_asks(rt: &impl Abort, alloc: Global, rows: &[(&str, &str)]) -> Result<(), Fail> {
    for (words, expected) in rows {
        let words: Vec<&str> = words.split(' ').collect(alloc)?;
        match command_words(alloc, words.as_slice()) {
            Ok(command) => assert_eq!(rt; told(alloc, &command)?.as_str(), *expected),
            Err(fault) => refused_at_want(fault)?,
        }
    }
    Ok(())
}

#[test]
fn words_ask_for_these_commands(rt: HostRuntime) -> Result<(), Fail> {
    each_asks(&rt, rt.alloc(), &ROWS)
}

#[test]
fn other_words_ask_for_these_commands(rt: HostRuntime) -> Result<(), Fail> {
    each_asks(&rt, rt.alloc(), &OTHER_ROWS)
}

#[test]
fn these_words_are_refused(rt: HostRuntime) -> Result<(), Fail> {
    let alloc = rt.alloc();
    for text in REFUSED {
        let words: Vec<&str> = text.split(' ').collect(alloc)?;
        match command_words(alloc, words.as_slice()) {
            Ok(_) => assert!(rt; false, "{text}"),
            Err(WordsFault::Words(_)) => {}
            Err(fault) => refused_at_want(fault)?,
        }
    }
    Ok(())
}

// Want of memory, and no other fault.
pub(crate) fn refused_at_want(fault: WordsFault) -> Result<(), Fail> {
    match fault {
        WordsFault::Memory => Ok(()),
        WordsFault::Words(_) | WordsFault::Help(_) => Err(Fail::from("the words are refused")),
    }
}
