use super::{A, planned};
use abt_cli::plan_words;
use abt_perform::{Plan, WordsFault};
use std::alloc::Global;
use std::process::Abort;
use std::test::Fail;

fn is_rate(rt: &impl Abort, alloc: Global, words: &[&str], expected: &str) -> Result<(), Fail> {
    let Plan::Rate(code) = planned(alloc, words)? else {
        return Err(Fail::from("no rate"));
    };
    assert_eq!(rt; code.as_str(), expected);
    Ok(())
}

fn is_cell(rt: &impl Abort, alloc: Global, words: &[&str], expected: &str) -> Result<(), Fail> {
    let Plan::Cell(hex) = planned(alloc, words)? else {
        return Err(Fail::from("no cell"));
    };
    assert_eq!(rt; hex.as_str(), expected);
    Ok(())
}

fn is_port(
    rt: &impl Abort,
    alloc: Global,
    words: &[&str],
    number: u64,
    texts: &[&str],
) -> Result<(), Fail> {
    let Plan::Port { capacity, cells } = planned(alloc, words)? else {
        return Err(Fail::from("no port"));
    };
    assert_eq!(rt; capacity, number);
    are_texts(rt, &cells, texts);
    Ok(())
}

fn are_texts(rt: &impl Abort, found: &Vec<String>, expected: &[&str]) {
    assert_eq!(rt; found.len(), expected.len());
    for (text, word) in found.iter().zip(expected) {
        assert_eq!(rt; text.as_str(), *word);
    }
}

// Demands a run of this file, or of the standard input if there is none.
fn is_run(
    rt: &impl Abort,
    alloc: Global,
    words: &[&str],
    expected: Option<&str>,
) -> Result<(), Fail> {
    let Plan::Run(file) = planned(alloc, words)? else {
        return Err(Fail::from("no run"));
    };
    is_file(rt, &file, expected);
    Ok(())
}

fn is_file(rt: &impl Abort, found: &Option<String>, expected: Option<&str>) {
    match found {
        Some(file) => assert_eq!(rt; Some(file.as_str()), expected),
        None => assert!(rt; expected.is_none()),
    }
}

#[test]
fn words_are_plans(rt: HostRuntime) -> Result<(), Fail> {
    let alloc = rt.alloc();
    is_rate(&rt, alloc, &["rate", "53e8"], "53e8")?;
    is_cell(&rt, alloc, &["cell", A], A)?;
    for (word, number) in [
        ("0", 0),
        ("512000", 512000),
        ("0005", 5),
        ("1152921504606846976", 1152921504606846976),
        ("00001152921504606846976", 1152921504606846976),
        ("000000000000000000000000000000", 0),
    ] {
        is_port(
            &rt,
            alloc,
            &["port", word, A, "zz", ""],
            number,
            &[A, "zz", ""],
        )?;
    }
    is_run(&rt, alloc, &["run"], None)?;
    is_run(&rt, alloc, &["run", "net.toml"], Some("net.toml"))
}

// Demands so many link workers, and a run of this file, or of the standard input if there is none.
fn is_threads(
    rt: &impl Abort,
    alloc: Global,
    words: &[&str],
    number: u16,
    expected: Option<&str>,
) -> Result<(), Fail> {
    let Plan::Threads { file, workers } = planned(alloc, words)? else {
        return Err(Fail::from("no threads"));
    };
    assert_eq!(rt; workers, number);
    is_file(rt, &file, expected);
    Ok(())
}

#[test]
fn words_are_plans_for_threads(rt: HostRuntime) -> Result<(), Fail> {
    let alloc = rt.alloc();
    for (word, number) in [
        ("1", 1),
        ("4", 4),
        ("64", 64),
        ("004", 4),
        ("00000000000000000004", 4),
        ("000000000000000000000000000064", 64),
    ] {
        is_threads(&rt, alloc, &["threads", "--workers", word], number, None)?;
    }
    for words in [
        ["threads", "net.toml", "--workers", "4"],
        ["threads", "--workers", "4", "net.toml"],
    ] {
        is_threads(&rt, alloc, &words, 4, Some("net.toml"))?;
    }
    Ok(())
}

fn is_refused(words: &[&str], alloc: Global) -> bool {
    matches!(plan_words(alloc, words), Err(WordsFault::Words(_)))
}

// Demands that some words are refused.
fn refused(rt: &impl Abort, alloc: Global, words: &[&str]) {
    assert!(rt; is_refused(words, alloc));
}

// Demands that a count of link workers is refused, without a file and with one.
fn workers_refused(rt: &impl Abort, alloc: Global, word: &str) {
    assert!(rt;
        is_refused(&["threads", "--workers", word], alloc),
        "{word}"
    );
    assert!(rt;
        is_refused(&["threads", "net.toml", "--workers", word], alloc),
        "{word}"
    );
}

#[test]
fn link_workers_are_one_to_64_in_digits_alone(rt: HostRuntime) {
    let alloc = rt.alloc();
    refused(&rt, alloc, &["threads"]);
    refused(&rt, alloc, &["threads", "net.toml"]);
    refused(&rt, alloc, &["threads", "--workers"]);
    for word in [
        "0",
        "00",
        "65",
        "+4",
        "-4",
        "x",
        "",
        "4x",
        " 4",
        "4.0",
        "0x4",
        "65540",
        "18446744073709551620",
        "00000000000000000000",
        "00000000000000000065",
        "0000000000000000004x",
        "999999999999999999999999999999",
    ] {
        workers_refused(&rt, alloc, word);
    }
    refused(&rt, alloc, &["threads", "--workers", "4", "--workers", "4"]);
    refused(
        &rt,
        alloc,
        &["threads", "a.toml", "b.toml", "--workers", "4"],
    );
    refused(&rt, alloc, &["run", "--workers", "4"]);
}

#[test]
fn other_words_are_refused(rt: HostRuntime) {
    let alloc = rt.alloc();
    refused(&rt, alloc, &[]);
    refused(&rt, alloc, &["port"]);
    refused(&rt, alloc, &["port", "512000"]);
    refused(&rt, alloc, &["port", "+5", A]);
    refused(&rt, alloc, &["port", "-5", A]);
    refused(&rt, alloc, &["port", "", A]);
    refused(&rt, alloc, &["port", "5k", A]);
    refused(&rt, alloc, &["port", "1152921504606846977", A]);
    refused(&rt, alloc, &["port", "00001152921504606846977", A]);
    refused(&rt, alloc, &["port", "18446744073709551616", A]);
    refused(&rt, alloc, &["port", "999999999999999999999999999999", A]);
    refused(&rt, alloc, &["port", "0000000000000000000000000000x5", A]);
    refused(&rt, alloc, &["rate"]);
    refused(&rt, alloc, &["rate", "53e8", "53e8"]);
    refused(&rt, alloc, &["cell"]);
    refused(&rt, alloc, &["run", "a.toml", "b.toml"]);
    refused(&rt, alloc, &["port", "--capacity", "5", A]);
}

#[test]
fn help_shows_each_command_with_an_example(rt: HostRuntime) -> Result<(), Fail> {
    let alloc = rt.alloc();
    for (word, usage, example) in [
        (
            "rate",
            "Usage: abt rate [OPTIONS] <CODE>",
            "53e8 units 512000 spacing 1000000000",
        ),
        (
            "cell",
            "Usage: abt cell [OPTIONS] [HEX]",
            "request vpi 1 vci 100 seq 1 floor 0000 ask 5258",
        ),
        (
            "port",
            "Usage: abt port [OPTIONS] <CAPACITY> [HEX]...",
            "total 307200",
        ),
        (
            "run",
            "Usage: abt run [OPTIONS] [FILE]",
            "port 0 total 0 capacity 512000",
        ),
        (
            "threads",
            "Usage: abt threads [OPTIONS] --workers <N> [FILE]",
            "gathered",
        ),
    ] {
        is_helped(&rt, alloc, &[word, "--help"], &[usage, example])?;
    }
    is_helped(&rt, alloc, &["--help"], &["abt port 512000"])?;
    is_helped(&rt, alloc, &["--version"], &["abt 0.1.0\n"])
}

// Demands help that says all of these.
fn is_helped(
    rt: &impl Abort,
    alloc: Global,
    words: &[&str],
    expected: &[&str],
) -> Result<(), Fail> {
    let Err(WordsFault::Help(text)) = plan_words(alloc, words) else {
        return Err(Fail::from("no help"));
    };
    for part in expected {
        says(rt, text.as_str(), part);
    }
    Ok(())
}

fn says(rt: &impl Abort, text: &str, part: &str) {
    assert!(rt; text.contains(part), "{text}");
}
