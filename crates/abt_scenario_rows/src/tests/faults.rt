use super::{ONE, fault, joined};
use abt_net::NetFault;
use abt_scenario::{Key, ScenarioFault};
use std::alloc::Global;
use std::process::Abort;
use std::test::Fail;

// Demands the fault of a text that is given in pieces.
fn is_told(
    rt: &impl Abort,
    alloc: Global,
    pieces: &[&str],
    expected: ScenarioFault,
) -> Result<(), Fail> {
    let text = joined(alloc, pieces)?;
    let text = text.as_str();
    assert_eq!(rt; fault(alloc, text)?, Some(expected), "{text}");
    Ok(())
}

#[test]
fn what_is_no_toml_is_told_so(rt: HostRuntime) -> Result<(), Fail> {
    let alloc = rt.alloc();
    for text in [
        "ports = [",
        "ports",
        "ports = []\nports = []",
        "ports = [9223372036854775808]",
        "ports = [1 2]",
    ] {
        is_told(&rt, alloc, &[text], ScenarioFault::Toml)?;
    }
    Ok(())
}

#[test]
fn ports_have_to_be_whole_numbers_from_0_on(rt: HostRuntime) -> Result<(), Fail> {
    let alloc = rt.alloc();
    for text in ["", "events = 5\nconnection = 5"] {
        is_told(&rt, alloc, &[text], ScenarioFault::MissingKey(Key::Ports))?;
    }
    for text in [
        "ports = 5",
        "ports = [-1]",
        "ports = [1.0]",
        "ports = [true]",
        "ports = [\"1\"]",
        "ports = [1, [2]]",
        "[ports]",
    ] {
        is_told(&rt, alloc, &[text], ScenarioFault::WrongType(Key::Ports))?;
    }
    Ok(())
}

#[test]
fn all_connections_have_to_be_tables_before_any_key_of_one_is_looked_for(
    rt: HostRuntime,
) -> Result<(), Fail> {
    let alloc = rt.alloc();
    for text in [
        "ports = []\nconnection = 5",
        "ports = []\nconnection = [{}, 5]",
        "ports = []\n[connection]\nvpi = 1",
    ] {
        is_told(
            &rt,
            alloc,
            &[text],
            ScenarioFault::WrongType(Key::Connection),
        )?;
    }
    is_told(
        &rt,
        alloc,
        &["ports = []\nconnection = [{}]"],
        ScenarioFault::MissingKey(Key::Vpi),
    )
}

// Demands the fault of a scenario with a table of these keys, and with events that are no list.
fn is_told_of_keys(
    rt: &impl Abort,
    alloc: Global,
    keys: &str,
    expected: ScenarioFault,
) -> Result<(), Fail> {
    let head = "ports = []\nevents = 5\n[[connection]]\n";
    is_told(rt, alloc, &[head, keys, "\n"], expected)
}

#[test]
fn the_first_key_of_a_connection_that_is_missing_is_named(rt: HostRuntime) -> Result<(), Fail> {
    let alloc = rt.alloc();
    let rows = [
        ("", Key::Vpi),
        ("vpi = 1", Key::Vci),
        ("vpi = 1\nvci = 1", Key::Path),
        ("vpi = 1\nvci = 1\npath = []", Key::Delay),
        ("vpi = 1\nvci = 1\npath = []\ndelay = 0", Key::Tau),
        ("tau = 1\ndelay = 1\npath = []\nvci = 1", Key::Vpi),
    ];
    for (keys, key) in rows {
        is_told_of_keys(&rt, alloc, keys, ScenarioFault::MissingKey(key))?;
    }
    Ok(())
}

#[test]
fn a_number_out_of_its_range_is_of_a_wrong_type(rt: HostRuntime) -> Result<(), Fail> {
    let alloc = rt.alloc();
    let rows = [
        ("vpi = 4096", Key::Vpi),
        ("vpi = -1", Key::Vpi),
        ("vpi = 4095\nvci = 65536", Key::Vci),
        ("vpi = 1\nvci = 65535\npath = 5", Key::Path),
        ("vpi = 1\nvci = 1\npath = [65536]", Key::Path),
        ("vpi = 1\nvci = 1\npath = [65535, -1]", Key::Path),
        ("vpi = 1\nvci = 1\npath = []\ndelay = -1", Key::Delay),
        (
            "vpi = 1\nvci = 1\npath = []\ndelay = 0\ntau = \"5\"",
            Key::Tau,
        ),
        (
            "vpi = 1\nvci = 1\npath = []\ndelay = 0\ntau = 0\nscript = \"crash\"",
            Key::Script,
        ),
        (
            "vpi = 1\nvci = 1\npath = []\ndelay = 0\ntau = 0\nscript = [\"crash\", 5]",
            Key::Script,
        ),
    ];
    for (keys, key) in rows {
        is_told_of_keys(&rt, alloc, keys, ScenarioFault::WrongType(key))?;
    }
    Ok(())
}

#[test]
fn a_connection_is_walked_with_its_script_before_the_next_one(rt: HostRuntime) -> Result<(), Fail> {
    let alloc = rt.alloc();
    is_told(
        &rt,
        alloc,
        &[ONE, "script = 5", "\n[[connection]]\n", "", "\n"],
        ScenarioFault::WrongType(Key::Script),
    )?;
    is_told(
        &rt,
        alloc,
        &[ONE, "script = []", "\n[[connection]]\n", "", "\n"],
        ScenarioFault::MissingKey(Key::Vpi),
    )?;
    is_told(
        &rt,
        alloc,
        &["events = [\"crash 0\", 5]\n", ONE],
        ScenarioFault::WrongType(Key::Events),
    )?;
    is_told(
        &rt,
        alloc,
        &["events = {}\n", ONE],
        ScenarioFault::WrongType(Key::Events),
    )
}

// Demands that a net is refused so before the texts of its events and scripts are read.
fn is_no_net(
    rt: &impl Abort,
    alloc: Global,
    pieces: &[&str],
    expected: NetFault,
) -> Result<(), Fail> {
    is_told(rt, alloc, pieces, ScenarioFault::Net(expected))
}

// Demands the fault of the net of one port whose one connection has this path.
fn is_no_path(rt: &impl Abort, alloc: Global, path: &str, expected: NetFault) -> Result<(), Fail> {
    let head = "ports = [5]\n[[connection]]\nvpi = 1\nvci = 1\npath = ";
    let end = "\ndelay = 0\ntau = 0\nscript = [\"\"]\n";
    is_no_net(rt, alloc, &[head, path, end], expected)
}

#[test]
fn keys_come_before_the_net_and_the_net_before_the_texts(rt: HostRuntime) -> Result<(), Fail> {
    let alloc = rt.alloc();
    for text in [
        "ports = [1152921504606846977]\nevents = [\"\"]",
        "ports = [9223372036854775807]",
    ] {
        is_no_net(&rt, alloc, &[text], NetFault::Limit)?;
    }
    is_told(
        &rt,
        alloc,
        &["ports = [1152921504606846977]\nevents = [5]"],
        ScenarioFault::WrongType(Key::Events),
    )?;
    let connection = 0;
    is_no_path(&rt, alloc, "[1]", NetFault::NoPort { connection })?;
    is_no_path(&rt, alloc, "[]", NetFault::PathLength { connection })?;
    is_no_path(&rt, alloc, "[0, 0]", NetFault::PathRepeat { connection })?;
    is_no_net(
        &rt,
        alloc,
        &[
            ONE,
            "[[connection]]\nvpi = 1\nvci = 100\npath = [0]\ndelay = 0\ntau = 0\n",
        ],
        NetFault::VcRepeat { connection: 1 },
    )
}

// Demands that the event of this number says nothing.
fn is_no_event(rt: &impl Abort, alloc: Global, pieces: &[&str], number: u64) -> Result<(), Fail> {
    is_told(rt, alloc, pieces, ScenarioFault::EventText { number })
}

// Demands that the command of this number says nothing.
fn is_no_command(
    rt: &impl Abort,
    alloc: Global,
    pieces: &[&str],
    connection: u64,
    number: u64,
) -> Result<(), Fail> {
    is_told(
        rt,
        alloc,
        pieces,
        ScenarioFault::ScriptText { connection, number },
    )
}

// Demands that the operation of this number says nothing.
fn is_no_operation(
    rt: &impl Abort,
    alloc: Global,
    pieces: &[&str],
    number: u64,
) -> Result<(), Fail> {
    is_told(rt, alloc, pieces, ScenarioFault::OperatorText { number })
}

#[test]
fn an_operation_that_says_nothing_is_named_by_its_number(rt: HostRuntime) -> Result<(), Fail> {
    let alloc = rt.alloc();
    let rows = [
        ("[\"capacity 0\"]", 1),
        ("[\"capacity 0 5\", \"capacity 65536 5\"]", 2),
        ("[\"capacity 0 5 \"]", 1),
        ("[\"start 0 0\"]", 1),
    ];
    for (operations, number) in rows {
        is_no_operation(&rt, alloc, &["ports = []\noperator = ", operations], number)?;
    }
    // Scripts are read before it, and its key is looked for behind the events.
    is_no_command(
        &rt,
        alloc,
        &["operator = [\"\"]\n", ONE, "script = [\"\"]\n"],
        0,
        1,
    )?;
    is_told(
        &rt,
        alloc,
        &["ports = []\noperator = 5\nevents = [5]"],
        ScenarioFault::WrongType(Key::Events),
    )?;
    is_told(
        &rt,
        alloc,
        &["ports = []\noperator = [5]"],
        ScenarioFault::WrongType(Key::Operator),
    )
}

#[test]
fn a_text_that_says_nothing_is_named_by_its_number(rt: HostRuntime) -> Result<(), Fail> {
    let alloc = rt.alloc();
    let rows = [
        ("[\"ask 0 52580\"]", 1),
        ("[\"start 0  0\"]", 1),
        ("[\"crash 0\", \"start 0 00000000000000000000\"]", 2),
        ("[\"crash 0\", \"crash 0\", \"crash 0 \", \"\"]", 3),
    ];
    for (events, number) in rows {
        is_no_event(&rt, alloc, &["ports = []\nevents = ", events], number)?;
    }
    let emit = "script = [\"start 0\", \"emit 5\"]\n";
    is_no_command(&rt, alloc, &[ONE, emit], 0, 2)?;
    is_no_event(
        &rt,
        alloc,
        &["events = [\"\"]\n", ONE, "script = [\"\"]\n"],
        1,
    )?;
    let second =
        "[[connection]]\nvpi = 2\nvci = 1\npath = [0]\ndelay = 0\ntau = 0\nscript = [\"\"]\n";
    is_no_command(&rt, alloc, &[ONE, "script = [\"crash\"]\n", second], 1, 1)
}
