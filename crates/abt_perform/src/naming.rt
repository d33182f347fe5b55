//! The names of faults as the program prints them (docs/FORMATS.md, "The program").
ghost use Rattle.std.specs.Prelude.{◌≡◌, codes};
ghost use Rattle.abt_text.specs.Text.{◌⋅◌, decimal};
ghost use Rattle.abt_perform.specs.Names.{fault_name, scenario_fault_name, net_fault_name, rm_fault_name};
ghost use Rattle.abt_perform.specs.Words.{text_of_name};

use crate::fault::Fault;
use abt_cell::RmFault;
use abt_net::NetFault;
use abt_scenario::{Key, ScenarioFault};

/// A fault's name: a word or two, and the fields of the fault, each behind a space.
#[derive(Clone, Copy)]
pub(crate) struct FaultName {
    pub(crate) words: &'static str,
    pub(crate) fields: Fields,
}

/// The fields of a fault.
#[derive(Clone, Copy)]
pub(crate) enum Fields {
    /// There are none.
    None,
    /// A key of a scenario.
    Key(Key),
    /// One number.
    One(u64),
    /// Two numbers.
    Two(u64, u64),
}

/// The name of a fault.
pub(crate) fn name_of(fault: Fault) -> FaultName
    ensures { text_of_name result ≡ fault_name fault }
{
    match fault {
        Fault::Code => words_alone("code"),
        Fault::Hex => words_alone("hex"),
        Fault::Length => words_alone("Length"),
        Fault::Rm(fault) => words_alone(rm_fault_name(fault)),
        Fault::Full => words_alone("Full"),
        Fault::Read => words_alone("read"),
        Fault::TooLong => words_alone("TooLong"),
        Fault::NotUtf8 => words_alone("NotUtf8"),
        Fault::Scenario(fault) => scenario_name_of(fault),
        Fault::Workers => words_alone("Workers"),
        Fault::Scripts => words_alone("Scripts"),
        Fault::Operator => words_alone("Operator"),
        Fault::Thread => words_alone("Thread"),
        Fault::Wound => words_alone("Wound"),
        Fault::Gather => words_alone("Gather"),
        Fault::NoOrder => words_alone("NoOrder"),
        Fault::Mismatch => words_alone("Mismatch"),
        Fault::Write => words_alone("write"),
        Fault::Memory => words_alone("memory"),
    }
}

// A name without fields.
fn words_alone(words: &'static str) -> FaultName
    ensures { text_of_name result ≡ words.now }
{
    FaultName {
        words,
        fields: Fields::None,
    }
}

// A name with one number.
fn numbered(words: &'static str, number: u64) -> FaultName
    ensures { text_of_name result ≡ words.now ⋅ codes " " ⋅ decimal number }
{
    FaultName {
        words,
        fields: Fields::One(number),
    }
}

fn scenario_name_of(fault: ScenarioFault) -> FaultName
    ensures { text_of_name result ≡ scenario_fault_name fault }
{
    match fault {
        ScenarioFault::Toml => words_alone("Toml"),
        ScenarioFault::MissingKey(key) => FaultName {
            words: "MissingKey",
            fields: Fields::Key(key),
        },
        ScenarioFault::WrongType(key) => FaultName {
            words: "WrongType",
            fields: Fields::Key(key),
        },
        ScenarioFault::Net(fault) => net_name_of(fault),
        ScenarioFault::EventText { number } => numbered("EventText", number),
        ScenarioFault::ScriptText { connection, number } => FaultName {
            words: "ScriptText",
            fields: Fields::Two(connection, number),
        },
        ScenarioFault::OperatorText { number } => numbered("OperatorText", number),
        ScenarioFault::Memory => words_alone("memory"),
    }
}

// The name of the fault of a scenario's net.
fn net_name_of(fault: NetFault) -> FaultName
    ensures { text_of_name result ≡ codes "Net " ⋅ net_fault_name fault }
{
    match fault {
        NetFault::NoPort { connection } => numbered("Net NoPort", connection),
        NetFault::PathLength { connection } => numbered("Net PathLength", connection),
        NetFault::PathRepeat { connection } => numbered("Net PathRepeat", connection),
        NetFault::VcRepeat { connection } => numbered("Net VcRepeat", connection),
        NetFault::Limit => words_alone("Net Limit"),
        NetFault::Memory => words_alone("Net memory"),
    }
}

fn rm_fault_name(fault: RmFault) -> &'static str
    ensures { result.now ≡ rm_fault_name fault }
{
    match fault {
        RmFault::NotRm => "NotRm",
        RmFault::Crc => "Crc",
        RmFault::Protocol => "Protocol",
        RmFault::Maintenance => "Maintenance",
        RmFault::Elastic => "Elastic",
        RmFault::Direction => "Direction",
        RmFault::SeqZero => "SeqZero",
        RmFault::RateOrder => "RateOrder",
    }
}
