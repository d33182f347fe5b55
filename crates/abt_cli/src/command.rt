//! The commands of the program, with what their words name.
use abt_codes::{MessageWords, SaidRate};
use abt_plans::{AnswerForm, PicturePlan, PlayPlan, SourcePlan, SwitchPlan};
use abt_weave::Actor;

/// A command, and what its words name. A scenario whose file is `None` is that of the standard input.
#[derive(Drop)]
pub enum Command {
    /// Say what a rate code, as text, means.
    Rate {
        code: String,
        json: bool,
    },
    /// Say what an RM cell, as hexadecimal text, says; without a cell, what each line of the standard input says.
    Cell {
        cell: Option<String>,
        json: bool,
    },
    /// Serve RM cells, as hexadecimal text, at one port of this capacity in units of 1/512 cell/s; without cells, those of the lines of
    /// the standard input.
    Port {
        capacity: u64,
        cells: Option<Vec<String>>,
        json: bool,
    },
    /// Run a scenario, and report what each of its events answered; with `explain`, tell a check of it besides; with `strict`, refuse one
    /// of which an event isn't enabled.
    Run {
        file: Option<String>,
        json: bool,
        explain: bool,
        strict: bool,
        quiet: bool,
    },
    /// Run a scenario's scripts in threads.
    Threads(ThreadsCommand),
    /// Run a scenario, and tell each of its events with its reason.
    Explain {
        file: Option<String>,
        json: bool,
        quiet: bool,
    },
    /// Tell what is wrong or doubtful in scenarios.
    Check(CheckCommand),
    /// Say whether journals are those of one safe run.
    Audit(AuditCommand),
    /// Say whether the log of one port or one source obeys, judged alone.
    AuditLog(LogCommand),
    /// Judge the arrivals of cells, a line of the standard input each, by a tolerance in picoseconds and a rate.
    Police {
        tau: u64,
        rate: SaidRate,
        json: bool,
    },
    /// Say when cells leave at a rate, a line of the standard input each.
    Shape {
        rate: SaidRate,
        json: bool,
    },
    /// Let events happen to the net of a scenario's file, a line of the standard input each.
    Step {
        file: String,
        form: AnswerForm,
    },
    /// Play a scenario's scripts in one thread.
    Play(PlayPlan),
    /// Say which codes are nearest to the rate that a text says.
    Code {
        rate: String,
        json: bool,
    },
    /// Write the RM cell of a message.
    Write {
        words: MessageWords,
        json: bool,
    },
    /// Draw a scenario.
    Draw(DrawCommand),
    /// Be ports of a switch, a line of the standard input each message.
    Switch(SwitchPlan),
    /// Be the source of a connection, a line of the standard input each command and answer.
    Source(SourcePlan),
}

/// A run of a scenario's scripts in threads.
#[derive(Drop)]
pub struct ThreadsCommand {
    /// The file of the scenario, or `None` for the standard input.
    pub file: Option<String>,
    /// How many link workers there are, 1 to 64.
    pub workers: u16,
    /// Whether the events that were woven are said as JSON; then no file is written, and nothing else is told.
    pub json: bool,
    /// The file for the journals of the run, if they are to be written; then there is neither of the next two.
    pub journals: Option<String>,
    /// The file for the events that were woven, as a scenario, if they are to be written.
    pub events: Option<String>,
    /// Whether the events that were woven are told with their reasons, and a check of the scenario.
    pub explain: bool,
    /// Whether nothing is shown of how far it is.
    pub quiet: bool,
}

/// A check of scenarios.
#[derive(Drop)]
pub struct CheckCommand {
    /// The files of the scenarios, in this order; the standard input, if there are none.
    pub files: Vec<String>,
    /// Whether it is told as JSON.
    pub json: bool,
    /// Whether each line names its file as editors read it, also if there is one file alone.
    pub located: bool,
    /// Whether it is tested that the events have the outcomes that the scenarios expect; then it is told as tests.
    pub expect: bool,
}

/// An audit of journals.
#[derive(Drop)]
pub struct AuditCommand {
    /// The files of the journals, in this order; the standard input, if there are none.
    pub files: Vec<String>,
    /// The file for the net and the events, as a scenario, if they are to be written.
    pub events: Option<String>,
    /// What is to be shown of the events, and into which file, if they are to be drawn.
    pub picture: Option<PicturePlan>,
    /// Whether what is found is told as JSON.
    pub json: bool,
    /// Whether nothing is shown of how far it is.
    pub quiet: bool,
}

/// An audit of the log of one port, or of one source.
#[derive(Drop)]
pub struct LogCommand {
    /// The files of the journals, in this order; the standard input, if there are none.
    pub files: Vec<String>,
    /// Whose log is judged. The entries of all others are read, and not judged.
    pub actor: Actor,
    /// Whether what is found is told as JSON.
    pub json: bool,
    /// Whether nothing is shown of how far it is.
    pub quiet: bool,
}

/// A picture of a scenario's run.
#[derive(Drop)]
pub struct DrawCommand {
    /// The file of the scenario, or `None` for the standard input.
    pub file: Option<String>,
    /// How many link workers there are, 1 to 64, if its scripts are to run in threads and the events that were woven to be drawn.
    pub workers: Option<u16>,
    /// The file for the events that were woven, as a scenario, if they are to be written; only with `workers`.
    pub events: Option<String>,
    /// What is to be shown, and into which file.
    pub picture: PicturePlan,
}
