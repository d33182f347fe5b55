//! The command line: which words ask for which command.
#![tactic(auto)]

mod apart;
mod command;
mod decimal;
mod environment;
mod examples;
mod hand_line;
mod hand_words;
mod line;
mod live_line;
mod live_names;
mod live_words;
mod log_words;
mod lost;
mod names;
mod notes;
mod picture_words;
mod plans;
mod progress_shown;
mod readers;
mod scenario_words;
mod telling;
mod terminal;
mod words;

pub use command::{AuditCommand, CheckCommand, Command, DrawCommand, LogCommand, ThreadsCommand};
pub use environment::given_command;
pub use notes::rate_note;
pub use progress_shown::shows_progress;
pub use telling::answer_words;
pub use terminal::on_terminal;
pub use words::{command_words, plan_words};
