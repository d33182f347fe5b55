//! The program: what a rate code means, what an RM cell says, what a port of a switch does with RM cells, what a whole net does in a
//! scenario, and what is shown of a run of it in threads.
#![tactic(auto)]

mod piped;

use crate::piped::{Beside, Piped, status_of};
use abt_cli::{answer_words, given_command, on_terminal, rate_note, shows_progress};
use abt_commands::carry_out_command;
use abt_files::fill_streams;
use abt_perform::{OPEN_LINE, tell_text};
use abt_progress::{Cleared, Progress, Watched, draws_line};
use std::cell::Cell;
use std::env;
use std::io::IsTerminal;
use std::process::ExitCode;

fn main(rt: HostRuntime) -> ExitCode {
    if fill_streams(&rt).is_err() {
        tell_text(&mut rt.stderr(), OPEN_LINE);
        return ExitCode::from(1);
    }
    let command = match given_command(&rt) {
        Ok(command) => command,
        Err(fault) => {
            let status = answer_words(&fault, &mut rt.stdout(), &mut rt.stderr());
            return ExitCode::from(status);
        }
    };
    let command = if rt.stdout().is_terminal() {
        on_terminal(command)
    } else {
        command
    };
    let is_terminal = rt.stderr().is_terminal();
    let kind = kind_of_terminal(&rt);
    let kind = match &kind {
        Some(kind) => Some(kind.as_str()),
        None => None,
    };
    let terminal = if draws_line(shows_progress(&command), is_terminal, kind) {
        Some(rt.stderr())
    } else {
        None
    };
    let is_left = Cell::new(false);
    let progress = Progress::new(rt.alloc(), terminal);
    let mut input = Watched::new(rt.stdin(), &progress);
    let mut out = Cleared::new(Piped::new(rt.stdout(), &is_left), &progress);
    let mut told = Cleared::new(Beside::new(rt.stderr(), &is_left), &progress);
    let hints = is_terminal;
    if let Ok(Some(line)) = rate_note(rt.alloc(), &command) {
        tell_text(&mut told, line.as_str());
    }
    let status = carry_out_command(
        &rt, &progress, command, hints, &mut input, &mut out, &mut told,
    );
    progress.clear();
    ExitCode::from(status_of(status, is_left.get()))
}

// The kind of terminal that the environment names, if it names one.
fn kind_of_terminal(rt: &HostRuntime) -> Option<String> {
    env::var(rt, "TERM").ok()
}
