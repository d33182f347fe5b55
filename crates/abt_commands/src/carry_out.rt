//! The commands of the program, carried out.
ghost use Rattle.abt_commands.specs.Carried.{IsCarriedOut};
ghost use Rattle.abt_cli.specs.Commands.{IsAllowed};

use crate::audit::audit;
use crate::audit_log::audit_log;
use crate::cell::cell;
use crate::check::check;
use crate::codes::say_codes;
use crate::draw::draw;
use crate::explain::explain;
use crate::lines::answer_lines;
use crate::play::play;
use crate::port::port;
use crate::rate::rate;
use crate::run::run;
use crate::source::source;
use crate::step::step;
use crate::switch::switch;
use crate::threads::threads;
use abt_cli::Command;
use abt_codes::CodesPlan;
use abt_live_files::Stores;
use abt_parts::PartsPlan;
use abt_progress::Progress;
use std::alloc::AllocGlobal;
use std::io::{Read, Write};
use std::rt::{Clock, Files};
use std::sync::Wait;
use std::thread::Threads;

/// Carries a command out over the files that it names, or else over an input that is there, and gives the exit status: 0 if it is
/// done, and 1 if a line on `errors` tells why not, or a check tells a fault. What is read of files that may be long is counted. With
/// `advised`, as on a terminal, `errors` are told besides who says what is wrong in a scenario, and which command runs one that has nothing
/// to run for this one.
pub fn carry_out_command<T, R: Read, W: Write, E: Write, P: Write + Drop>(
    rt: &T,
    progress: &Progress<P>,
    command: Command,
    advised: bool,
    input: &mut R,
    out: &mut W,
    errors: &mut E,
) -> u8
where
    T: Files + AllocGlobal + Clock + Stores + Threads + Wait + Sync,
    requires { IsAllowed command }
    ensures { IsCarriedOut T.Store.content T.File.contents advised command result
        (R.remaining input.old) (R.remaining input.new) (W.contents out.old) (W.contents out.new)
        (E.contents errors.old) (E.contents errors.new) }
{
    let alloc = rt.alloc();
    match command {
        Command::Rate { code, json } => rate(alloc, code, json, input, out, errors),
        Command::Cell { cell: hex, json } => cell(alloc, hex, json, advised, input, out, errors),
        Command::Port {
            capacity,
            cells,
            json,
        } => port(alloc, capacity, cells, json, input, out, errors),
        Command::Run {
            file,
            json,
            explain,
            strict,
            quiet: _,
        } => run(
            rt, progress, &file, strict, json, explain, advised, input, out, errors,
        ),
        Command::Threads(command) => {
            threads(rt, progress, &command, advised, input, out, errors)
        }
        Command::Explain {
            file,
            json,
            quiet: _,
        } => explain(rt, progress, &file, json, advised, input, out, errors),
        Command::Check(command) => check(rt, progress, &command, input, out, errors),
        Command::Audit(command) => audit(rt, progress, &command, input, out, errors),
        Command::AuditLog(command) => audit_log(rt, progress, &command, input, out, errors),
        Command::Police { tau, rate, json } => answer_lines(
            alloc,
            PartsPlan::Police {
                tau,
                rate: rate.rate,
            },
            json,
            input,
            out,
            errors,
        ),
        Command::Shape { rate, json } => answer_lines(
            alloc,
            PartsPlan::Shape { rate: rate.rate },
            json,
            input,
            out,
            errors,
        ),
        Command::Step { file, form } => step(rt, file.as_str(), form, input, out, errors),
        Command::Play(plan) => play(rt, progress, &plan, advised, input, out, errors),
        Command::Code { rate, json } => {
            say_codes(alloc, CodesPlan::Code(rate), json, input, out, errors)
        }
        Command::Write { words, json } => {
            say_codes(alloc, CodesPlan::Write(words), json, input, out, errors)
        }
        Command::Draw(command) => draw(rt, progress, &command, advised, input, out, errors),
        Command::Switch(plan) => switch(rt, &plan, input, out, errors),
        Command::Source(plan) => source(rt, &plan, input, out, errors),
    }
}
