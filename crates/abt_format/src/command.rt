//! The texts of commands.
ghost use Rattle.std.specs.Prelude.{◌≡◌, map};
ghost use Rattle.abt_format.specs.CommandTexts.{command_of, said, order_of, said_by, ask_of, emit_of, jitter_of};

use crate::value::{plan_of, rate_of};
use abt_keep::StorePlan;
use abt_model::Command;
use abt_text::{u32_of, u64_of, words_of};

/// The words of a command's text at most: the order and what two more say.
const WORDS_MAX: usize = 3;

/// The command that a text of a script says, or `None` if it says none (docs/FORMATS.md, "Scripts").
pub fn command_of(text: &str) -> Option<Command>
    ensures { result ≡ command_of text.now }
{
    let mut words = [""; WORDS_MAX];
    let count = words_of(text, &mut words)?;
    said(&words[..count])
}

fn said(words: &[&str]) -> Option<Command>
    ensures { result ≡ said (map (λ word. word.now) words.now) }
{
    let (order, words) = words.split_first()?;
    said_by(order_of(order)?, words)
}

/// What the first word of a command's text says.
#[derive(Clone, Copy)]
pub enum Order {
    Start,
    Ask,
    Again,
    Crash,
    Emit,
    Listen,
}

fn order_of(word: &str) -> Option<Order>
    ensures { result ≡ order_of word.now }
{
    match word {
        "start" => Some(Order::Start),
        "ask" => Some(Order::Ask),
        "again" => Some(Order::Again),
        "crash" => Some(Order::Crash),
        "emit" => Some(Order::Emit),
        "listen" => Some(Order::Listen),
        _ => None,
    }
}

fn said_by(order: Order, words: &[&str]) -> Option<Command>
    ensures { result ≡ said_by order (map (λ word. word.now) words.now) }
{
    match (order, words) {
        (Order::Start, [now]) => Some(Command::Start { now: u64_of(now)? }),
        (Order::Ask, [code]) => ask_of(code, StorePlan::Works),
        (Order::Ask, [code, plan]) => ask_of(code, plan_of(plan)?),
        (Order::Again, []) => Some(Command::Again),
        (Order::Crash, []) => Some(Command::Crash),
        (Order::Emit, [now, jitter]) => emit_of(now, jitter),
        (Order::Listen, [turns]) => Some(Command::Listen {
            turns: u32_of(turns)?,
        }),
        _ => None,
    }
}

fn ask_of(code: &str, plan: StorePlan) -> Option<Command>
    ensures { result ≡ ask_of code.now plan }
{
    Some(Command::Ask {
        rate: rate_of(code)?,
        plan,
    })
}

fn emit_of(now: &str, jitter: &str) -> Option<Command>
    ensures { result ≡ emit_of now.now jitter.now }
{
    Some(Command::Emit {
        now: u64_of(now)?,
        jitter: jitter_of(jitter)?,
    })
}

// How much later than its delay a cell comes, or that it is lost.
fn jitter_of(word: &str) -> Option<Option<u64>>
    ensures { result ≡ jitter_of word.now }
{
    match word {
        "lost" => Some(None),
        _ => Some(Some(u64_of(word)?)),
    }
}
