//! The words of the commands of parts by hand, of plays, of codes and of pictures.
ghost use Rattle.std.specs.Prelude.{◌≡◌, ◌⊎◌, IfErr, IfOk, codes};
ghost use Rattle.abt_perform.specs.declared.plan.WordsFault.TheVariants.{Memory};
ghost use Rattle.abt_cli.specs.Commands.{IsAllowed, IsChancesOf, IsCommandOf, IsMessageOf};
ghost use Rattle.abt_cli.specs.Refused.{HasNoChances, IsNoKind, IsRefused};
ghost use Rattle.abt_cli.specs.Words.{word_in};

use crate::command::{Command, DrawCommand};
use crate::names::{
    ASK, DELAY, EVENTS, FILE, FLOOR, JSON, LOSS, MESSAGE, OUTPUT, POSSIBLE, QUANTITY, REPEAT, SEED,
    SEQ, STATE, VCI, VPI,
};
use crate::picture_words::{picture_if_named, picture_of};
use crate::readers::{
    file_in, number_in, rate_in, tau_in, text_in, word_in, workers_in, wrong_words,
};
use abt_codes::{Kind, MessageWords};
use abt_perform::WordsFault;
use abt_plans::{AnswerForm, Chances, PlayPlan};
use clap::ArgMatches;
use std::alloc::Global;

// The rule of a message.
const MESSAGE_RULE: &str = "a message is request, yes or no";

// The greatest seed.
const SEED_MAX: u64 = 9_223_372_036_854_775_807;

// The greatest delay, which lets any message be the next.
const DELAY_MAX: u64 = 4_294_967_295;

pub(crate) fn police_of(alloc: Global, found: &ArgMatches<'_>) -> Result<Command, WordsFault>
    ensures limits { IfOk result IsAllowed }
    ensures command { IfOk result (IsCommandOf (codes "police") found.now) }
    ensures err { IfErr result (IsRefused (codes "police") found.now) }
{
    let tau = tau_in(alloc, found)?;
    let rate = rate_in(alloc, found)?;
    let json = found.get_flag(JSON);
    Ok(Command::Police { tau, rate, json })
}

pub(crate) fn shape_of(alloc: Global, found: &ArgMatches<'_>) -> Result<Command, WordsFault>
    ensures limits { IfOk result IsAllowed }
    ensures command { IfOk result (IsCommandOf (codes "shape") found.now) }
    ensures err { IfErr result (IsRefused (codes "shape") found.now) }
{
    let rate = rate_in(alloc, found)?;
    let json = found.get_flag(JSON);
    Ok(Command::Shape { rate, json })
}

pub(crate) fn step_of(alloc: Global, found: &ArgMatches<'_>) -> Result<Command, WordsFault>
    ensures limits { IfOk result IsAllowed }
    ensures command { IfOk result (IsCommandOf (codes "step") found.now) }
    ensures err { IfErr result (IsRefused (codes "step") found.now) }
{
    let file = word_in(alloc, found, FILE)?;
    let form = AnswerForm {
        json: found.get_flag(JSON),
        state: found.get_flag(STATE),
        possible: found.get_flag(POSSIBLE),
    };
    Ok(Command::Step { file, form })
}

pub(crate) fn play_of(alloc: Global, found: &ArgMatches<'_>) -> Result<Command, WordsFault>
    ensures limits { IfOk result IsAllowed }
    ensures command { IfOk result (IsCommandOf (codes "play") found.now) }
    ensures err { IfErr result (IsRefused (codes "play") found.now) }
{
    let chances = chances_of(alloc, found)?;
    let file = file_in(alloc, found)?;
    let events = text_in(alloc, found, EVENTS)?;
    let picture = picture_if_named(alloc, found)?;
    Ok(Command::Play(PlayPlan {
        file,
        chances,
        events,
        picture,
    }))
}

// The seed and the chances that are named.
fn chances_of(alloc: Global, found: &ArgMatches<'_>) -> Result<Chances, WordsFault>
    ensures ok { IfOk result (IsChancesOf found.now) }
    ensures err { IfErr result (λ fault. (fault ≡ Memory) ⊎ HasNoChances found.now) }
{
    let seed = number_in(alloc, found.get_str(SEED), 0, SEED_MAX)?;
    let loss = number_in(alloc, found.get_str(LOSS), 0, 100)?;
    let repeat = number_in(alloc, found.get_str(REPEAT), 0, 100)?;
    let delay = number_in(alloc, found.get_str(DELAY), DELAY_MAX, DELAY_MAX)?;
    Ok(Chances {
        seed,
        loss: loss as u8,
        repeat: repeat as u8,
        delay: delay as u32,
    })
}

pub(crate) fn code_of(alloc: Global, found: &ArgMatches<'_>) -> Result<Command, WordsFault>
    ensures limits { IfOk result IsAllowed }
    ensures command { IfOk result (IsCommandOf (codes "code") found.now) }
    ensures err { IfErr result (IsRefused (codes "code") found.now) }
{
    let rate = word_in(alloc, found, QUANTITY)?;
    let json = found.get_flag(JSON);
    Ok(Command::Code { rate, json })
}

pub(crate) fn write_of(alloc: Global, found: &ArgMatches<'_>) -> Result<Command, WordsFault>
    ensures limits { IfOk result IsAllowed }
    ensures command { IfOk result (IsCommandOf (codes "write") found.now) }
    ensures err { IfErr result (IsRefused (codes "write") found.now) }
{
    let words = message_in(alloc, found)?;
    let json = found.get_flag(JSON);
    Ok(Command::Write { words, json })
}

// The words of a message.
fn message_in(alloc: Global, found: &ArgMatches<'_>) -> Result<MessageWords, WordsFault>
    ensures ok { IfOk result (IsMessageOf found.now) }
    ensures err { IfErr result
        (λ fault. (fault ≡ Memory) ⊎ IsNoKind (word_in found.now (codes "MESSAGE"))) }
{
    let kind = match found.get_str(MESSAGE) {
        Some("request") => Kind::Request,
        Some("yes") => Kind::Yes,
        Some("no") => Kind::No,
        _ => return Err(wrong_words(alloc, MESSAGE_RULE)?),
    };
    Ok(MessageWords {
        kind,
        vpi: word_in(alloc, found, VPI)?,
        vci: word_in(alloc, found, VCI)?,
        seq: word_in(alloc, found, SEQ)?,
        floor: word_in(alloc, found, FLOOR)?,
        ask: word_in(alloc, found, ASK)?,
    })
}

pub(crate) fn draw_of(alloc: Global, found: &ArgMatches<'_>) -> Result<Command, WordsFault>
    ensures limits { IfOk result IsAllowed }
    ensures command { IfOk result (IsCommandOf (codes "draw") found.now) }
    ensures err { IfErr result (IsRefused (codes "draw") found.now) }
{
    let workers = workers_in(alloc, found)?;
    let picture = picture_of(alloc, found, OUTPUT)?;
    let file = file_in(alloc, found)?;
    let events = text_in(alloc, found, EVENTS)?;
    Ok(Command::Draw(DrawCommand {
        file,
        workers,
        events,
        picture,
    }))
}
