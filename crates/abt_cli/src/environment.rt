//! The words of a process.
ghost use Rattle.std.specs.Prelude.{IfOk};
ghost use Rattle.abt_cli.specs.Commands.{IsAllowed};
ghost use Rattle.abt_cli.specs.Lost.{LosesText};

use crate::apart::writes_apart;
use crate::command::Command;
use crate::readers::wrong_words;
use crate::words::{ONE_FILE, command_words};
use abt_perform::WordsFault;
use std::alloc::AllocGlobal;
use std::env::{self, Env};
use std::io::ErrorKind;
use std::rt::Files;

/// What the process's words behind the program's name ask for. Words that aren't text are refused, and a file to be written that is one
/// with another which the command uses, also under another name.
pub fn given_command<R: Env + Files + AllocGlobal>(rt: &R) -> Result<Command, WordsFault>
    ensures limits { IfOk result IsAllowed }
    ensures apart { IfOk result (λ command. ¬ LosesText command) }
{
    let alloc = rt.alloc();
    let words = match env::args(rt) {
        Ok(words) => words,
        Err(error) if error.kind() == ErrorKind::OutOfMemory => return Err(WordsFault::Memory),
        Err(_) => {
            let text = String::from_str(alloc, "error: a word is no UTF-8 text\n")?;
            return Err(WordsFault::Words(text));
        }
    };
    let words: Vec<String> = words.skip(1).collect(alloc)?;
    let mut texts = Vec::with_capacity(alloc, words.len())?;
    for word in &words {
        if texts.push(word.as_str()).is_err() {
            return Err(WordsFault::Memory);
        }
    }
    let command = command_words(alloc, texts.as_slice())?;
    if !writes_apart(rt, &command)? {
        return Err(wrong_words(alloc, ONE_FILE)?);
    }
    Ok(command)
}
