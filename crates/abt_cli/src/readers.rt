//! Readers of the words that `clap` found, and what is told of words that are refused.
ghost use Rattle.std.specs.Prelude.{◌≡◌, ◌⊎◌, ◌^◌, Some, None, IfErr, IfOk, IfSome, IsNone, codes, map, option_map, string_bytes};
ghost use Rattle.abt_perform.specs.declared.plan.WordsFault.TheVariants.{Memory};
ghost use Rattle.abt_cli.specs.Commands.{IsCountIn};
ghost use Rattle.abt_cli.specs.Refused.{AreNoNumbers, IsNoCapacity, IsNoCount, IsNoCountIn, IsNoNumberIn, IsNoRate, IsNoTolerance};
ghost use Rattle.abt_cli.specs.Words.{AreNumbers, IsCapacity, IsCount, IsNumberIn, IsTolerance, file_in, files_in, text_in, word_in, words_in};
ghost use Rattle.abt_codes.specs.Nearest.{IsSaid};
ghost use Rattle.abt_rate.specs.Limits.{AreWorkers};
ghost use Rattle.abt_text.specs.Words.{number_below};

use crate::decimal::decimal_of;
use crate::names::{CAPACITY, FILE, FILES, RATE, TAU, WORKERS};
use abt_codes::{SaidRate, picoseconds_in, rate_said, units_in};
use abt_perform::WordsFault;
use abt_rate::{CAPACITY_MAX, TAU_MAX, WORKERS_MAX};
use abt_text::{u16_of, u64_of};
use clap::ArgMatches;
use clap::error::ErrorKind;
use std::alloc::{AllocError, Global};

// The rule of a capacity.
const CAPACITY_RULE: &str =
    "a capacity is a decimal number of units, or a rate in words such as 155Mbps, of at most 2^60 units";

// The rule of a count of link workers.
const WORKERS_RULE: &str = "there are 1 to 64 link workers, a decimal number, digits alone";

// The rule of a tolerance.
const TAU_RULE: &str =
    "a tolerance is a whole number of picoseconds, or of ns, us or ms as in 200ns, of at most 10^12 picoseconds";

// The rule of a rate.
const RATE_RULE: &str =
    "a rate is a code, four hexadecimal digits, or a rate in words, such as 500cps or 1.3Mbps";

// The rule of a seed and of chances.
const NUMBERS_RULE: &str =
    "a seed is a number below 2^63, a chance one of at most 100, a delay one of at most 2^32 - 1, digits alone";

/// The word that stands for a name of the help, if one does.
pub(crate) fn text_in(
    alloc: Global,
    found: &ArgMatches<'_>,
    name: &str,
) -> Result<Option<String>, AllocError>
    ensures { IfOk result (λ text. option_map string_bytes text ≡ text_in found.now name.now) }
{
    match found.get_str(name) {
        Some(text) => Ok(Some(String::from_str(alloc, text)?)),
        None => Ok(None),
    }
}

/// The file of the scenario, if one is named; `-` is the standard input.
pub(crate) fn file_in(alloc: Global, found: &ArgMatches<'_>) -> Result<Option<String>, AllocError>
    ensures { IfOk result (λ file. option_map string_bytes file ≡ file_in found.now) }
{
    match found.get_str(FILE) {
        Some("-") | None => Ok(None),
        Some(name) => Ok(Some(String::from_str(alloc, name)?)),
    }
}

/// The files of journals, in their order; `-` alone is the standard input.
pub(crate) fn files_in(alloc: Global, found: &ArgMatches<'_>) -> Result<Vec<String>, AllocError>
    ensures { IfOk result (λ files. map string_bytes files.items ≡ files_in found.now) }
{
    let words = found.get_strs(FILES).unwrap_or(&[]);
    match words {
        ["-"] => Ok(Vec::new(alloc)),
        _ => texts_of(alloc, words),
    }
}

/// The word that stands for a name of the help, empty if none does.
pub(crate) fn word_in(
    alloc: Global,
    found: &ArgMatches<'_>,
    name: &str,
) -> Result<String, AllocError>
    ensures { IfOk result (λ word. string_bytes word ≡ word_in found.now name.now) }
{
    String::from_str(alloc, found.get_str(name).unwrap_or(""))
}

/// All words that stand for a name of the help, in their order.
pub(crate) fn words_in(
    alloc: Global,
    found: &ArgMatches<'_>,
    name: &str,
) -> Result<Vec<String>, AllocError>
    ensures { IfOk result
        (λ words. map string_bytes words.items ≡ words_in found.now name.now) }
{
    texts_of(alloc, found.get_strs(name).unwrap_or(&[]))
}

fn texts_of(alloc: Global, words: &[&str]) -> Result<Vec<String>, AllocError>
    ensures { IfOk result (λ texts. map string_bytes texts.items ≡ map (λ word. word.now) words.now) }
{
    let mut texts = Vec::new(alloc);
    for word in words {
        texts.push(String::from_str(alloc, word)?)?;
    }
    Ok(texts)
}

/// The capacity that is named.
pub(crate) fn capacity_of(alloc: Global, found: &ArgMatches<'_>) -> Result<u64, WordsFault>
    ensures ok { IfOk result (IsCapacity (word_in found.now (codes "CAPACITY"))) }
    ensures err { IfErr result (λ fault. (fault ≡ Memory) ⊎
        IsNoCapacity (word_in found.now (codes "CAPACITY"))) }
{
    capacity_said(alloc, found.get_str(CAPACITY).unwrap_or(""))
}

// The capacity that a word says, or what it should have said.
fn capacity_said(alloc: Global, word: &str) -> Result<u64, WordsFault>
    ensures ok { IfOk result (IsCapacity word.now) }
    ensures err { IfErr result (λ fault. (fault ≡ Memory) ⊎ IsNoCapacity word.now) }
{
    match capacity_in(word) {
        Some(capacity) => Ok(capacity),
        None => Err(wrong_words(alloc, CAPACITY_RULE)?),
    }
}

// The capacity that a word says.
fn capacity_in(word: &str) -> Option<u64>
    ensures some { IfSome result (IsCapacity word.now) }
    ensures none { IsNone result → IsNoCapacity word.now }
{
    if let Some(capacity) = decimal_of(word, CAPACITY_MAX) {
        return Some(capacity);
    }
    match units_in(word) {
        Some(units) if units <= u128::from(CAPACITY_MAX) => Some(units as u64),
        _ => None,
    }
}

/// How many link workers are asked for.
pub(crate) fn workers_of(alloc: Global, found: &ArgMatches<'_>) -> Result<u16, WordsFault>
    ensures ok { IfOk result (IsCount (word_in found.now (codes "workers"))) }
    ensures err { IfErr result (λ fault. (fault ≡ Memory) ⊎
        IsNoCount (word_in found.now (codes "workers"))) }
{
    count_of(alloc, found.get_str(WORKERS).unwrap_or(""))
}

/// How many link workers are asked for, if a word says so.
pub(crate) fn workers_in(alloc: Global, found: &ArgMatches<'_>) -> Result<Option<u16>, WordsFault>
    ensures limits { IfOk result (λ workers. IfSome workers AreWorkers) }
    ensures ok { IfOk result (IsCountIn (text_in found.now (codes "workers"))) }
    ensures err { IfErr result (λ fault. (fault ≡ Memory) ⊎
        IsNoCountIn (text_in found.now (codes "workers"))) }
{
    match found.get_str(WORKERS) {
        Some(word) => Ok(Some(count_of(alloc, word)?)),
        None => Ok(None),
    }
}

// The count of link workers that a word says.
fn count_of(alloc: Global, word: &str) -> Result<u16, WordsFault>
    ensures ok { IfOk result (IsCount word.now) }
    ensures err { IfErr result (λ fault. (fault ≡ Memory) ⊎ IsNoCount word.now) }
{
    match decimal_of(word, u64::from(WORKERS_MAX)) {
        Some(workers) if workers >= 1 => Ok(workers as u16),
        _ => Err(wrong_words(alloc, WORKERS_RULE)?),
    }
}

/// The tolerance that is named.
pub(crate) fn tau_in(alloc: Global, found: &ArgMatches<'_>) -> Result<u64, WordsFault>
    ensures ok { IfOk result (IsTolerance (word_in found.now (codes "tau"))) }
    ensures err { IfErr result (λ fault. (fault ≡ Memory) ⊎
        IsNoTolerance (word_in found.now (codes "tau"))) }
{
    match picoseconds_in(found.get_str(TAU).unwrap_or("")) {
        Some(tau) if tau <= u128::from(TAU_MAX) => Ok(tau as u64),
        _ => Err(wrong_words(alloc, TAU_RULE)?),
    }
}

/// The rate that is named.
pub(crate) fn rate_in(alloc: Global, found: &ArgMatches<'_>) -> Result<SaidRate, WordsFault>
    ensures ok { IfOk result (IsSaid (word_in found.now (codes "rate"))) }
    ensures err { IfErr result (λ fault. (fault ≡ Memory) ⊎
        IsNoRate (word_in found.now (codes "rate"))) }
{
    match rate_said(found.get_str(RATE).unwrap_or("")) {
        Some(rate) => Ok(rate),
        None => Err(wrong_words(alloc, RATE_RULE)?),
    }
}

/// The number of a play that a word says, which is at most the limit, or another one if there is no word.
pub(crate) fn number_in(
    alloc: Global,
    word: Option<&str>,
    default: u64,
    limit: u64,
) -> Result<u64, WordsFault>
    ensures ok { IfOk result (IsNumberIn (option_map (λ word. word.now) word.entry) default limit) }
    ensures err { IfErr result (λ fault. (fault ≡ Memory) ⊎
        IsNoNumberIn (option_map (λ word. word.now) word.entry) default limit) }
{
    let Some(word) = word else {
        return Ok(default);
    };
    match u64_of(word) {
        Some(number) if number <= limit => Ok(number),
        _ => Err(wrong_words(alloc, NUMBERS_RULE)?),
    }
}

/// The numbers below 2^16 that words say, in their order; `rule` says what each is to be.
pub(crate) fn numbers_of(alloc: Global, words: &[&str], rule: &str) -> Result<Vec<u16>, WordsFault>
    ensures ok { IfOk result
        (λ numbers. AreNumbers (map (λ word. word.now) words.now) numbers.items) }
    ensures err { IfErr result
        (λ fault. (fault ≡ Memory) ⊎ AreNoNumbers (map (λ word. word.now) words.now)) }
{
    let mut numbers = Vec::with_capacity(alloc, words.len())?;
    for word in words {
        let number = short_of(alloc, word, rule)?;
        match numbers.push(number) {
            Ok(()) => {}
            Err(_) => return Err(WordsFault::Memory),
        }
    }
    Ok(numbers)
}

/// The number below 2^16 that a word says; `rule` says what it is to be.
pub(crate) fn short_of(alloc: Global, word: &str, rule: &str) -> Result<u16, WordsFault>
    ensures ok { IfOk result (λ number. number_below (2 ^ 16) word.now ≡ Some number) }
    ensures err { IfErr result (λ fault. (fault ≡ Memory) ⊎ (number_below (2 ^ 16) word.now ≡ None)) }
{
    match u16_of(word) {
        Some(number) => Ok(number),
        None => Err(wrong_words(alloc, rule)?),
    }
}

/// Words that are wrong for a reason of the program's own.
pub(crate) fn wrong_words(alloc: Global, why: &str) -> Result<WordsFault, AllocError> {
    let text = format!(in alloc; "error: {why}\n\nFor more information, try '--help'.\n")?;
    Ok(WordsFault::Words(text))
}

/// What `clap` refuses, as it says so; the help or the version that was asked for; or want of memory.
pub(crate) fn refusal(alloc: Global, error: &clap::Error) -> WordsFault {
    let Ok(text) = format!(in alloc; "{error}") else {
        return WordsFault::Memory;
    };
    match error.kind() {
        ErrorKind::OutOfMemory => WordsFault::Memory,
        ErrorKind::DisplayHelp | ErrorKind::DisplayVersion => WordsFault::Help(text),
        _ => WordsFault::Words(text),
    }
}
