//! The texts that outcomes have.
ghost use Rattle.std.specs.Prelude.{◌≡◌, map};
ghost use Rattle.std.specs.Char.{is_ascii_digit};
ghost use Rattle.std.specs.List.{list_all};
ghost use Rattle.abt_check.specs.OutcomeWords as spec;

use abt_format::rate_of;
use abt_text::words_of;

// The words of an outcome at most.
const WORDS_MAX: usize = 4;

// Whether a text may be expected of an event: it is written as an outcome is, or is empty, which any outcome fits.
pub(crate) fn is_expectation(text: &str) -> bool
    ensures { result ≡ spec.is_expectation text.now }
{
    text.is_empty() || is_outcome(text)
}

// Whether a text is written as an outcome is (docs/FORMATS.md, "Report").
fn is_outcome(text: &str) -> bool
    ensures { result ≡ spec.is_outcome text.now }
{
    let mut words = [""; WORDS_MAX];
    match words_of(text, &mut words) {
        Some(count) => are_outcome(&words[..count]),
        None => false,
    }
}

fn are_outcome(words: &[&str]) -> bool
    ensures { result ≡ spec.are_outcome (map (λ word. word.now) words.now) }
{
    match words {
        [word] => is_alone(word),
        [word, name] => is_named(word, name),
        [word, first, next] => is_timed(word, first, next),
        [word, seq, floor, ask] => is_request(word, seq, floor, ask),
        _ => false,
    }
}

fn is_alone(word: &str) -> bool
    ensures { result ≡ spec.is_alone word.now }
{
    matches!(
        word,
        "started" | "crashed" | "turned" | "set" | "passed" | "refuses"
    )
}

fn is_named(word: &str, name: &str) -> bool
    ensures { result ≡ spec.is_named word.now name.now }
{
    match word {
        "refused" => is_refusal(name),
        "arrived" => is_verdict(name),
        "dropped" => is_drop_cause(name),
        "told" => is_hearing(name),
        "not-enabled" => is_cause(name),
        _ => false,
    }
}

fn is_refusal(name: &str) -> bool
    ensures { result ≡ spec.is_refusal name.now }
{
    matches!(
        name,
        "Keep" | "TimeRange" | "SeqExhausted" | "ClockBack" | "Zero" | "BelowSum" | "AboveLimit"
    )
}

fn is_verdict(name: &str) -> bool
    ensures { result ≡ spec.is_verdict name.now }
{
    matches!(name, "Conforming" | "TooEarly" | "NoRate")
}

fn is_drop_cause(name: &str) -> bool
    ensures { result ≡ spec.is_drop_cause name.now }
{
    matches!(name, "UnknownVc" | "Stale" | "Conflict" | "FloorAbove")
}

fn is_hearing(name: &str) -> bool
    ensures { result ≡ spec.is_hearing name.now }
{
    matches!(name, "Raised" | "Refused" | "Ignored")
}

fn is_cause(name: &str) -> bool
    ensures { result ≡ spec.is_cause name.now }
{
    matches!(
        name,
        "Down" | "Running" | "NotSent" | "Fenced" | "Delay" | "ClockBack" | "Unknown" | "NotAsking"
    )
}

fn is_timed(word: &str, first: &str, next: &str) -> bool
    ensures { result ≡ spec.is_timed word.now first.now next.now }
{
    match word {
        "emitted" => is_digits(first) && is_digits(next),
        "refused" => first == "TooSoon" && is_digits(next),
        _ => false,
    }
}

fn is_request(word: &str, seq: &str, floor: &str, ask: &str) -> bool
    ensures { result ≡ spec.is_request word.now seq.now floor.now ask.now }
{
    matches!(word, "asked" | "again") && is_digits(seq) && is_code(floor) && is_code(ask)
}

fn is_digits(word: &str) -> bool
    ensures { result ≡ spec.is_digits word.now }
{
    !word.is_empty() && are_digits(word.as_bytes())
}

fn are_digits(octets: &[u8]) -> bool
    ensures { result ≡ list_all is_ascii_digit octets.now }
{
    for octet in octets {
        if !octet.is_ascii_digit() {
            return false;
        }
    }
    true
}

fn is_code(word: &str) -> bool
    ensures { result ≡ spec.is_code word.now }
{
    rate_of(word).is_some()
}
