//! Why a text says no event, no command or no operation.
use crate::near::{listed, meant_among, shown};
use crate::rates::code_meant;
use abt_format::rate_of;
use abt_text::{u16_of, u32_of, u64_of, words_of};
use std::alloc::{AllocError, Global};

// The kinds of texts.
#[derive(Clone, Copy)]
pub(crate) enum Kind {
    Event,
    Command,
    Operation,
}

impl Kind {
    // The words with which texts of the kind begin.
    fn words(self) -> &'static [&'static str] {
        match self {
            Kind::Event => &EVENTS,
            Kind::Command => &COMMANDS,
            Kind::Operation => &OPERATIONS,
        }
    }

    fn name(self) -> &'static str {
        match self {
            Kind::Event => "event",
            Kind::Command => "command",
            Kind::Operation => "operation",
        }
    }
}

// The kind of a word behind the first one. No word comes where `End` stands.
#[derive(Clone, Copy)]
enum Slot {
    Short,
    Middle,
    Long,
    Code,
    Plan,
    Jitter,
    End,
}

// How a text is written that begins with a word.
#[derive(Clone, Copy)]
struct Form {
    usage: &'static str,
    slots: [Slot; 3],
}

const EVENTS: [&str; 13] = [
    "start", "ask", "again", "crash", "emit", "arrive", "request", "turn", "yes", "no", "told-yes",
    "told-no", "capacity",
];

const COMMANDS: [&str; 6] = ["start", "ask", "again", "crash", "emit", "listen"];

const OPERATIONS: [&str; 1] = ["capacity"];

// The words of a text at most, and one more.
const WORDS_MAX: usize = 5;

// What doesn't fit in a text that says nothing of its kind.
pub(crate) fn misfit(alloc: Global, kind: Kind, text: &str) -> Result<String, AllocError> {
    if text.is_empty() {
        return String::from_str(alloc, "the text is empty");
    }
    let mut room = [""; WORDS_MAX];
    let Some(count) = words_of(text, &mut room) else {
        return too_many(alloc, kind, text);
    };
    let words = &room[..count];
    let Some((first, others)) = words.split_first() else {
        return String::from_str(alloc, "the text is empty");
    };
    if words.iter().any(|word| word.is_empty()) {
        let text = shown(alloc, text)?;
        return format!(in alloc; "\"{text}\" has a space too many: one stands between two words");
    }
    match form_of(kind, first) {
        Some(form) => slot_misfit(alloc, text, form, others),
        None => no_such(alloc, kind, first),
    }
}

fn too_many(alloc: Global, kind: Kind, text: &str) -> Result<String, AllocError> {
    let first = text.split(' ').next().unwrap_or("");
    match form_of(kind, first) {
        Some(form) => usage_of(alloc, text, form),
        None => no_such(alloc, kind, first),
    }
}

// The first word is none of its kind: those that were maybe meant, or else all that may stand there.
fn no_such(alloc: Global, kind: Kind, word: &str) -> Result<String, AllocError> {
    let what = kind.name();
    let known = kind.words();
    let hint = match meant_among(alloc, word, known)? {
        Some(meant) => format!(in alloc; "did you mean {meant}?")?,
        None => {
            let known = listed(alloc, known)?;
            format!(in alloc; "one of {known} is wanted")?
        }
    };
    let word = shown(alloc, word)?;
    format!(in alloc; "no {what} begins with `{word}`; {hint}")
}

// The first word that doesn't fit, or their number.
fn slot_misfit(
    alloc: Global,
    text: &str,
    form: Form,
    words: &[&str],
) -> Result<String, AllocError> {
    for (slot, word) in form.slots.iter().zip(words.iter()) {
        if matches!(slot, Slot::End) {
            return usage_of(alloc, text, form);
        }
        if !fits(*slot, word) {
            let usage = form.usage;
            let wanted = wanted_at(*slot);
            let code = match slot {
                Slot::Code => code_meant(alloc, word)?,
                _ => String::new(alloc),
            };
            let word = shown(alloc, word)?;
            return format!(in alloc; "`{word}` doesn't fit in `{usage}`: {wanted} is wanted{code}");
        }
    }
    usage_of(alloc, text, form)
}

fn usage_of(alloc: Global, text: &str, form: Form) -> Result<String, AllocError> {
    let usage = form.usage;
    let text = shown(alloc, text)?;
    format!(in alloc; "\"{text}\" has too few or too many words; write `{usage}`")
}

fn fits(slot: Slot, word: &str) -> bool {
    match slot {
        Slot::Short => u16_of(word).is_some(),
        Slot::Middle => u32_of(word).is_some(),
        Slot::Long => u64_of(word).is_some(),
        Slot::Code => rate_of(word).is_some(),
        Slot::Plan => word == "before" || word == "after",
        Slot::Jitter => word == "lost" || u64_of(word).is_some(),
        Slot::End => false,
    }
}

fn wanted_at(slot: Slot) -> &'static str {
    match slot {
        Slot::Short => "a decimal number from 0 to 65535",
        Slot::Middle => "a decimal number from 0 to 4294967295",
        Slot::Long => "a decimal number of 1 to 19 digits",
        Slot::Code => "a rate code of four hexadecimal digits",
        Slot::Plan => "`before`, `after` or nothing",
        Slot::Jitter => "a decimal number of 1 to 19 digits, or `lost`,",
        Slot::End => "nothing",
    }
}

fn form_of(kind: Kind, word: &str) -> Option<Form> {
    match kind {
        Kind::Event => event_form(word),
        Kind::Command => command_form(word),
        Kind::Operation => match word {
            "capacity" => written("capacity P U", [Slot::Short, Slot::Long, Slot::End]),
            _ => None,
        },
    }
}

fn event_form(word: &str) -> Option<Form> {
    match word {
        "start" => written("start C NOW", [Slot::Short, Slot::Long, Slot::End]),
        "ask" => written("ask C CODE", [Slot::Short, Slot::Code, Slot::Plan]),
        "again" => written("again C", [Slot::Short, Slot::End, Slot::End]),
        "crash" => written("crash C", [Slot::Short, Slot::End, Slot::End]),
        "emit" => written("emit C NOW", [Slot::Short, Slot::Long, Slot::End]),
        "arrive" => written("arrive C CELL AT", [Slot::Short, Slot::Long, Slot::Long]),
        "request" => written(
            "request C HOP SEQ",
            [Slot::Short, Slot::Short, Slot::Middle],
        ),
        "turn" => written("turn C SEQ", [Slot::Short, Slot::Middle, Slot::End]),
        "yes" => written("yes C HOP SEQ", [Slot::Short, Slot::Short, Slot::Middle]),
        "no" => written("no C HOP SEQ", [Slot::Short, Slot::Short, Slot::Middle]),
        "told-yes" => written("told-yes C SEQ", [Slot::Short, Slot::Middle, Slot::End]),
        "told-no" => written("told-no C SEQ", [Slot::Short, Slot::Middle, Slot::End]),
        "capacity" => written("capacity P U", [Slot::Short, Slot::Long, Slot::End]),
        _ => None,
    }
}

fn command_form(word: &str) -> Option<Form> {
    match word {
        "start" => written("start NOW", [Slot::Long, Slot::End, Slot::End]),
        "ask" => written("ask CODE", [Slot::Code, Slot::Plan, Slot::End]),
        "again" => written("again", [Slot::End, Slot::End, Slot::End]),
        "crash" => written("crash", [Slot::End, Slot::End, Slot::End]),
        "emit" => written("emit NOW JITTER", [Slot::Long, Slot::Jitter, Slot::End]),
        "listen" => written("listen TURNS", [Slot::Middle, Slot::End, Slot::End]),
        _ => None,
    }
}

fn written(usage: &'static str, slots: [Slot; 3]) -> Option<Form> {
    Some(Form { usage, slots })
}
