//! Words that were meant, and words as they are shown.
ghost use Rattle.std.specs.Prelude.{◌↔◌, IsTrue};
ghost use Rattle.abt_check.specs.Findings.{IsNearer};

use std::alloc::{AllocError, Global};
use strsim::levenshtein;

// The most characters that are shown of a word.
const SHOWN_MAX: usize = 40;

// No word that is looked for is as long.
const WORD_MAX: usize = 16;

// The word among some that is nearest to another, if it is near.
pub(crate) fn near(
    alloc: Global,
    word: &str,
    known: &[&'static str],
) -> Result<Option<&'static str>, AllocError> {
    if word.len() > WORD_MAX {
        return Ok(None);
    }
    let mut nearest = None;
    let mut least = usize::MAX;
    for other in known {
        let distance = levenshtein(alloc, word, other)?;
        if is_nearer(distance, least, word.len().max(other.len())) {
            least = distance;
            nearest = Some(*other);
        }
    }
    Ok(nearest)
}

// Whether a word was meant that is so many letters away, where the nearest before it is `least` away and the longer word has `longest`
// octets.
fn is_nearer(distance: usize, least: usize, longest: usize) -> bool
    ensures { IsTrue result ↔ IsNearer distance least longest }
{
    distance < least && distance <= 2 && distance * 2 < longest
}

// The words among some that another begins, as `told` begins `told-yes`, or else the one nearest to it, each in marks; none if none is near.
pub(crate) fn meant_among(
    alloc: Global,
    word: &str,
    known: &[&'static str],
) -> Result<Option<String>, AllocError> {
    let mut begun = Vec::new(alloc);
    for other in known {
        if is_begun(word, other) {
            begun.push(*other)?;
        }
    }
    if !begun.is_empty() {
        return Ok(Some(listed(alloc, begun.as_slice())?));
    }
    match near(alloc, word, known)? {
        Some(word) => Ok(Some(format!(in alloc; "`{word}`")?)),
        None => Ok(None),
    }
}

// Whether a word is the part of another before its hyphen.
fn is_begun(word: &str, other: &str) -> bool {
    match other.split_once('-') {
        Some((part, _)) => part == word,
        None => false,
    }
}

// Words in marks, the last behind `or`.
pub(crate) fn listed(alloc: Global, words: &[&'static str]) -> Result<String, AllocError> {
    let mut text = String::new(alloc);
    for (index, word) in words.iter().enumerate() {
        let before = if index == 0 {
            ""
        } else if index + 1 == words.len() {
            " or "
        } else {
            ", "
        };
        write!(text, "{before}`{word}`")?;
    }
    Ok(text)
}

// The words that ask for such a word.
pub(crate) fn meant(alloc: Global, near: Option<&str>) -> Result<String, AllocError> {
    match near {
        Some(word) => format!(in alloc; "; did you mean `{word}`?"),
        None => Ok(String::new(alloc)),
    }
}

// A word on one line, cut if it is long.
pub(crate) fn shown(alloc: Global, word: &str) -> Result<String, AllocError> {
    let mut text = String::new(alloc);
    for (count, letter) in word.chars().enumerate() {
        if count == SHOWN_MAX {
            text.push_str("..")?;
            break;
        }
        text.push(if letter.is_control() { '?' } else { letter })?;
    }
    Ok(text)
}
