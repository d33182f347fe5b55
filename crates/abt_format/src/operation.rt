//! The texts of operations.
ghost use Rattle.std.specs.Prelude.{◌≡◌, map};
ghost use Rattle.abt_format.specs.OperationTexts.{operation_of, said, operation_by, capacity_at};

use abt_model::Operation;
use abt_text::{u16_of, u64_of, words_of};

/// The words of an operation's text: what is done, to which port, and by how many units.
const WORDS_MAX: usize = 3;

/// The operation that a text says, or `None` if it says none (docs/FORMATS.md, "Operator").
pub fn operation_of(text: &str) -> Option<Operation>
    ensures { result ≡ operation_of text.now }
{
    let mut words = [""; WORDS_MAX];
    let count = words_of(text, &mut words)?;
    said(&words[..count])
}

fn said(words: &[&str]) -> Option<Operation>
    ensures { result ≡ said (map (λ word. word.now) words.now) }
{
    let [word, port, units] = words else {
        return None;
    };
    operation_by(word, port, units)
}

fn operation_by(word: &str, port: &str, units: &str) -> Option<Operation>
    ensures { result ≡ operation_by word.now port.now units.now }
{
    match word {
        "capacity" => capacity_at(port, units),
        _ => None,
    }
}

fn capacity_at(port: &str, units: &str) -> Option<Operation>
    ensures { result ≡ capacity_at port.now units.now }
{
    Some((u16_of(port)?, u64_of(units)?))
}
