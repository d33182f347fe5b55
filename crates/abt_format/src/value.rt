//! The values of single words.
ghost use Rattle.std.specs.Prelude.{◌≡◌};
ghost use Rattle.abt_format.specs.Values.{rate_of, plan_of};

use abt_keep::StorePlan;
use abt_rate::Rate;
use hex::FromHex;

/// The rate of a rate code, which is written as four hexadecimal digits of either case (docs/FORMATS.md, "Scenario"); no
/// rate if the text is anything else.
pub fn rate_of(word: &str) -> Option<Rate>
    ensures { result ≡ rate_of word.now }
{
    match <[u8; 2] as FromHex>::from_hex(word) {
        Ok(octets) => Some(Rate::from_code(u16::from_be_bytes(octets))),
        Err(_) => None,
    }
}

// How the store fails, if a word says that it does.
pub(crate) fn plan_of(word: &str) -> Option<StorePlan>
    ensures { result ≡ plan_of word.now }
{
    match word {
        "before" => Some(StorePlan::FailsBefore),
        "after" => Some(StorePlan::FailsAfter),
        _ => None,
    }
}
