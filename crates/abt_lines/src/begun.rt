//! The line that has begun.
ghost use Rattle.std.specs.Prelude.{◌≡◌, ◌<◌, ◌≤◌, ◌+◌, [], length, vec_len, OnOk, OnErr};
ghost use Rattle.std.specs.Option.{option_map};
ghost use Rattle.abt_text.specs.Text.{Text, ◌⋅◌, line_feed};
ghost use Rattle.abt_text.specs.Words.{Lacks};
ghost use Rattle.abt_lines.specs.Lines.{line_max, seen_lines, seen_of};

use std::alloc::{AllocError, Global};

/// The octets of a line at most, without its line feed and the carriage return before it.
pub const LINE_MAX: usize = 4096;

// The octets of the next line that have come, as far as they matter: of a line that is too long its beginning.
#[derive(Drop)]
pub(crate) struct Begun {
    pub(crate) octets: Vec<u8>,
    // The number of this line, counted from 1.
    pub(crate) number: u64,
    ghost whole: { Lacks line_feed octets.items },
    ghost within: { vec_len octets ≤ line_max + 2 },
}

impl Begun {
    // Before the first line.
    pub(crate) fn new(alloc: Global) -> Begun
        ensures octets { result.octets.items ≡ [] }
        ensures number { result.number ≡ 1 }
    {
        Begun {
            octets: Vec::new(alloc),
            number: 1,
        }
    }

    #[tactic(auto, using(crate::proofs::Lines::added_seen, crate::proofs::Lines::none_added, crate::proofs::Lines::lacks_added))]
    // Adds octets of the line. If the line is too long already, they are as good as lost.
    pub(crate) fn add(&mut self, octets: &[u8]) -> Result<(), AllocError>
        requires { Lacks line_feed octets.now }
        ensures ok { OnOk result ((rest : Text) → seen_lines (self.new.octets.items ⋅ rest)
            ≡ seen_lines (self.old.octets.items ⋅ octets.now ⋅ rest)) }
        ensures number { self.new.number ≡ self.old.number }
        ensures some { OnErr result (0 < length octets.now) }
    {
        let room = LINE_MAX + 2 - self.octets.len();
        let count = octets.len().min(room);
        if count == 0 {
            return Ok(());
        }
        self.octets.extend_from_slice(&octets[..count])
    }
}

// What is seen of a line: it without the carriage return at its end, or nothing if that is too long.
pub(crate) fn seen_of(line: &[u8]) -> Option<&[u8]>
    ensures { option_map (λ seen. seen.now) result ≡ seen_of line.now }
{
    let line = line.strip_suffix(b"\r").unwrap_or(line);
    if line.len() > LINE_MAX {
        return None;
    }
    Some(line)
}
