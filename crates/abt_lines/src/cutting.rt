//! Lines within octets that are there.
ghost use Rattle.std.specs.Prelude.{◌≡◌, ◌∷◌, IsNone, IfSome};
ghost use Rattle.abt_text.specs.Text.{◌⋅◌, line_feed};
ghost use Rattle.abt_text.specs.Words.{Lacks};

use memchr::memchr;

// The first line of some octets and what stands behind its line feed, or `None` if they have no line feed.
pub(crate) fn first_line(octets: &[u8]) -> Option<(&[u8], &[u8])>
    ensures some { IfSome result
        (λ cut. (octets.now ≡ cut.0.now ⋅ line_feed ∷ cut.1.now) × Lacks line_feed cut.0.now) }
    ensures none { IsNone result → Lacks line_feed octets.now }
{
    let place = memchr(b'\n', octets)?;
    Some((&octets[..place], &octets[place + 1..]))
}
