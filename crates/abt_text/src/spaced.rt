//! Words between single spaces.
ghost use Rattle.std.specs.Prelude.{◌≡◌, ◌<◌, ◌≤◌, ◌↔◌, ◌++◌, ◌∷◌, IsNone, IfSome, length, map, take};
ghost use Rattle.abt_text.specs.Words.{space, spaced, words_of, Lacks};

/// Puts the words of a text into a room of the caller's, from its first place on, and says how many there are, or `None` if the
/// room has fewer places; what the room then has isn't said.
///
/// The text is cut at each space. So where two spaces meet, or one stands at an end, there is an empty word, and a text without
/// spaces is one word.
pub fn words_of<'a>(text: &'a str, room: &mut [&'a str]) -> Option<usize>
    ensures value { IfSome result
        (λ count. map (λ word. word.now) (take count room.new) ≡ words_of text.entry.now) }
    ensures whole { IfSome result
        (λ count. spaced (map (λ word. word.now) (take count room.new)) ≡ text.entry.now) }
    ensures within { IfSome result (λ count. count ≤ length room.new) }
    ensures len { length room.new ≡ length room.old }
    ensures none { IsNone result ↔ (length room.old < length (words_of text.entry.now)) }
{
    let mut count = 0;
    let mut rest = text;
    while let Some((word, more)) = first_word(rest) {
        if count == room.len() {
            return None;
        }
        room[count] = word;
        count += 1;
        rest = more;
    }
    if count == room.len() {
        return None;
    }
    room[count] = rest;
    Some(count + 1)
}

// The first word of a text and what stands behind the space after it, or `None` if the text has no space.
fn first_word(text: &str) -> Option<(&str, &str)>
    ensures some { IfSome result
        (λ cut. (text.now ≡ cut.0.now ++ (space ∷ cut.1.now)) × Lacks space cut.0.now) }
    ensures none { IsNone result → Lacks space text.now }
{
    for (place, octet) in text.as_bytes().iter().enumerate() {
        if *octet == b' ' {
            return Some((&text[..place], &text[place + 1..]));
        }
    }
    None
}
