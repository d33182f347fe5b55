//! What lines ask for where a clock has the moments.
ghost use Rattle.std.specs.Prelude.{◌≡◌};
ghost use Rattle.std.specs.Option.{option_map};
ghost use Rattle.abt_live.specs.Clock.{clocked, emitted_now, is_word, started_now, without_moment};

use crate::fault::LiveFault;
use crate::source_asked::SourceAsked;

// What a line asks for at this moment of a clock, where it asked for `asked` if moments were handed in.
pub(crate) fn clocked(
    moment: Result<u64, LiveFault>,
    line: Option<&[u8]>,
    asked: SourceAsked,
) -> SourceAsked
    ensures { result ≡ clocked moment (option_map (λ line. line.now) line.entry) asked }
{
    if is_word(line, b"start") {
        return started_now(moment);
    }
    if is_word(line, b"emit") {
        return emitted_now(moment);
    }
    without_moment(asked)
}

// Whether a line is this word.
fn is_word(line: Option<&[u8]>, word: &[u8]) -> bool
    ensures { result ≡ is_word word.now (option_map (λ line. line.now) line.entry) }
{
    match line {
        Some(octets) => octets == word,
        None => false,
    }
}

// That the source starts at the moment of a clock.
fn started_now(moment: Result<u64, LiveFault>) -> SourceAsked
    ensures { result ≡ started_now moment }
{
    match moment {
        Ok(now) => SourceAsked::Start { now },
        Err(fault) => SourceAsked::Wrong(fault),
    }
}

// That the source emits a cell at the moment of a clock.
fn emitted_now(moment: Result<u64, LiveFault>) -> SourceAsked
    ensures { result ≡ emitted_now moment }
{
    match moment {
        Ok(now) => SourceAsked::Emit { now },
        Err(fault) => SourceAsked::Wrong(fault),
    }
}

// What is asked for, unless that is to happen at a moment that is handed in.
fn without_moment(asked: SourceAsked) -> SourceAsked
    ensures { result ≡ without_moment asked }
{
    match asked {
        SourceAsked::Start { .. } | SourceAsked::Emit { .. } => {
            SourceAsked::Wrong(LiveFault::Words)
        }
        other => other,
    }
}
