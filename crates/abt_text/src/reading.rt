//! All octets of a reader, up to a limit.
ghost use Rattle.std.specs.Prelude.{◌≡◌, ◌<◌, ◌≤◌, ◌+◌, length, take, vec_len, IfOk, IfSome, IsErrOf, OnErr};
ghost use Rattle.std.specs.Io.KnownBytes.{Consumes, IsAtEnd, Keeps};
ghost use Rattle.abt_text.specs.Streams.{ConsumesAtMost, text_max};

use std::alloc::Global;
use std::io::{ErrorKind, Read};
use thiserror::Error;

/// The octets of a text at most.
pub const TEXT_MAX: usize = 16777216;

// How often a read or a write is tried that is interrupted each time.
pub(crate) const TRIES: u32 = 4294967295;

/// Why a text wasn't read.
#[derive(Clone, Copy, Debug, PartialEq, Eq, Error)]
pub enum TextFault {
    /// The reader failed.
    #[error("the input can't be read")]
    Read,
    /// There are more than [`TEXT_MAX`] octets.
    #[error("the text is too long")]
    TooLong,
    /// There was no memory for the text.
    #[error("out of memory")]
    Memory,
}

/// The reader failed.
#[derive(Clone, Copy, Debug, PartialEq, Eq, Error)]
#[error("the input can't be read")]
pub struct Unread;

/// All octets that a reader has left, at most [`TEXT_MAX`].
///
/// One octet past the limit shows that the text is too long, and nothing is read behind it: a reader that
/// never ends is refused, and a failure behind the limit isn't seen. What was read before a refusal is lost. A read that was
/// interrupted is tried again.
pub fn octets_of<R: Read>(alloc: Global, reader: &mut R) -> Result<Vec<u8>, TextFault>
    ensures ok { IfOk result (λ text. IfSome (R.remaining reader.old) (λ left. text.items ≡ left)) }
    ensures end { IfOk result (λ _. IsAtEnd (R.remaining reader.new)) }
    ensures limit { IfOk result (λ text. vec_len text ≤ text_max) }
    ensures too_long { IsErrOf result TextFault.TooLong
        → IfSome (R.remaining reader.old) (λ left. text_max < length left) }
    ensures stops { ConsumesAtMost (R.remaining reader.old) (R.remaining reader.new) (text_max + 1) }
{
    let mut text = Vec::new(alloc);
    let mut piece = [0; 4096];
    while text.len() <= TEXT_MAX {
        let room = (TEXT_MAX + 1 - text.len()).min(4096);
        let Ok(count) = read_some(reader, &mut piece[..room]) else {
            return Err(TextFault::Read);
        };
        if count == 0 {
            return Ok(text);
        }
        if text.extend_from_slice(&piece[..count]).is_err() {
            return Err(TextFault::Memory);
        }
    }
    Err(TextFault::TooLong)
}

/// Reads the next octets into some room, and gives how many they are: none only at the end. A read that was interrupted is tried again.
pub fn read_some<R: Read>(reader: &mut R, room: &mut [u8]) -> Result<usize, Unread>
    requires { 0 < length room.old }
    ensures within { IfOk result (λ count. count ≤ length room.new) }
    ensures same_room { length room.new ≡ length room.old }
    ensures ok { IfOk result
        (λ count. Consumes (R.remaining reader.old) (R.remaining reader.new) (take count room.new)) }
    ensures end { IfOk result (λ count. count ≡ 0 → IsAtEnd (R.remaining reader.new)) }
    ensures err { OnErr result (Keeps (R.remaining reader.old) (R.remaining reader.new)) }
{
    for _try in 0..TRIES {
        match reader.read(room) {
            Ok(count) => return Ok(count),
            Err(error) if error.kind() == ErrorKind::Interrupted => {}
            Err(_) => return Err(Unread),
        }
    }
    Err(Unread)
}
