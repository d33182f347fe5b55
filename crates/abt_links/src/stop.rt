//! Link workers that are told to stop.
ghost use Rattle.std.specs.Prelude.{◌≡◌};
ghost use Rattle.abt_links.specs.Stopping as stopping;

use crate::Carrying;
use crossbeam_channel::{Receiver, SendError, Sender};
use std::alloc::AllocError;
use std::sync::Wait;
use std::thread;

// Makes room in a channel for so many stops. A channel keeps the room that it has had, so once the link workers have taken what
// lies before them, no stop wants memory.
pub(crate) fn room_for_stops<K: Carrying, R: Wait>(
    rt: &R,
    to: &Sender<K::Parcel>,
    from: &Receiver<K::Parcel>,
    workers: usize,
) -> Result<(), AllocError> {
    for _stop in 0..workers {
        if to.send(rt, K::stop()).is_err() {
            return Err(AllocError);
        }
    }
    for _stop in 0..workers {
        let _ = from.try_recv(rt);
    }
    Ok(())
}

// Puts so many stops into the channel.
pub(crate) fn stop_all<K: Carrying, R: Wait>(rt: &R, to: &Sender<K::Parcel>, workers: usize) {
    for _stop in 0..workers {
        stop_one::<K, R>(rt, to);
    }
}

// Puts a stop into the channel, again and again until it need not be sent once more.
fn stop_one<K: Carrying, R: Wait>(rt: &R, to: &Sender<K::Parcel>) {
    for _ in rt.forever() {
        if is_done(&to.send(rt, K::stop())) {
            break;
        }
        thread::yield_now();
    }
}

// Whether a stop with this result need not be sent again: the channel took it, or no link worker is left.
fn is_done<T>(sent: &Result<(), SendError<T>>) -> bool
    ensures { result ≡ stopping.is_done sent.now }
{
    !matches!(sent, Err(SendError::OutOfMemory(_)))
}
