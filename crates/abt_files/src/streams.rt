//! The standard streams.
ghost use Rattle.std.specs.Prelude.{◌<ℤ◌, pos, IfOk};
ghost use Rattle.std.specs.Fd.{file_raw_fd};

use std::fs::{File, OpenOptions};
use std::io::{Error, ErrorKind, Result};
use std::os::fd::{AsRawFd, IntoRawFd};
use std::rt::Files;

// What takes the numbers of streams that are closed.
const NOTHING: &str = "/dev/null";

/// Fills each standard stream that is closed, so that no file that is opened takes its number: what is read or written there fails as it
/// does where a stream is closed. For the beginning of a program. The system gives a file the least number that is free: so once it gives
/// one above those of the streams, which is the result, none of them is.
///
/// # Errors
/// If no file is opened.
pub fn fill_streams<T: Files<File = File>>(rt: &T) -> Result<File>
    ensures { IfOk result (λ spare. pos 2 <ℤ file_raw_fd spare) }
{
    let written = OpenOptions::new().write(true).open(rt, NOTHING)?;
    if written.as_raw_fd() == 0 {
        let _ = written.into_raw_fd();
    }
    for _ in 0..3 {
        let read = OpenOptions::new().read(true).open(rt, NOTHING)?;
        if read.as_raw_fd() > 2 {
            return Ok(read);
        }
        let _ = read.into_raw_fd();
    }
    Err(Error::from(ErrorKind::Other))
}
