//! Gates: the code of a caller round the lock of a port.

/// Two moments of a call at a port at which a caller's code may run: tests hold threads there.
pub trait Gate {
    /// Runs before the lock is asked for.
    fn before(&self, caller: u16, port: u16);

    /// Runs while the lock is held.
    fn inside(&self, caller: u16, port: u16);
}

/// A gate that does nothing.
#[derive(Clone, Copy, Debug)]
pub struct OpenGate;

impl Gate for OpenGate {
    fn before(&self, _caller: u16, _port: u16) {}

    fn inside(&self, _caller: u16, _port: u16) {}
}
