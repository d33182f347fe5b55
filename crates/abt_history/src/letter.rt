//! Messages on their way.
ghost use Rattle.std.specs.Prelude.{◌≡◌};
ghost use Rattle.abt_weave.specs.Projections.{past_of};
ghost use Rattle.abt_serving.specs.Messages.{Lies, LiesHome};
ghost use Rattle.abt_history.specs.Histories.{happened};
ghost use Rattle.abt_history.specs.Modes.{When};

use crate::keeping::{Keeping, Kept};
use abt_cell::{Answer, Rm};
use std::marker::Model;

/// A message that was sent to a port, with what was seen then, if the run keeps its history.
#[derive(Drop)]
pub struct LetterOf<K: Keeping> {
    port: u16,
    message: Rm,
    front: K::Front,
}

/// A message of a run that keeps its history.
pub type Letter<N, J> = LetterOf<Kept<N, J>>;

impl<K: Keeping> Model for LetterOf<K> {
    ghost use Rattle.abt_weave.specs.Projections.{past_of};
    ghost use Rattle.abt_serving.specs.Messages.{Lies};
    ghost use Rattle.abt_history.specs.Histories.{happened};
    ghost use Rattle.abt_history.specs.Modes.{When};
    ghost use Rattle.abt_history.specs.Letters.{LetterView};

    ghost Value = { LetterView };

    ghost view = { λ l. record { port = l.port; message = l.message; front = K.log l.front } };

    ghost invariant = { λ l. When K.kept (Lies K.net (past_of K.net (happened (K.log l.front))) l.port l.message) };
}

impl<K: Keeping> LetterOf<K> {
    /// A message that was sent to this port, by what was seen.
    pub fn new(port: u16, message: Rm, front: K::Front) -> LetterOf<K>
        requires { When K.kept (Lies K.net (past_of K.net (happened (K.log front))) port message) }
        ensures { result ≡ record { port = port; message = message; front = K.log front } }
    {
        LetterOf {
            port,
            message,
            front,
        }
    }

    /// The port.
    pub fn port(&self) -> u16
        ensures { result ≡ self.now.port }
    {
        self.port
    }

    /// The message.
    pub fn message(&self) -> &Rm
        ensures { result.now ≡ self.now.message }
    {
        &self.message
    }

    /// What was seen when it was sent.
    pub fn front(&self) -> &K::Front
        ensures value { K.log result.now ≡ self.now.front }
        ensures lies { When K.kept
            (Lies K.net (past_of K.net (happened (K.log result.now))) self.now.port self.now.message) }
    {
        &self.front
    }
}

/// An answer that was sent to a source, with what was seen then, if the run keeps its history.
#[derive(Drop)]
pub struct NoticeOf<K: Keeping> {
    conn: u16,
    answer: Answer,
    front: K::Front,
}

/// An answer of a run that keeps its history.
pub type Notice<N, J> = NoticeOf<Kept<N, J>>;

impl<K: Keeping> Model for NoticeOf<K> {
    ghost use Rattle.abt_weave.specs.Projections.{past_of};
    ghost use Rattle.abt_serving.specs.Messages.{LiesHome};
    ghost use Rattle.abt_history.specs.Histories.{happened};
    ghost use Rattle.abt_history.specs.Modes.{When};
    ghost use Rattle.abt_history.specs.Letters.{NoticeView};

    ghost Value = { NoticeView };

    ghost view = { λ n. record { conn = n.conn; answer = n.answer; front = K.log n.front } };

    ghost invariant = { λ n. When K.kept (LiesHome K.net (past_of K.net (happened (K.log n.front))) n.conn n.answer) };
}

impl<K: Keeping> NoticeOf<K> {
    /// An answer that was sent to this source, by what was seen.
    pub fn new(conn: u16, answer: Answer, front: K::Front) -> NoticeOf<K>
        requires { When K.kept (LiesHome K.net (past_of K.net (happened (K.log front))) conn answer) }
        ensures { result ≡ record { conn = conn; answer = answer; front = K.log front } }
    {
        NoticeOf {
            conn,
            answer,
            front,
        }
    }

    /// The number of the source's connection.
    pub fn conn(&self) -> u16
        ensures { result ≡ self.now.conn }
    {
        self.conn
    }

    /// The answer.
    pub fn answer(&self) -> Answer
        ensures { result ≡ self.now.answer }
    {
        self.answer
    }

    /// What was seen when it was sent.
    pub fn front(&self) -> &K::Front
        ensures value { K.log result.now ≡ self.now.front }
        ensures lies { When K.kept
            (LiesHome K.net (past_of K.net (happened (K.log result.now))) self.now.conn self.now.answer) }
    {
        &self.front
    }
}
