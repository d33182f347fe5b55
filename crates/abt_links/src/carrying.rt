//! How messages of a run go from one worker to another.
use crate::cell::CellOf;
use crate::parcel::{Parcel, ParcelOf};
use abt_cell::Answer;
use abt_history::{Front, Keeping, Kept, Naming, NotKept, Notice, NoticeOf, Place};

/// What lies in the channel to the link workers and in the answer boxes of a run that keeps its history, or keeps none.
pub trait Carrying: Keeping {
    ghost use Rattle.std.specs.Prelude.{◌≡◌, IfSome};
    ghost use Rattle.std.specs.Option.{option_map};
    ghost use Rattle.abt_weave.specs.Projections.{past_of};
    ghost use Rattle.abt_serving.specs.Messages.{LiesHome};
    ghost use Rattle.abt_history.specs.Histories.{happened};
    ghost use Rattle.abt_history.specs.Modes.{When};
    ghost use Rattle.abt_links.specs.declared.parcel.Parcel.{Parcel};
    ghost use Rattle.abt_links.specs.Carried.{IsCarried};
    ghost use Rattle.abt_links.specs.Parcels.{cell_in};

    /// What link workers take from their channel.
    type Parcel: Drop;

    /// An answer in the box of its source.
    type Told: Drop;

    ghost plain: { Self.Parcel → Parcel };

    /// The parcel of a cell for a port, by what was seen.
    fn packed(port: u16, octets: [u8; 52], front: Self::Front) -> Self::Parcel
        requires { When Self.kept (IsCarried Self.net (Self.log front) port octets) }
        ensures { plain result ≡ Parcel.Cell port octets };

    /// The parcel at which a worker ends.
    fn stop() -> Self::Parcel
        ensures { plain result ≡ Parcel.Stop };

    /// The port, the cell and what was seen of a parcel, if it doesn't say stop.
    fn opened(parcel: Self::Parcel) -> Option<(u16, [u8; 52], Self::Front)>
        ensures cell { option_map (λ c. record { port = c.0; octets = c.1 }) result ≡ cell_in (plain parcel) }
        ensures carried { IfSome result (λ c. When Self.kept
            (IsCarried Self.net (Self.log c.2) c.0 c.1)) };

    /// An answer that was sent to this source, by what was seen, as it lies in a box.
    fn told(conn: u16, answer: Answer, front: Self::Front) -> Self::Told
        requires { When Self.kept
            (LiesHome Self.net (past_of Self.net (happened (Self.log front))) conn answer) };

    /// The answer that lay in the box of this source, and what was seen. One to another source is lost.
    fn heard(conn: u16, told: Self::Told) -> Option<(Answer, Self::Front)>
        ensures { IfSome result (λ r. When Self.kept
            (LiesHome Self.net (past_of Self.net (happened (Self.log r.1))) conn r.0)) };
}

impl Carrying for NotKept {
    type Parcel = Parcel;

    type Told = Answer;

    ghost plain = { λ parcel. parcel };

    fn packed(port: u16, octets: [u8; 52], _front: NotKept) -> Parcel {
        Parcel::Cell { port, octets }
    }

    fn stop() -> Parcel {
        Parcel::Stop
    }

    fn opened(parcel: Parcel) -> Option<(u16, [u8; 52], NotKept)> {
        match parcel {
            Parcel::Cell { port, octets } => Some((port, octets, NotKept)),
            Parcel::Stop => None,
        }
    }

    fn told(_conn: u16, answer: Answer, _front: NotKept) -> Answer {
        answer
    }

    fn heard(_conn: u16, told: Answer) -> Option<(Answer, NotKept)> {
        Some((told, NotKept))
    }
}

impl<N: Place, J: Naming> Carrying for Kept<N, J> {
    ghost use Rattle.abt_links.specs.Parcels.{plain_of};

    type Parcel = ParcelOf<Kept<N, J>>;

    type Told = Notice<N, J>;

    ghost plain = { λ parcel. plain_of parcel };

    fn packed(port: u16, octets: [u8; 52], front: Front<N, J>) -> ParcelOf<Kept<N, J>> {
        ParcelOf::Cell(CellOf::new(port, octets, front))
    }

    fn stop() -> ParcelOf<Kept<N, J>> {
        ParcelOf::Stop
    }

    fn opened(parcel: ParcelOf<Kept<N, J>>) -> Option<(u16, [u8; 52], Front<N, J>)> {
        match parcel {
            ParcelOf::Cell(cell) => Some(cell.into_parts()),
            ParcelOf::Stop => None,
        }
    }

    fn told(conn: u16, answer: Answer, front: Front<N, J>) -> Notice<N, J> {
        NoticeOf::new(conn, answer, front)
    }

    fn heard(conn: u16, told: Notice<N, J>) -> Option<(Answer, Front<N, J>)> {
        if told.conn() != conn {
            return None;
        }
        Some((told.answer(), told.front().again()))
    }
}
