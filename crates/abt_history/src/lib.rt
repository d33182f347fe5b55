//! The history of a run in threads, which exists in proofs alone.
#![tactic(auto)]

mod book;
mod bringing;
mod brought;
mod carrying_out;
mod deed;
mod ended;
mod front;
mod keeping;
mod laws;
mod left;
mod letter;
mod note;
mod place;
mod rule;
mod site;
mod station;
mod visitor;

pub use book::{Book, Opened};
pub use brought::Brought;
pub use deed::Deed;
pub use ended::{Ended, EndedOf};
pub use front::Front;
pub use keeping::{Keeping, Kept, NotKept};
pub use laws::ended_histories_are_woven;
pub use left::{Left, LeftOf, left_after};
pub use letter::{Letter, LetterOf, Notice, NoticeOf};
pub use place::{Naming, Place};
pub use rule::Law;
pub use site::{Site, SiteOf};
pub use station::{Station, StationOf};
