//! Texts of journals, read line by line into a book, and whole journals written as such a text.
#![tactic(auto)]

mod begun;
mod book;
mod entering;
mod entry_lines;
mod fault;
mod laws;
mod line_laws;
mod lists;
mod net_line;
mod open_write;
mod put_line;
mod reading;
mod run;
mod spot;
mod write_fault;
mod writing;

pub use abt_entry::{LineFault, Member};
pub use book::Book;
pub use fault::{Cause, TextFault};
pub use laws::each_text_tells_one_thing;
pub use line_laws::what_is_written_is_read;
pub use open_write::OpenWrite;
pub use reading::read_text;
pub use run::Run;
pub use spot::Spot;
pub use write_fault::WriteFault;
pub use writing::write_journals;
