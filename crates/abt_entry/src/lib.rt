//! Entries of journals as lines of JSON, read and written, and the members of JSON objects in such lines.
#![tactic(auto)]

mod cell;
mod digits;
mod fault;
mod line;
mod member;
mod members;
mod net;
mod port;
mod put;
mod put_port;
mod put_source;
mod reading;
mod source;
mod text_words;
mod value;
mod words;
mod writing;

pub use cell::{answer_in, channel_in, request_in};
pub use fault::LineFault;
pub use line::{Line, NetDraft};
pub use member::Member;
pub use members::{begin, end, push_code, push_number, push_rate, push_text};
pub use put::{put_answer, put_channel, put_number, put_rate, put_request, put_word};
pub use reading::read_line;
pub use value::{
    find, long_at, long_of, member_at, number_at, number_of, rate_as, rate_at, short_at, short_of,
    truth_at, whole_in,
};
pub use writing::{entry_line, outcome_text, reply_text, step_line};
