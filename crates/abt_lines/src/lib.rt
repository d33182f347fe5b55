//! Lines of any reader, answered one after the other, in memory that doesn't grow with the input.
#![tactic(auto)]

mod answers;
mod begun;
mod cutting;
mod fault;
mod law;
mod server;
mod serving;

pub use begun::LINE_MAX;
pub use fault::LinesFault;
pub use law::a_function_answers;
pub use server::LineServer;
pub use serving::serve_lines;
