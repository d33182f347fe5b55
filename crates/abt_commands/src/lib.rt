//! The commands of the program, carried out: a file each.
#![tactic(auto)]

mod advice;
mod audit;
mod audit_log;
mod audit_picture;
mod carry_out;
mod cell;
mod check;
mod check_files;
mod codes;
mod draw;
mod draw_advised;
mod draw_threads;
mod explain;
mod explain_advised;
mod input;
mod lines;
mod opening;
mod picture_file;
mod play;
mod play_advised;
mod port;
mod rate;
mod run;
mod run_besides;
mod run_strict;
mod saving;
mod source;
mod step;
mod switch;
mod threads;
mod threads_advised;
mod threads_events;
mod threads_journals;
mod threads_objects;
mod unread;
mod unwritten;

pub use carry_out::carry_out_command;
