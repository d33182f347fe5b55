//! A source, a link worker and an operator at two ports. What the clauses don't say: that messages go on and answers are heard.
mod access;
mod bare;
mod ends;
mod fixture;
mod kept;
mod link;
mod messages;
mod opening;
mod operator;
mod source;
mod threads;
mod woven;
