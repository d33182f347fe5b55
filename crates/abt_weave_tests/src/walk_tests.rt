//! Journals that events project to, woven again, and the same journals with something changed, whose answer a slow search finds.
mod agree;
mod books;
mod edits;
mod ends;
mod held_back;
mod judge;
mod large;
mod long;
mod named;
mod others;
mod parts;
mod passes;
mod placing;
mod search;
mod small;
mod whole;
