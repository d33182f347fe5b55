mod fixture;
mod follow;
mod journal;
mod ports;
