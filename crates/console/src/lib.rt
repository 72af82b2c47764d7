// The C entries: numbers and byte slices only. docs/BOUNDARY.md has each with what it answers and writes.
#![tactic(auto)]

mod calls;
mod capture;
mod compare;
mod device;
mod event;
mod nonblocking;
mod ring;
mod sizes;
mod stores;
mod traces;
mod transfer;
mod versions;
mod wave;
