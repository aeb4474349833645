// Worked examples: a client that serves interrupts by token, and tests, chip by chip and for scripts. Each test is proved to be safe, and
// then run.
#![tactic(auto)]

mod clients;
#[cfg(test)]
mod mc68153_examples;
#[cfg(test)]
mod rack_examples;
#[cfg(test)]
mod scb68155_examples;
#[cfg(test)]
mod script_examples;
#[cfg(test)]
mod steps;
#[cfg(test)]
mod usc68hc908_examples;

pub use clients::{Stopped, serve_once};
