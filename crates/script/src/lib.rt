// Scripts: lines in, lines out. A line makes one call of a rack; what is printed of it is its number and the result.
#![tactic(auto)]

mod cutting;
mod faults;
mod parsing;
mod printing;
mod running;
mod words;

pub use faults::ScriptFault;
pub use parsing::parse;
pub use running::{line, obey, run_script};
