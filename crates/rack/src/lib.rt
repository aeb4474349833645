// The rack: any handler above any chain of cards, and one processor. Its calls, by depth and by token.
#![tactic(auto)]

mod calls;
mod faults;
mod levels;
mod rack;
mod tokens;

pub use calls::{Call, Outcome, Reached, Side};
pub use faults::RackFault;
pub use rack::Rack;
