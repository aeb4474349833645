// The processor's side of a rack: its mask, the level that it has taken, its open services, and the tokens for them. It knows no card:
// a take is told the presented level.
#![tactic(auto)]

mod processor;
mod runs;
mod state;
mod tokens;

pub use processor::Processor;
pub use runs::run;
pub use state::{Done, ProcessorCall, ProcessorFault, State};
pub use tokens::{OpenService, Refused, ServiceToken, TakenLevel, TakenToken, Token};
