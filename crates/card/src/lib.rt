// The interface of an interrupt card: what a card and a handler are, what each call promises, and the law over every run of
// calls. `specs/` has the definitions that the promises are made in.
#![tactic(auto)]

mod calls;
mod faults;
mod fields;
mod interface;
mod outcomes;
mod withdrawn;

pub use calls::{CardCall, CardResult, perform, run};
pub use faults::{CardFault, Layer, Refusal};
pub use fields::{Field, Fields};
pub use interface::{Card, Handler, check_level, check_size, is_oversize};
pub use outcomes::{Answer, Driven, Reply};
pub use withdrawn::Withdrawn;
