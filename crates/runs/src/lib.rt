// Runs of a rack: any list of calls, granted or refused, and the law that holds of all of them (`specs/Law.antt`).
#![tactic(auto)]

ghost use Rattle.std.specs.Prelude.{IfOk};
ghost use Rattle.rack.specs.Machine.{parts, start};
ghost use Rattle.runs.specs.Law.{Ran};

use card::{Card, Handler};
use rack::{Call, Outcome, Rack, RackFault};
use std::alloc::{AllocError, Global};

/// Makes a rack of a handler and a chain, and the calls in turn. Gives the rack and what each call gave, unless there is no memory for
/// that. The law over every run holds of what was done.
pub fn run<H: Handler + Drop, C: Card + Drop>(
    heap: Global,
    number: u32,
    handler: H,
    chain: C,
    calls: &[Call],
) -> Result<(Rack<H, C>, Vec<Result<Outcome, RackFault>>), AllocError>
    ensures { IfOk result (λ v. Ran (parts H.Handler C.Card) (start number handler chain) calls.now v.0 v.1.items) }
{
    let mut rack = Rack::new(number, handler, chain);
    let mut results = Vec::new(heap);
    for call in calls {
        results.push(rack.step(*call))?;
    }
    Ok((rack, results))
}
