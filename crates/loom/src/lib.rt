// The mill's rack: the plain handler above an MC68153 joined with another. One call runs a whole script on a new one.
#![tactic(auto)]

ghost use Rattle.std.specs.Prelude.{IfOk};
ghost use Rattle.script.specs.Laws.{Promises};
ghost use Rattle.loom.specs.Rack.{loom_parts, loom_start, LoomRan};

use joined::Joined;
use mc68153::Mc68153;
use plain::PlainHandler;
use std::alloc::{AllocError, Global};

/// Runs a whole script on a new rack. Gives what it prints, unless there is no memory for that. The law over every run holds of the calls
/// that the script made.
pub fn run(heap: Global, script: &[u8]) -> Result<Vec<u8>, AllocError>
    ensures ran { IfOk result (λ printed. LoomRan script.now printed.items) }
    ensures promises { IfOk result (λ printed. Promises loom_parts loom_start script.now printed.items) }
{
    let chain = Joined {
        front: Mc68153::new(),
        rear: Mc68153::new(),
    };
    script::run_script(heap, 1, PlainHandler {}, chain, script)
}
