ghost use Rattle.std.specs.Prelude.{◌≡◌};
ghost use Rattle.card.specs.Runs.{end_of};
ghost use Rattle.processor.specs.Steps.{fresh, leaves};
ghost use Rattle.processor.specs.Events.{ProcessorKeeps, own_log};

use crate::processor::Processor;
use crate::state::ProcessorCall;

/// Makes a processor, and then calls of it in turn, granted or refused. Takes, acknowledges and returns balance, and each granted return
/// puts back the mask that its take found.
pub fn run(number: u32, calls: &[ProcessorCall]) -> Processor
    ensures after { result ≡ end_of leaves (fresh number) calls.now }
    ensures keeps { ProcessorKeeps (own_log (fresh number) calls.now) result }
{
    let mut processor = Processor::new(number);
    for call in calls {
        let _ = processor.step(*call);
    }
    processor
}
