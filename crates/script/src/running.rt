ghost use Rattle.std.specs.Prelude.{◌≡◌, ◌+◌, ◌*◌, ◌≤◌, ◌++◌, length, IfOk, OnOk};
ghost use Rattle.rack.specs.Machine.{parts, start};
ghost use Rattle.script.specs.Pieces.{lines};
ghost use Rattle.script.specs.Running.{line_gives, line_leaves, line_result, line_output, line_exit, printed_by, ScriptRan};
ghost use Rattle.script.specs.Laws.{StaysIfRefused, Promises};

use crate::cutting::Lines;
use crate::faults::ScriptFault;
use crate::parsing::parse;
use crate::printing::{LINE_ROOM, show};
use card::{Card, Handler};
use rack::{Outcome, Rack};
use std::alloc::{AllocError, Global};

// The most bytes that a script may have.
const LONGEST_SCRIPT: usize = 65_536;

/// Makes the call of a line on a rack. A line that is refused, as text or by the rack, changes nothing.
pub fn obey<H: Handler, C: Card>(rack: &mut Rack<H, C>, text: &[u8]) -> Result<Outcome, ScriptFault>
    ensures result { result ≡ line_gives (parts H.Handler C.Card) rack.old text.now }
    ensures after { rack.new ≡ line_leaves (parts H.Handler C.Card) rack.old text.now }
    ensures refused { StaysIfRefused rack.old result rack.new }
{
    let call = parse(text)?;
    Ok(rack.step(call)?)
}

/// Makes the call of a line, the line having this number, and sets what is printed of it over the first bytes of `out`. Gives how many.
pub fn line<H: Handler, C: Card>(
    rack: &mut Rack<H, C>,
    number: u64,
    text: &[u8],
    out: &mut [u8],
) -> Result<usize, ScriptFault>
    ensures result { result ≡ line_result (parts H.Handler C.Card) rack.old number text.now out.old }
    ensures prints { out.new ≡ line_output (parts H.Handler C.Card) rack.old number text.now out.old }
    ensures after { rack.new ≡ line_exit (parts H.Handler C.Card) rack.old text.now out.old }
{
    if out.len() < LINE_ROOM {
        return Err(ScriptFault::ShortOutput);
    }
    let page = show(number, obey(rack, text));
    let printed = page.as_bytes();
    out[..printed.len()].copy_from_slice(printed);
    Ok(printed.len())
}

fn run_lines<H: Handler, C: Card>(
    rack: &mut Rack<H, C>,
    script: &[u8],
    out: &mut Vec<u8>,
) -> Result<(), AllocError>
    requires { length script.now ≤ 65536 }
    ensures prints { OnOk result (out.new.items ≡ out.old.items ++ printed_by (parts H.Handler C.Card) rack.old 1 (lines script.now)) }
    ensures bound { OnOk result (length out.new.items ≤ length out.old.items + 32 * length script.now) }
{
    for (number, text) in (1u64..).zip(Lines::new(script)) {
        let page = show(number, obey(rack, text));
        out.extend_from_slice(page.as_bytes())?;
    }
    Ok(())
}

/// Makes a rack of a handler and a chain, and runs a whole script on it. Gives what it prints, unless there is no memory for that. The law
/// over every run holds of the calls that the script made.
pub fn run_script<H: Handler + Drop, C: Card + Drop>(
    heap: Global,
    number: u32,
    handler: H,
    chain: C,
    script: &[u8],
) -> Result<Vec<u8>, AllocError>
    ensures ran { IfOk result (λ printed. ScriptRan (parts H.Handler C.Card) (start number handler chain) script.now printed.items) }
    ensures promises { IfOk result (λ printed. Promises (parts H.Handler C.Card) (start number handler chain) script.now printed.items) }
{
    let mut rack = Rack::new(number, handler, chain);
    let mut out = Vec::new(heap);
    if script.len() > LONGEST_SCRIPT {
        let page = show(0, Err(ScriptFault::LongScript));
        out.extend_from_slice(page.as_bytes())?;
        return Ok(out);
    }
    run_lines(&mut rack, script, &mut out)?;
    Ok(out)
}
