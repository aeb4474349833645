// Reads a script on standard input, runs it on the rack, and prints a line for each of its lines.
#![tactic(auto)]

use std::io;
use std::io::{Read, Write};

fn main(rt: HostRuntime) -> io::Result<()> {
    let mut text = Vec::new(rt.alloc());
    // A script may have 65,536 bytes: one byte more tells that it is too long.
    rt.stdin().take(65_537).read_to_end(&mut text)?;
    let printed = loom::run(rt.alloc(), &text)?;
    rt.stdout().write_all(&printed)
}
