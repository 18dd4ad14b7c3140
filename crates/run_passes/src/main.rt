//! Runs the stored dialogue on hashes, written forms and the chip pass in hand.
#![tactic(auto)]

use console::Console;
use std::io;

// The programs differ in the dialogue stored beside them, and a crate has one program: so this stands in each.
fn main(rt: HostRuntime) -> io::Result<()> {
    Console::new(rt.alloc()).serve(&rt)?;
    Ok(())
}
