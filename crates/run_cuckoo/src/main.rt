//! Runs the stored dialogue that fills cuckoo tables until a put is not taken.
#![tactic(auto)]

use console::Console;
use std::io;

// The programs differ in the dialogue stored beside them, and a crate has one program: so this stands in each.
fn main(rt: HostRuntime) -> io::Result<()> {
    Console::new(rt.alloc()).serve(&rt)?;
    Ok(())
}
