//! Runs worked examples over the library, and prints what comes of each.
#![tactic(auto)]

mod calls;
mod ended;
mod folders;
mod journals;
mod listings;
mod selections;
mod texts;

use std::io;

fn main(rt: HostRuntime) -> io::Result<()> {
    texts::show(&rt)?;
    listings::show(&rt)?;
    folders::show(&rt)?;
    calls::show(&rt)?;
    journals::show(&rt)?;
    selections::show(&rt)
}
