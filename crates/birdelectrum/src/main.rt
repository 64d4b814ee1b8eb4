//! Reports the folders of a listing at which a rule occurs.
#![tactic(auto)]

mod printing;
#[cfg(test)]
mod tests;

use printing::run;
use std::io;

fn main(rt: HostRuntime) -> io::Result<()> {
    run(rt.stdin(), &mut rt.stdout(), rt.alloc())
}
