//! Compares two listings by what a rule selects from them.
#![tactic(auto)]

mod comparison;
mod node;
mod path;
mod printing;
mod side;
#[cfg(test)]
mod tests;

use printing::run;
use std::io;

fn main(rt: HostRuntime) -> io::Result<()> {
    run(rt.stdin(), &mut rt.stdout(), rt.alloc())
}
