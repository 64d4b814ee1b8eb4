//! How a source ended.
use std::fmt::Display;
use std::io;

/// More events than an example has.
pub const EVENTS: usize = 1000;

/// Prints how many events came, and the fault behind them, if one came.
pub fn show_ended<F: Display + Drop>(
    rt: &impl Print,
    count: usize,
    fault: Option<F>,
) -> io::Result<()> {
    match fault {
        None => println!(rt; "{count} events"),
        Some(fault) => println!(rt; "{count} events, refused {fault}"),
    }
}
