//! Worked examples and the limits, as tests.
#![tactic(auto)]

#[cfg(test)]
mod calls;
#[cfg(test)]
mod journals;
#[cfg(test)]
mod listings;
#[cfg(test)]
mod names;
#[cfg(test)]
mod records;
#[cfg(test)]
mod selections;
#[cfg(test)]
mod tables;
#[cfg(test)]
mod texts;
#[cfg(test)]
mod trees;
