//! Tests of the crates that move files: shelves, sinks, devices and logs.
#![tactic(auto)]

#[cfg(test)]
mod devices;
#[cfg(test)]
mod lines;
#[cfg(test)]
mod shelves;
#[cfg(test)]
mod two_racks;
