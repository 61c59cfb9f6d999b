//! Tests of gated logs: what appends, halves and crashes leave.
#![tactic(auto)]

#[cfg(test)]
mod counts;
#[cfg(test)]
mod halves;
#[cfg(test)]
mod logs;
#[cfg(test)]
mod racks;
