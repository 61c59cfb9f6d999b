//! Tests of volumes and of what they hold: what records, changed bytes and failed calls leave.
#![tactic(auto)]

#[cfg(test)]
mod calls;
#[cfg(test)]
mod changing;
#[cfg(test)]
mod counting;
#[cfg(test)]
mod files;
#[cfg(test)]
mod images;
#[cfg(test)]
mod indexes;
#[cfg(test)]
mod judging;
#[cfg(test)]
mod opening;
#[cfg(test)]
mod tables;
