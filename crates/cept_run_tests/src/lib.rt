//! Tests of whole runs, of what no run of the built program shows: an outside that fails at any call, glasses
//! and a display of one's own, and quiet runs. Nothing calls it.
#![tactic(auto)]

#[cfg(test)]
mod glasses;
#[cfg(test)]
mod hostile;
#[cfg(test)]
mod quiet;
#[cfg(test)]
mod running;
