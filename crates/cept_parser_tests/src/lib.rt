//! Tests of the parser: that its grammar is the one of the tables, which stand here a second time. Nothing
//! calls it.
#![tactic(auto)]

#[cfg(test)]
mod sweep;
#[cfg(test)]
mod tables;
