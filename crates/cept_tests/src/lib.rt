//! Tests of the libraries below the screen, through their public calls alone: the real file and output, printed
//! errors, and each call that takes memory once with ample memory. Nothing calls it.
#![tactic(auto)]

#[cfg(test)]
mod disk;
#[cfg(test)]
mod machine;
#[cfg(test)]
mod memory;
#[cfg(test)]
mod printed;
