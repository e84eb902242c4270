//! Tests of the screen and of what stands on it, through their public calls alone: what no clause says, worked
//! values, and each call that takes memory once with ample memory. Nothing calls it.
#![tactic(auto)]

#[cfg(test)]
mod applying;
#[cfg(test)]
mod editor;
#[cfg(test)]
mod flash;
#[cfg(test)]
mod looks;
#[cfg(test)]
mod plot;
#[cfg(test)]
mod repaint;
#[cfg(test)]
mod report;
#[cfg(test)]
mod undo;
#[cfg(test)]
mod writer;
