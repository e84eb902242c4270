//! The outside of the decoder: a shelf that files are taken from, a sink that bytes are put into,
//! and steps that are counted. It knows no page, no command and no screen.
#![tactic(auto)]

mod calls;
mod fault;
mod file_shelf;
mod law;
mod machine;
mod mem_shelf;
mod mem_sink;
mod plain_shelf;
mod plain_sink;
mod putting;
mod quiet_shelf;
mod quiet_sink;
mod rack;
mod shelf;
mod sink;
mod slice_shelf;
mod slice_sink;
mod std_sink;
mod steps;

pub use fault::{Failed, WriteFault};
pub use file_shelf::FileShelf;
pub use law::{files_are_taken_in_parts, texts_are_put_in_parts};
pub use mem_shelf::MemShelf;
pub use mem_sink::MemSink;
pub use plain_shelf::PlainShelf;
pub use plain_sink::PlainSink;
pub use putting::put_all;
pub use quiet_shelf::QuietShelf;
pub use quiet_sink::QuietSink;
pub use shelf::Shelf;
pub use sink::Sink;
pub use slice_shelf::{SliceFile, SliceShelf};
pub use slice_sink::{Filled, Lent, SliceSink};
pub use std_sink::StdSink;
pub use steps::Steps;
