//! Texts written at the front of a slice, where there is room for all of them, and compared.
ghost use Rattle.std.specs.Prelude.{◌≡◌, ◌-◌, ◌^◌, ◌↔◌, ℕ, List, length, min, IfOk, IsTrue};
ghost use Rattle.cept_outside.specs.PlainSink.{plain_sink_bytes};
ghost use Rattle.cept_outside.specs.SinkState.{PutsText};
ghost use Rattle.cept_live.specs.Written.{Writes};

use cept_codes::NoMemory;
use cept_outside::{PlainSink, QuietSink, Sink, WriteFault};
use cept_repaint::Screen;
use cept_writer::write_page;
use std::alloc::Global;

/// What is put into a sink as bytes.
pub trait Text {
    /// The bytes.
    ghost text: { Self → List ℕ };

    /// Puts the bytes. After `WriteFault` a part of them was put, from their front on, and not all.
    fn put_into<T: Sink>(&self, sink: &mut T) -> Result<(), WriteFault>
        ensures { PutsText (T.state sink.old) (text self.now) result (T.state sink.new) };
}

/// The page of a screen, written.
impl Text for Screen {
    ghost use Rattle.cept_profile.specs.State.{core_of};
    ghost use Rattle.cept_writer.specs.CompactCommands.{page_text};

    ghost text = { λ screen. page_text (core_of screen) };

    fn put_into<T: Sink>(&self, sink: &mut T) -> Result<(), WriteFault> {
        write_page(self, sink)
    }
}

/// How many bytes a text has, up to the greatest u64.
fn text_len<W: Text>(text: &W) -> u64
    ensures { result ≡ min (length (W.text text.now)) (2 ^ 64 - 1) }
{
    let mut sink = QuietSink::new();
    let _ = text.put_into(&mut sink);
    sink.count()
}

/// A sink with a text, which has so many bytes.
fn sink_with<W: Text>(alloc: Global, text: &W, size: u32) -> Result<PlainSink, NoMemory>
    requires { length (W.text text.now) ≡ size }
    ensures { IfOk result (λ sink. plain_sink_bytes sink ≡ W.text text.now) }
{
    let mut sink = PlainSink::new(alloc, size)?;
    let _ = text.put_into(&mut sink);
    Ok(sink)
}

/// Puts a text at the front of `out`, where there is room for all of it, and answers how many bytes
/// it has; `None` where it is longer than `out`, which stays.
pub fn put_front<W: Text>(
    alloc: Global,
    text: &W,
    out: &mut [u8],
) -> Result<Option<usize>, NoMemory>
    ensures { Writes (W.text text.now) out.old result out.new }
{
    let size = text_len(text);
    if size > out.len() as u64 {
        return Ok(None);
    }
    let Ok(size) = u32::try_from(size) else {
        return Err(NoMemory);
    };
    let sink = sink_with(alloc, text, size)?;
    let bytes = sink.bytes();
    out[..bytes.len()].copy_from_slice(bytes);
    Ok(Some(bytes.len()))
}

/// Whether a text has just these bytes. Of 2^32 bytes or more it finds no memory.
#[inline(never)]
pub fn has_bytes<W: Text>(alloc: Global, text: &W, bytes: &[u8]) -> Result<bool, NoMemory>
    ensures { IfOk result (λ same. IsTrue same ↔ (W.text text.now ≡ bytes.now)) }
{
    let Ok(size) = u32::try_from(bytes.len()) else {
        return Err(NoMemory);
    };
    if text_len(text) != u64::from(size) {
        return Ok(false);
    }
    let sink = sink_with(alloc, text, size)?;
    Ok(sink.bytes() == bytes)
}
