ghost use Rattle.std.specs.Prelude.{◌≡◌, [], IsOk};
ghost use Rattle.cept_outside.specs.SinkState.{PutsText};

use crate::fault::WriteFault;
use crate::sink::Sink;

/// Puts the whole text, piece by piece as the sink takes them. After `WriteFault` a part of the
/// text was put, from its front on, and not the whole.
pub fn put_all<T: Sink>(sink: &mut T, text: &[u8]) -> Result<(), WriteFault>
    ensures puts { PutsText (T.state sink.old) text.now result (T.state sink.new) }
    ensures empty { text.now ≡ [] → IsOk result × (T.state sink.new ≡ T.state sink.old) }
{
    let mut rest = text;
    while !rest.is_empty() {
        match sink.put(rest) {
            Ok(count) => rest = &rest[count..],
            Err(_) => return Err(WriteFault),
        }
    }
    Ok(())
}
