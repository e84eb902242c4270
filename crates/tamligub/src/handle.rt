//! What C keeps of a decoder.
ghost use Rattle.std.specs.Prelude.{◌≡◌, true, false, Some, None, [], IfOk, if◌then◌else◌, option_map};
ghost use Rattle.cept_live.specs.Live.{HasFed, live_start};

use crate::block::Block;
use crate::parts::Parts;
use cept_codes::NoMemory;
use cept_live::Live;
use std::alloc::Global;
use std::mem::replace;

/// A decoder before the first byte, in a box.
// While it is made it stands on the stack, which is that of this call alone.
#[inline(never)]
pub fn live_at_start(alloc: Global) -> Result<Box<Live, Global>, NoMemory>
    ensures start { IfOk result (λ b. b.value ≡ live_start) }
    ensures fed { IfOk result (λ b. HasFed b.value []) }
{
    let Ok(live) = Live::new(alloc) else {
        return Err(NoMemory);
    };
    let Ok(boxed) = Box::new(alloc, live) else {
        return Err(NoMemory);
    };
    Ok(boxed)
}

/// A decoder, where one is open. It can't be dropped: one that is open is taken out first.
#[repr(C)]
pub struct Decoder {
    pub block: Block,
    pub is_open: bool,
    ghost told: { block.held ≡ is_open },
}

impl Decoder {
    /// None is open.
    pub fn closed() -> Decoder
        ensures { result.is_open ≡ false }
    {
        Decoder {
            block: Block::none(),
            is_open: false,
        }
    }

    /// The decoder of a box.
    fn of(boxed: Box<Live, Global>) -> Decoder
        ensures is_open { result.is_open ≡ true }
        ensures value { result.block.value ≡ boxed.value }
    {
        Decoder {
            block: Block::of(Parts::of(boxed)),
            is_open: true,
        }
    }

    /// Takes its box out, where one is open: from then on none is.
    pub fn take(&mut self, alloc: Global) -> Option<Box<Live, Global>>
        ensures value { option_map (λ b. b.value) result
            ≡ (if self.old.is_open then Some self.old.block.value else None) }
        ensures closed { self.new.is_open ≡ false }
    {
        let Decoder { block, is_open } = replace(self, Decoder::closed());
        if is_open {
            Some(block.into_parts(alloc).into_box())
        } else {
            block.into_nothing();
            None
        }
    }

    /// Puts a box in, where none is open: from then on it is.
    pub fn put(&mut self, boxed: Box<Live, Global>)
        requires { self.old.is_open ≡ false }
        ensures is_open { self.new.is_open ≡ true }
        ensures value { self.new.block.value ≡ boxed.value }
    {
        let Decoder { block, is_open: _ } = replace(self, Decoder::of(boxed));
        block.into_nothing();
    }

    /// Nothing, where none is open.
    #[cfg(test)]
    pub fn into_nothing(self)
        requires { self.is_open ≡ false }
    {
        let Decoder { block, is_open: _ } = self;
        block.into_nothing();
    }
}
