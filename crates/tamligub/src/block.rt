//! A block of memory with a live decoder in it, behind a pointer that C keeps.
ghost use Rattle.std.specs.Prelude.{◌≡◌, true, false, Bool};
ghost use Rattle.cept_live.specs.declared.live.Live.{Live as LiveValue};

use crate::parts::Parts;
use cept_live::Live;
use std::alloc::Global;
use std::marker::Model;

/// A live decoder in a block of its own, where one is held. It can't be dropped, so that no block is
/// lost.
#[repr(C)]
pub struct Block {
    at: *mut u8,
    pub ghost held: { Bool },
    pub ghost value: { LiveValue },
}

impl Model for Block {
    ghost use Rattle.tamligub.specs.Owned.{held_owns};

    ghost also_owns = { λ b. held_owns b.held b.at b.value };
}

impl Block {
    /// None.
    pub fn none() -> Block
        ensures { result.held ≡ false }
    {
        Block {
            at: std::ptr::null_mut(),
        }
    }

    /// A block with the decoder of a box.
    pub fn of(parts: Parts<Live, Global>) -> Block
        ensures { (result.held ≡ true) × (result.value ≡ parts.value) }
    {
        let Parts { ptr, alloc: _ } = parts;
        Block { at: ptr as *mut u8 }
    }

    /// The parts of the box of its decoder.
    pub fn into_parts(self, alloc: Global) -> Parts<Live, Global>
        requires { self.held ≡ true }
        ensures { result.value ≡ self.value }
    {
        let Block { at } = self;
        Parts {
            ptr: at as *mut Live,
            alloc,
        }
    }

    /// Nothing, where none is held.
    pub fn into_nothing(self)
        requires { self.held ≡ false }
    {
        let Block { at: _ } = self;
    }
}
