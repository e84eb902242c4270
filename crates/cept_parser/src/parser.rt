ghost use Rattle.std.specs.Prelude.{◌≡◌, ◌≤◌, ◌<◌, ◌+◌, ◌-◌, ℕ, List, [], ◌++◌, length};
ghost use Rattle.std.specs.Prelude.{true, false, IfSome, IsSome};
ghost use Rattle.cept_parser.specs.Items.{items, closed_items, closing_items};
ghost use Rattle.cept_parser.specs.Valid.{AreValid, AreMeasured};
ghost use Rattle.cept_parser.specs.Waits.{IsWaiting};

use crate::closed::Closed;
use crate::context::Context;
use crate::reader::Reader;
use arrayvec::ArrayVec;
use cept_codes::Item;
use std::marker::Model;

/// The list of at most two items.
fn list_of(items: &[Item]) -> ArrayVec<Item, 2>
    requires { length items.now ≤ 2 }
    ensures { result.items ≡ items.now }
{
    let mut list = ArrayVec::new();
    for item in items {
        list.push(*item);
    }
    list
}

/// The stream of bytes, read one at a time.
#[derive(Drop)]
pub struct Parser {
    place: u64,
    reader: Reader,
    finished: bool,
}

impl Model for Parser {
    ghost use Rattle.cept_parser.specs.State.{ParserState};

    ghost Value = { ParserState };

    ghost use Rattle.cept_parser.specs.Waits.{IsWaiting};

    ghost view = { λ p. record {
      place = p.place;
      context = p.reader.context;
      pending = p.reader.bytes;
      finished = p.finished;
    } };

    ghost invariant = { λ p. IsWaiting p.reader p.place };
}

impl Parser {
    ghost use Rattle.cept_parser.specs.Pushing.{CanPush, IsPushed};
    ghost use Rattle.cept_parser.specs.State.{Leads};
    ghost use Rattle.cept_parser.specs.State.{pending_reading};
    ghost use Rattle.cept_parser.specs.State.{finished_state, running_state};

    /// A parser before the first byte.
    pub fn new() -> Parser
        ensures { Leads [] result }
    {
        Parser {
            place: 0,
            reader: Reader::new(Context::start()),
            finished: false,
        }
    }

    /// A running parser after so many bytes, which reads on in this context with these bytes
    /// pending. `None` where the context is no valid one, or where these bytes, right before the
    /// place, would not wait in it.
    pub fn resumed(place: u64, context: Context, pending: &[u8]) -> Option<Parser>
        ensures resumed { IfSome result (λ parser. parser
            ≡ running_state place context pending.now) }

        // Every state that bytes lead to is resumed.
        ensures always { (b : List ℕ) → Leads b (running_state place context pending.now)
            → IsSome result }
    {
        if !context.is_valid() {
            return None;
        }
        if pending.len() as u64 > place {
            return None;
        }
        match Reader::with_pending(context, pending) {
            Some(reader) => Some(Parser {
                place,
                reader,
                finished: false,
            }),
            None => None,
        }
    }

    /// The number of bytes pushed.
    pub fn place(&self) -> u64
        ensures { result ≡ self.now.place }
    {
        self.place
    }

    /// The number of bytes that are no item yet, at most 99.
    pub fn pending(&self) -> usize
        ensures pending { result ≡ length self.now.pending }
        ensures few { result ≤ 99 }
    {
        self.reader.bytes.len() as usize
    }

    /// The context in which the next byte is read.
    pub fn context(&self) -> Context
        ensures context { result ≡ self.now.context }
    {
        self.reader.context
    }

    /// The bytes that are no item yet.
    pub fn pending_bytes(&self) -> &[u8]
        ensures bytes { result.now ≡ self.now.pending }
        ensures few { length result.now ≤ 99 }
    {
        self.reader.bytes.as_slice()
    }

    /// Reads one byte more, and answers the items that it closes, in order. The caller pushes at
    /// most 2^32 bytes, and none after `finish`.
    pub fn push(&mut self, byte: u8) -> ArrayVec<Item, 2>
        requires { CanPush self.old }
        ensures { IsPushed byte self.old self.new result.items }
    {
        let mut closed = Closed::new();
        self.push_into(byte, &mut closed);
        list_of(closed.as_slice())
    }

    /// As `push`, onto a list of the caller's, which then has the items of this byte alone.
    #[inline(always)]
    pub fn push_into(&mut self, byte: u8, list: &mut Closed)
        requires { CanPush self.old }
        ensures { IsPushed byte self.old self.new list.new }
    {
        list.clear();
        self.reader.read(self.place, byte, list);
        self.place += 1;
    }

    /// Closes the input: what is pending is an item, its command where the bytes are a whole unit,
    /// else truncated.
    pub fn finish(&mut self) -> ArrayVec<Item, 2>
        requires { self.old.finished ≡ false }
        ensures closed { (b : List ℕ) → Leads b self.old
            → closed_items b ≡ items b ++ result.items }
        ensures answer { result.items ≡ closing_items (pending_reading self.old) }
        ensures state { self.new ≡ finished_state self.old }
        ensures valid { AreValid result.items }
        ensures measured { AreMeasured result.items }
    {
        let items = self.last_items();
        self.reader.clear();
        self.finished = true;
        items
    }

    /// What is pending, as an item at the end of the input.
    fn last_items(&self) -> ArrayVec<Item, 2>
        ensures { result.items ≡ closing_items (pending_reading self.now) }
    {
        let mut items = ArrayVec::new();
        let len = self.reader.bytes.len();
        if len > 0 {
            items.push(Item {
                at: self.place - u64::from(len),
                len,
                what: self.reader.said_at_end(),
            });
        }
        items
    }
}
