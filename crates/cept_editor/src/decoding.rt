ghost use Rattle.std.specs.Prelude.{◌≡◌, ◌≤◌, ◌<◌, ◌∷◌, [], length, true, false, MatchOption};
ghost use Rattle.cept_editor.specs.Order.{AreSoundDigits, raw_bytes};
ghost use Rattle.cept_parser.specs.Items.{commands};
ghost use Rattle.cept_editor.specs.Decoding.{IsDecoding, commands_left};
ghost use Rattle.cept_editor.specs.inside.Decoding.{decoding_size};

use crate::digits::byte_of;
use arrayvec::ArrayVec;
use cept_codes::{Command, Item, Said};
use cept_parser::Parser;

/// The commands of hexadecimal digits, one after the other: the digits that are left, a parser of
/// the bytes before them, and the items that its last step closed.
#[derive(Drop)]
pub(crate) struct Decoding<'a> {
    pub(crate) digits: &'a [u8],
    pub(crate) parser: Parser,
    pub(crate) ended: bool,
    pub(crate) items: ArrayVec<Item, 2>,
    pub(crate) handed: usize,
}

impl<'a> Decoding<'a> {
    /// The commands of these digits.
    pub(crate) fn new(digits: &'a [u8]) -> Decoding<'a>
        requires { AreSoundDigits digits.now }
        ensures decoding { IsDecoding result }
        ensures left { commands_left result ≡ commands (raw_bytes digits.now) }
    {
        Decoding {
            digits,
            parser: Parser::new(),
            ended: false,
            items: ArrayVec::new(),
            handed: 0,
        }
    }

    /// Reads the next byte, or the end. All items were handed on.
    fn read_on(&mut self) -> bool
        requires decoding { IsDecoding self.old }
        requires handed { length self.old.items.items ≤ self.old.handed }
        ensures decoding { IsDecoding self.new }
        ensures left { commands_left self.new ≡ commands_left self.old }
        ensures more { result ≡ true → decoding_size self.new < decoding_size self.old }
        ensures end { result ≡ false → commands_left self.old ≡ [] }
    {
        if self.ended {
            return false;
        }
        self.handed = 0;
        let [high, low, more @ ..] = self.digits else {
            self.items = self.parser.finish();
            self.ended = true;
            return true;
        };
        let Some(byte) = byte_of(*high, *low) else {
            unreachable!()
        };
        self.items = self.parser.push(byte);
        self.digits = more;
        true
    }

    /// The next command.
    pub(crate) fn next(&mut self) -> Option<Command>
        requires { IsDecoding self.old }
        ensures decoding { IsDecoding self.new }
        ensures next { MatchOption result
            ((commands_left self.old ≡ []) × (commands_left self.new ≡ []))
            (λ command. commands_left self.old ≡ command ∷ commands_left self.new) }
    {
        loop {
            if self.handed < self.items.len() {
                let item = self.items[self.handed];
                self.handed += 1;
                if let Said::Command(command) = item.what {
                    return Some(command);
                }
            } else if !self.read_on() {
                return None;
            }
        }
    }
}
