ghost use Rattle.std.specs.Prelude.{◌≡◌, ◌∷◌, [], MatchOption, IfSome};
ghost use Rattle.std.specs.List.{AllByRecursion};
ghost use Rattle.cept_codes.specs.Command.{IsValidCommand};
ghost use Rattle.cept_editor.specs.Edit.{edit_step};
ghost use Rattle.cept_editor.specs.Meaning.{IsValidStep, HasCommand};
ghost use Rattle.cept_editor.specs.Places.{step_at, IsPlacedOrder};

use crate::decoding::Decoding;
use crate::order::Order;
use crate::places::bytes_at;
use crate::undo_redo::UndoRedo;
use cept_codes::Command;
use std::marker::Model;

/// What is left of the commands of an edit: its value is the list of them. They take no memory.
#[derive(Drop)]
pub struct Commands<'a> {
    first: Option<Command>,
    text: &'a [u8],
    raw: Option<Decoding<'a>>,
}

impl<'a> Model for Commands<'a> {
    ghost use Rattle.std.specs.Prelude.{List};
    ghost use Rattle.std.specs.List.{AllByRecursion};
    ghost use Rattle.cept_codes.specs.Command.{IsValidCommand};
    ghost use Rattle.cept_codes.specs.declared.command.Command.{Command};
    ghost use Rattle.cept_editor.specs.Decoding.{commands_of_parts, IsDecodingIfAny};

    ghost Value = { List Command };

    ghost view = { λ c. commands_of_parts c.first c.text.now c.raw };

    ghost invariant = { λ c. AllByRecursion IsValidCommand (commands_of_parts c.first c.text.now c.raw)
        × IsDecodingIfAny c.raw };
}

impl<'a> Commands<'a> {
    /// The next command. Each is valid.
    pub fn next(&mut self) -> Option<Command>
        ensures next { MatchOption result ((self.old ≡ []) × (self.new ≡ []))
            (λ command. self.old ≡ command ∷ self.new) }
        ensures valid { IfSome result IsValidCommand }
    {
        if let Some(command) = self.first {
            self.first = None;
            return Some(command);
        }
        if let [byte, more @ ..] = self.text {
            self.text = more;
            return Some(Command::Graphic(*byte));
        }
        match &mut self.raw {
            None => None,
            Some(raw) => raw.next(),
        }
    }
}

/// What an edit does.
#[derive(Drop)]
pub enum Edit<'a> {
    /// It undoes the last kept edit, or redoes the last undone one.
    UndoRedo(UndoRedo),
    /// It applies these commands.
    Commands(Commands<'a>),
}

impl<'a> Edit<'a> {
    /// The edit of an order of this script.
    pub(crate) fn of(order: Order, script: &'a [u8]) -> Edit<'a>
        requires { IsPlacedOrder script.now order }
        ensures step { edit_step result ≡ step_at script.now order }
        ensures valid { IsValidStep (edit_step result) }
        ensures some { HasCommand (edit_step result) }
    {
        match order {
            Order::UndoRedo(which) => Edit::UndoRedo(which),
            Order::One(brief) => Edit::Commands(Commands {
                first: Some(brief.command()),
                text: &[],
                raw: None,
            }),
            Order::Text(span) => Edit::Commands(Commands {
                first: Some(Command::LockLeft(0)),
                text: bytes_at(script, span),
                raw: None,
            }),
            Order::Raw(span) => Edit::Commands(Commands {
                first: None,
                text: &[],
                raw: Some(Decoding::new(bytes_at(script, span))),
            }),
        }
    }
}
