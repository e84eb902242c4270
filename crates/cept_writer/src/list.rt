ghost use Rattle.std.specs.Prelude.{◌≡◌, ◌+◌, ◌≤◌, ◌<◌, ◌∷◌, [], ◌++◌, length};
ghost use Rattle.cept_writer.specs.Codes.{code_of};

use cept_codes::Command;
use std::marker::Model;

/// Commands of a part of a page while they are made, at most 72. The most are 65: 32 colour entries
/// of two each after their header.
#[derive(Drop)]
pub struct Commands {
    slots: [Command; 72],
    len: usize,
}

impl Model for Commands {
    ghost use Rattle.std.specs.Prelude.{List, ◌≤◌, take};
    ghost use Rattle.cept_codes.specs.declared.command.Command.{Command};

    ghost Value = { List Command };

    ghost view = { λ c. take c.len c.slots };

    ghost invariant = { λ c. c.len ≤ 72 };
}

/// What an attribute is written for.
#[derive(Clone, Copy)]
pub enum Reach {
    Signs,
    Row,
    Screen,
}

impl Commands {
    /// A list without commands.
    pub fn new() -> Commands
        ensures { result ≡ [] }
    {
        Commands {
            slots: [Command::Nul; 72],
            len: 0,
        }
    }

    /// Takes all commands away.
    pub fn clear(&mut self)
        ensures { self.new ≡ [] }
    {
        self.len = 0;
    }

    /// Adds one command.
    pub fn add(&mut self, command: Command)
        requires { length self.old < 72 }
        ensures commands { self.new ≡ self.old ++ command ∷ [] }
        ensures len { length self.new ≡ length self.old + 1 }
    {
        self.slots[self.len] = command;
        self.len += 1;
    }

    /// Adds the code of this number.
    pub fn add_code(&mut self, reach: Reach, n: u8)
        requires { length self.old < 72 }
        ensures commands { self.new ≡ self.old ++ code_of reach n ∷ [] }
        ensures len { length self.new ≡ length self.old + 1 }
    {
        match reach {
            Reach::Signs => self.add(Command::C1(n)),
            Reach::Row => self.add(Command::FullRow(n)),
            Reach::Screen => self.add(Command::FullScreen(n)),
        }
    }

    /// The commands.
    pub fn as_slice(&self) -> &[Command]
        ensures commands { result.now ≡ self.now }
        ensures few { length result.now ≤ 72 }
    {
        &self.slots[..self.len]
    }
}
