ghost use Rattle.std.specs.Prelude.{◌≡◌, ◌≤◌, [], ◌++◌, length, MatchOption, IfSome};
ghost use Rattle.cept_generator.specs.Generated.{generated};

use crate::draws::Draws;
use crate::units::{Piece, piece_of, unit};
use std::marker::Model;

/// What is left of a generated page: its value is the list of the bytes that are left. It takes no
/// memory.
#[derive(Drop)]
pub struct Generator {
    draws: Draws,
    left: u16,
    begun: bool,
}

impl Model for Generator {
    ghost use Rattle.std.specs.Prelude.{List, ℕ};
    ghost use Rattle.cept_generator.specs.Generated.{bytes_left};

    ghost Value = { List ℕ };

    ghost view = { λ g. bytes_left g.begun g.left g.draws.state };
}

impl Generator {
    /// The whole page of this number.
    #[tactic(auto, unfolding(crate::specs::Generated::generated, crate::specs::Generated::bytes_left))]
    pub fn new(number: u32) -> Generator
        ensures { result ≡ generated number }
    {
        Generator {
            draws: Draws { state: number },
            left: 20_000,
            begun: false,
        }
    }

    /// The next piece: the head, or a unit.
    pub fn next(&mut self) -> Option<Piece>
        ensures next { MatchOption result ((self.old ≡ []) × (self.new ≡ []))
            (λ piece. self.old ≡ piece.items ++ self.new) }
        ensures some { IfSome result (λ piece. 1 ≤ length piece.items) }
    {
        if !self.begun {
            self.begun = true;
            return Some(piece_of(&[0x1F, 0x2F, 0x42]));
        }
        if self.left == 0 {
            return None;
        }
        self.left -= 1;
        Some(unit(&mut self.draws))
    }
}
