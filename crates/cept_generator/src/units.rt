ghost use Rattle.std.specs.Prelude.{◌≡◌, ◌+◌, ◌/◌, ◌%◌, ◌≤◌, [], ◌∷◌, length};
ghost use Rattle.cept_generator.specs.Generated.{draw, state_after_draws, state_after_unit, unit_bytes};
ghost use Rattle.cept_generator.specs.Generated.{colour_bytes};

use crate::draws::Draws;
use arrayvec::ArrayVec;

/// A piece of a generated page: its head, or one unit.
pub type Piece = ArrayVec<u8, 7>;

/// A piece of these bytes.
pub(crate) fn piece_of(bytes: &[u8]) -> Piece
    requires { length bytes.now ≤ 7 }
    ensures { result.items ≡ bytes.now }
{
    let mut piece = Piece::new();
    piece.try_extend_from_slice(bytes).unwrap();
    piece
}

/// Draws a position.
fn position(draws: &mut Draws) -> Piece
    ensures bytes { result.items
        ≡ 0x1F ∷ (0x41 + draw draws.old.state 1 24) ∷ (0x41 + draw draws.old.state 2 40) ∷ [] }
    ensures state { draws.new.state ≡ state_after_draws 2 draws.old.state }
{
    piece_of(&[0x1F, 0x41 + draws.below(24), 0x41 + draws.below(40)])
}

/// Draws four letters.
fn letters(draws: &mut Draws) -> Piece
    ensures bytes { result.items
        ≡ (0x41 + draw draws.old.state 1 26) ∷ (0x41 + draw draws.old.state 2 26)
        ∷ (0x41 + draw draws.old.state 3 26) ∷ (0x41 + draw draws.old.state 4 26) ∷ [] }
    ensures state { draws.new.state ≡ state_after_draws 4 draws.old.state }
{
    piece_of(&[
        0x41 + draws.below(26),
        0x41 + draws.below(26),
        0x41 + draws.below(26),
        0x41 + draws.below(26),
    ])
}

/// Draws a colour entry, 16 to 23, and its colour.
fn colour(draws: &mut Draws) -> Piece
    ensures bytes { result.items
        ≡ colour_bytes (16 + draw draws.old.state 1 8) (draw draws.old.state 2 64)
        (draw draws.old.state 3 64) }
    ensures state { draws.new.state ≡ state_after_draws 3 draws.old.state }
{
    let entry = 16 + draws.below(8);
    piece_of(&[
        0x1F,
        0x26,
        0x30 + entry / 10,
        0x30 + entry % 10,
        0x40 + draws.below(64),
        0x40 + draws.below(64),
        0x0F,
    ])
}

/// Draws a unit: its kind, and then what its line of the table draws.
#[tactic(auto, unfolding(crate::specs::Generated::unit_bytes))]
pub(crate) fn unit(draws: &mut Draws) -> Piece
    ensures bytes { result.items ≡ unit_bytes draws.old.state }
    ensures state { draws.new.state ≡ state_after_unit draws.old.state }
{
    match draws.below(8) {
        0 => position(draws),
        1 => letters(draws),
        2 => piece_of(&[0x80 + draws.below(8)]),
        3 => piece_of(&[0x90 + draws.below(8)]),
        4 => piece_of(&[0x8C + draws.below(4)]),
        5 => piece_of(&[0x12, 0x40 + draws.below(64)]),
        6 => colour(draws),
        _ => piece_of(&[0x18]),
    }
}
