ghost use Rattle.std.specs.Prelude.{◌≡◌, ◌≤◌, ◌↔◌, Some, None};
ghost use Rattle.cept_codes.specs.Command.{IsGraphic};
ghost use Rattle.cept_profile.specs.Sets.{IsAccent, IsValidRead, code_of, read_as};

use cept_codes::{Glyph, Read, SetId};
use std::marker::Model;

/// The four sets that are designated, the ones that the left and the right bytes take, and a single
/// shift that waits.
#[derive(Clone, Copy, Debug, PartialEq, Eq)]
pub struct Sets {
    g0: SetId,
    g1: SetId,
    g2: SetId,
    g3: SetId,
    left: u8,
    right: u8,
    single: Option<u8>,
}

impl Model for Sets {
    ghost use Rattle.cept_profile.specs.Sets.{Sets as SetsInForce};
    ghost use Rattle.cept_profile.specs.Valid.{AreValidSets};

    ghost Value = { SetsInForce };

    ghost view = { λ s. record {
      g0 = s.g0;
      g1 = s.g1;
      g2 = s.g2;
      g3 = s.g3;
      left = s.left;
      right = s.right;
      single = s.single;
    } };

    ghost invariant = { λ s. AreValidSets (record {
      g0 = s.g0;
      g1 = s.g1;
      g2 = s.g2;
      g3 = s.g3;
      left = s.left;
      right = s.right;
      single = s.single;
    }) };

    ghost inverse = { λ s. record {
      g0 = s.g0;
      g1 = s.g1;
      g2 = s.g2;
      g3 = s.g3;
      left = s.left;
      right = s.right;
      single = s.single;
    } };
}

impl Sets {
    ghost use Rattle.cept_codes.specs.Command.{IsGraphic};
    ghost use Rattle.cept_profile.specs.Sets.{IsAccent, IsValidRead, code_of, read_as, sets_with};
    ghost use Rattle.cept_profile.specs.Sets.{initial_sets, set_in, set_of};
    ghost use Rattle.cept_profile.specs.Valid.{AreValidSets};

    /// G0 is P, G1 is M, G2 is S and G3 is N; G0 is locked to the left and G2 to the right.
    pub fn new() -> Sets
        ensures initial { result ≡ initial_sets }
        ensures valid { AreValidSets result }
    {
        Sets {
            g0: SetId::P,
            g1: SetId::M,
            g2: SetId::S,
            g3: SetId::N,
            left: 0,
            right: 2,
            single: None,
        }
    }

    /// Designates a set to G0, G1, G2 or G3.
    pub fn designate(&mut self, g: u8, set: SetId)
        requires { g ≤ 3 }
        ensures designated { self.new ≡ sets_with self.old g set }
        ensures valid { AreValidSets self.new }
    {
        match g {
            0 => self.g0 = set,
            1 => self.g1 = set,
            2 => self.g2 = set,
            _ => self.g3 = set,
        }
    }

    /// Locks G0, G1, G2 or G3 to the left bytes.
    pub fn lock_left(&mut self, g: u8)
        requires { g ≤ 3 }
        ensures locked { self.new ≡ record self.old { left = g } }
        ensures valid { AreValidSets self.new }
    {
        self.left = g;
    }

    /// Locks G1, G2 or G3 to the right bytes.
    pub fn lock_right(&mut self, g: u8)
        requires { (1 ≤ g) × (g ≤ 3) }
        ensures locked { self.new ≡ record self.old { right = g } }
        ensures valid { AreValidSets self.new }
    {
        self.right = g;
    }

    /// Shifts the next graphic byte to G2 or G3. A shift that waits is replaced.
    pub fn single(&mut self, g: u8)
        requires { (2 ≤ g) × (g ≤ 3) }
        ensures shifted { self.new ≡ record self.old { single = Some g } }
        ensures valid { AreValidSets self.new }
    {
        self.single = Some(g);
    }

    /// Which of G0 to G3 is locked to the left bytes, 0 to 3.
    pub fn left(&self) -> u8
        ensures { result ≡ self.now.left }
    {
        self.left
    }

    /// Which of G1 to G3 is locked to the right bytes, 1 to 3.
    pub fn right(&self) -> u8
        ensures { result ≡ self.now.right }
    {
        self.right
    }

    /// Which of G2 and G3 a single shift that waits takes, 2 or 3; `None` where none waits.
    pub fn waiting(&self) -> Option<u8>
        ensures { result ≡ self.now.single }
    {
        self.single
    }

    /// What a graphic byte gives, 20 to 7F or A0 to FF, where `run` says whether a mosaic run is
    /// on.
    pub fn graphic(&mut self, byte: u8, run: bool) -> Read
        requires { IsGraphic byte }
        ensures read { result ≡ read_as (set_of self.old byte run) (code_of byte) }
        ensures sets { self.new ≡ record self.old { single = None } }
        ensures accent { (result ≡ Read.Accent (code_of byte))
            ↔ ((set_of self.old byte run ≡ SetId.S) × IsAccent (code_of byte)) }
        ensures valid_read { IsValidRead result }
        ensures valid { AreValidSets self.new }
    {
        let set = self.set_of(byte, run);
        self.single = None;
        read_as(set, code_of(byte))
    }

    /// The set that is designated to G0, G1, G2 or G3, by its number 0 to 3; a greater one means G3.
    pub fn set_in(&self, g: u8) -> SetId
        ensures { result ≡ set_in self.now g }
    {
        match g {
            0 => self.g0,
            1 => self.g1,
            2 => self.g2,
            _ => self.g3,
        }
    }

    #[tactic(auto, unfolding(cept_profile::specs::Sets::set_of))]
    fn set_of(&self, byte: u8, run: bool) -> SetId
        ensures { result ≡ set_of self.now byte run }
    {
        if let Some(g) = self.single {
            return self.set_in(g);
        }
        if byte >= 0x80 {
            self.set_in(self.right)
        } else if run {
            SetId::M
        } else {
            self.set_in(self.left)
        }
    }
}

/// The seven low bits.
fn code_of(byte: u8) -> u8
    requires { IsGraphic byte }
    ensures code { result ≡ code_of byte }
    ensures in_range { (0x20 ≤ result) × (result ≤ 0x7F) }
{
    byte & 0x7F
}

#[tactic(auto, using(cept_profile::proofs::Laws::readings), unfolding(cept_profile::specs::Sets::read_as))]
fn read_as(set: SetId, code: u8) -> Read
    requires { (0x20 ≤ code) × (code ≤ 0x7F) }
    ensures read { result ≡ read_as set code }
    ensures accent { (result ≡ Read.Accent code) ↔ ((set ≡ SetId.S) × IsAccent code) }
    ensures valid { IsValidRead result }
{
    match set {
        _ if code == 0x20 => Read::Glyph(Glyph {
            set: SetId::P,
            code,
            accent: 0,
        }),
        SetId::S if 0x40 <= code && code <= 0x4F => Read::Accent(code),
        _ => Read::Glyph(Glyph {
            set,
            code,
            accent: 0,
        }),
    }
}
