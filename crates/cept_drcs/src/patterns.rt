ghost use Rattle.std.specs.Prelude.{ℕ, ◌≤◌, ◌≡◌, ◌-◌, ◌==◌, if◌then◌else◌, length, slice_set};
ghost use Rattle.std.specs.Prelude.{option_copied, IfOk, IfSome, Some, None};
ghost use Rattle.cept_codes.specs.Look.{IsValidPattern};
ghost use Rattle.cept_drcs.specs.Patterns.{IsPatternCode, list_of_codes, pattern_in};

use cept_codes::{NoMemory, Pattern};
use std::alloc::Global;
use std::marker::Model;

/// The patterns of the codes 2/1 to 7/14 of set D, of which each may have none.
#[derive(Drop)]
pub struct Patterns {
    patterns: Vec<Option<Pattern>>,
}

impl Model for Patterns {
    ghost use Rattle.std.specs.Prelude.{List, Option};
    ghost use Rattle.cept_codes.specs.declared.look.Pattern.{Pattern};

    ghost Value = { List (Option Pattern) };

    ghost use Rattle.cept_drcs.specs.Patterns.{HasValidPatterns};

    ghost view = { λ p. p.patterns.items };

    ghost invariant = { λ p. HasValidPatterns p.patterns.items };
}

impl Patterns {
    /// No code has a pattern.
    pub fn new(alloc: Global) -> Result<Patterns, NoMemory>
        ensures { IfOk result (λ patterns. patterns ≡ list_of_codes (λ _. None)) }
    {
        let mut patterns = Vec::with_capacity(alloc, 94)?;
        for _code in 0..94usize {
            patterns.push(None)?;
        }
        Ok(Patterns { patterns })
    }

    /// Gives a code, 0x21 to 0x7E, a pattern in place of the one that it may have.
    pub fn define(&mut self, code: u8, pattern: Pattern)
        requires code { IsPatternCode code }
        requires valid { IsValidPattern pattern }
        ensures patterns { self.new
            ≡ list_of_codes (λ d. if code == d then Some pattern else pattern_in self.old d) }
        ensures set { self.new ≡ slice_set self.old (code - 0x21) (Some pattern) }
    {
        self.patterns[usize::from(code) - 0x21] = Some(pattern);
    }

    /// Gives a code, 0x21 to 0x7E, this pattern, or none, in place of what it has.
    pub fn set(&mut self, code: u8, pattern: Option<Pattern>)
        requires code { IsPatternCode code }
        requires valid { IfSome pattern IsValidPattern }
        ensures { self.new
            ≡ list_of_codes (λ d. if code == d then pattern else pattern_in self.old d) }
    {
        self.patterns[usize::from(code) - 0x21] = pattern;
    }

    /// The pattern of a code, where it stands; `None` where the code has none, as each below 0x21 and
    /// past 0x7E.
    #[inline(always)]
    pub fn at(&self, code: u8) -> Option<&Pattern>
        ensures pattern { option_copied result ≡ pattern_in self.now code }
        ensures valid { IfSome result (λ pattern. IsValidPattern pattern.now) }
    {
        if code < 0x21 {
            return None;
        }
        let index = usize::from(code) - 0x21;
        if index < self.patterns.len() {
            self.patterns[index].as_ref()
        } else {
            None
        }
    }

    /// Tells the prover that there are 94, and each valid: reading a field opens the model.
    #[inline(always)]
    pub fn valid_by_type(&self)
        ensures codes { length self.now ≡ 94 }
        ensures valid { (code : ℕ) → 0x21 ≤ code → code ≤ 0x7E
            → IfSome (pattern_in self.now code) IsValidPattern }
    {
        let _patterns = &self.patterns;
    }

    /// The pattern of a code, 0x21 to 0x7E; `None` where the code has none.
    pub fn get(&self, code: u8) -> Option<Pattern>
        requires { IsPatternCode code }
        ensures pattern { result ≡ pattern_in self.now code }
        ensures valid { IfSome result IsValidPattern }
    {
        self.patterns[usize::from(code) - 0x21]
    }

    /// Takes over all patterns of another.
    pub fn copy_from(&mut self, from: &Patterns)
        ensures { self.new ≡ from.now }
    {
        self.patterns.copy_from_slice(&from.patterns);
    }

    /// Takes all patterns away.
    pub fn clear(&mut self)
        ensures { self.new ≡ list_of_codes (λ _. None) }
    {
        take_away(&mut self.patterns);
    }
}

/// Takes the patterns of all codes away.
fn take_away(patterns: &mut [Option<Pattern>])
    requires { length patterns.old ≡ 94 }
    ensures { patterns.new ≡ list_of_codes (λ _. None) }
{
    for pattern in patterns.iter_mut() {
        *pattern = None;
    }
}
