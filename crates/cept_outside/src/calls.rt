ghost use Rattle.std.specs.Prelude.{◌≡◌, ℕ, ◌<◌, ◌+◌, ◌-◌, ◌^◌, ◌≤◌, ◌↔◌, min, [], IsTrue, IsFalse};
ghost use Rattle.std.specs.Prelude.{Contains};
ghost use Rattle.std.specs.Prelude.{slice_index};

use arrayvec::ArrayVec;

/// A count of calls, and the numbers of those that are to fail. The count stops at the greatest
/// u64.
#[derive(Drop)]
pub struct Calls {
    count: u64,
    numbers: ArrayVec<u32, 16>,
}

impl Calls {
    ghost use Rattle.cept_outside.specs.Calls.{reached_count, numbers_with};

    /// No call was made, and no number is kept.
    pub fn new() -> Calls
        ensures count { result.count ≡ 0 }
        ensures numbers { result.numbers.items ≡ [] }
    {
        Calls {
            count: 0,
            numbers: ArrayVec::new(),
        }
    }

    /// Counts a call, and says whether it is to fail.
    pub fn next(&mut self) -> bool
        ensures fails { IsTrue result ↔ Contains self.old.numbers.items (self.old.count + 1) }
        ensures count { self.new.count ≡ min (self.old.count + 1) (2 ^ 64 - 1) }
        ensures numbers { self.new.numbers.items ≡ self.old.numbers.items }
        ensures later { reached_count self.old.numbers.items self.old.count ≤ reached_count
            self.new.numbers.items self.new.count }
        ensures stays { IsFalse result → reached_count self.new.numbers.items self.new.count
            ≡ reached_count self.old.numbers.items self.old.count }
        ensures rose { IsTrue result → reached_count self.old.numbers.items self.old.count + 1
            ≤ reached_count self.new.numbers.items self.new.count }
    {
        self.count = self.count.saturating_add(1);
        is_kept(self.numbers.as_slice(), self.count)
    }

    /// Keeps the number of a call that is to fail. A seventeenth is ignored.
    pub fn keep(&mut self, number: u32)
        ensures count { self.new.count ≡ self.old.count }
        ensures numbers { self.new.numbers.items ≡ numbers_with self.old.numbers.items number }
    {
        // A full list takes no more.
        let _ = self.numbers.try_push(number);
    }
}

/// Whether the number is among those kept.
fn is_kept(numbers: &[u32], number: u64) -> bool
    ensures found { IsTrue result ↔ Contains numbers.now number }
    ensures small { (k : ℕ) → slice_index numbers.now k < 2 ^ 32 }
{
    numbers.iter().any(|kept| u64::from(*kept) == number)
}
