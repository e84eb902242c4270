//! Laws of generated pages. The functions do nothing: their contracts are the laws.

ghost use Rattle.std.specs.Prelude.{◌≡◌, ◌≤◌, ℕ, false, length, map};
ghost use Rattle.std.specs.List.{AllByRecursion};
ghost use Rattle.cept_codes.specs.Command.{IsValidCommand};
ghost use Rattle.cept_parser.specs.Context.{start_context};
ghost use Rattle.cept_parser.specs.Items.{closed_items, commands, is_refusal};
ghost use Rattle.cept_parser.specs.ReadsAs.{Reads, all_said};
ghost use Rattle.cept_parser.specs.Valid.{AreBytes};
ghost use Rattle.cept_generator.specs.Generated.{generated, generated_commands};

/// A generated page has no refused item: its bytes read as its commands, and as nothing else. Each
/// command is valid.
pub fn generated_pages_are_read()
    ensures reads { (number : ℕ)
        → Reads start_context (generated number) (generated_commands number) start_context }
    ensures none { (number : ℕ)
        → AllByRecursion (λ i. is_refusal i.what ≡ false) (closed_items (generated number)) }
    ensures said { (number : ℕ)
        → map (λ i. i.what) (closed_items (generated number)) ≡ all_said (generated_commands number) }
    ensures commands { (number : ℕ) → commands (generated number) ≡ generated_commands number }
    ensures valid { (number : ℕ) → AllByRecursion IsValidCommand (generated_commands number) }
    ensures bytes { (number : ℕ) → AreBytes (generated number) }
{}

/// A generated page has at most 140,003 bytes and 80,001 items.
pub fn generated_pages_are_short()
    ensures bytes { (number : ℕ) → length (generated number) ≤ 140003 }
    ensures items { (number : ℕ) → length (closed_items (generated number)) ≤ 80001 }
{}
