//! A law of the lines: the function does nothing, its contract is the law.

ghost use Rattle.std.specs.Prelude.{◌≤◌, ◌<◌, ◌^◌, length};
ghost use Rattle.cept_codes.specs.declared.item.Item.{Item};
ghost use Rattle.cept_codes.specs.Command.{IsValidItem};
ghost use Rattle.cept_listing.specs.Listing.{item_line};

/// The line of an item has at most 52 bytes, and 40 where the place has at most eight digits, as in
/// all pages that are read.
pub fn lines_are_short()
    ensures any { (item : Item) → IsValidItem item → item.at < 2 ^ 64 → item.len < 256
        → length (item_line item) ≤ 52 }
    ensures of_a_page { (item : Item) → IsValidItem item → item.at ≤ 2 ^ 24 → item.len < 256
        → length (item_line item) ≤ 40 }
{}
