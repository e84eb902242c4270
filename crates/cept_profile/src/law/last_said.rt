//! Law of the attributes of rows and of the screen: each class is what was said of it last.
ghost use Rattle.std.specs.Prelude.{◌≡◌, List, reverse};
ghost use Rattle.std.specs.List.{AllByRecursion};
ghost use Rattle.cept_codes.specs.declared.command.Command.{Command};
ghost use Rattle.cept_codes.specs.declared.stroke.Stroke.{Stroke};
ghost use Rattle.cept_codes.specs.Stroke.{IsValidStroke};
ghost use Rattle.cept_profile.specs.LastSaid.{row_attributes, screen_attributes};
ghost use Rattle.cept_profile.specs.PageParts.{list_of_rows};
ghost use Rattle.cept_profile.specs.State.{blank_page, page_after, state};
ghost use Rattle.cept_profile.specs.Strokes.{strokes_in};

/// Each class of the attributes of a row is what the last stroke says that says anything of it for
/// this row, followed back to where it was carried from; each of the screen what the last stroke
/// says that says anything of it. It is unset at first, after a wipe of the rows or a clearing of
/// the screen, and in a row that comes free. So it is after the strokes of any commands, and where
/// valid strokes are drawn in order.
pub fn attributes_look_back()
    ensures rows { (history : List Command) → (state history).page.row_pens
        ≡ list_of_rows (row_attributes (reverse (strokes_in history))) }
    ensures screen { (history : List Command) → (state history).page.screen_pen
        ≡ screen_attributes (reverse (strokes_in history)) }
    ensures drawn_rows { (strokes : List Stroke) → AllByRecursion IsValidStroke strokes
        → (page_after blank_page strokes).row_pens
        ≡ list_of_rows (row_attributes (reverse strokes)) }
    ensures drawn_screen { (strokes : List Stroke) → AllByRecursion IsValidStroke strokes
        → (page_after blank_page strokes).screen_pen ≡ screen_attributes (reverse strokes) }
{}
