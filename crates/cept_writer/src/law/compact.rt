//! Laws of the compact text of a page.
ghost use Rattle.std.specs.Prelude.{◌≡◌, ◌≤◌, false, length, List, Option};
ghost use Rattle.std.specs.List.{AllByRecursion};
ghost use Rattle.cept_codes.specs.declared.cell.Cell.{Cell};
ghost use Rattle.cept_codes.specs.declared.command.Command.{Command};
ghost use Rattle.cept_codes.specs.declared.look.Paint.{Paint};
ghost use Rattle.cept_codes.specs.declared.look.Pattern.{Pattern};
ghost use Rattle.cept_parser.specs.Context.{start_context};
ghost use Rattle.cept_parser.specs.Items.{closed_items, commands, is_refusal};
ghost use Rattle.cept_parser.specs.Spelling.{AreSpelled};
ghost use Rattle.cept_profile.specs.State.{Core, core, core_of, state};
ghost use Rattle.cept_profile.specs.Valid.{AllValid, IsValidCore};
ghost use Rattle.cept_writer.specs.CompactCommands.{changed_commands, compact_commands};
ghost use Rattle.cept_writer.specs.CompactCommands.{compact_text, defined_commands};
ghost use Rattle.cept_writer.specs.EntryPieces.{entry_numbered, entry_piece, pattern_numbered};
ghost use Rattle.cept_writer.specs.EntryPieces.{pattern_piece, pieces_in_turn};
ghost use Rattle.cept_writer.specs.PageCommands.{plain_text};
ghost use Rattle.cept_writer.specs.SegmentCommands.{segments_commands};
ghost use Rattle.cept_writer.specs.SegmentPieces.{pieces_below};

use cept_codes::{
    cells_compare_by_their_fields, commands_compare_by_their_fields, looks_compare_by_their_fields,
    pens_compare_by_their_fields,
};
use cept_profile::validity_is_kept;

/// The compact text of a page is at most as long as its plain text.
pub fn compact_texts_are_no_longer_than_plain_ones()
    ensures { (k : Core) → length (compact_text k) ≤ length (plain_text k) }
{
    cells_compare_by_their_fields();
}

/// After the commands of the compact text of a valid core a decoder that starts anew has just this
/// core.
pub fn compact_pages_are_restored()
    ensures { (k : Core) → IsValidCore k → core_of (state (compact_commands k)) ≡ k }
{
    cells_compare_by_their_fields();
    looks_compare_by_their_fields();
    pens_compare_by_their_fields();
}

/// The commands of the compact text of a valid core are spelled from the start on, so that its bytes
/// read as these commands, none refused.
pub fn compact_pages_are_spelled()
    ensures spelled { (k : Core) → IsValidCore k → AreSpelled start_context (compact_commands k) }
    ensures commands { (k : Core) → IsValidCore k
        → commands (compact_text k) ≡ compact_commands k }
    ensures none { (k : Core) → IsValidCore k
        → AllByRecursion (λ i. is_refusal i.what ≡ false) (closed_items (compact_text k)) }
{
    cells_compare_by_their_fields();
    commands_compare_by_their_fields();
    pens_compare_by_their_fields();
}

/// The compact text of a valid core brings the core back on a decoder that starts anew. So the core
/// after any valid commands comes back by bytes, and writing what was read back gives the same bytes.
pub fn compact_texts_bring_pages_back()
    ensures core { (k : Core) → IsValidCore k → core (commands (compact_text k)) ≡ k }
    ensures always { (history : List Command) → AllValid history
        → core (commands (compact_text (core history))) ≡ core history }
    ensures same { (k : Core) → IsValidCore k
        → compact_text (core (commands (compact_text k))) ≡ compact_text k }
{
    compact_pages_are_restored();
    compact_pages_are_spelled();
    validity_is_kept();
}

/// The entries and the patterns of the compact text are written in turn, each by the last one before
/// it, and so are the cells, each by what stands left and right of it.
pub fn compact_parts_are_written_in_turn()
    ensures entries { (paints : List Paint)
        → pieces_in_turn entry_piece (entry_numbered paints) 32 ≡ changed_commands paints }
    ensures patterns { (patterns : List (Option Pattern))
        → pieces_in_turn pattern_piece (pattern_numbered patterns) 94
        ≡ defined_commands patterns }
    ensures cells { (cells : List (List Cell))
        → pieces_below cells 960 ≡ segments_commands cells }
{
    cells_compare_by_their_fields();
}
