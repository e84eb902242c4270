//! Laws of what is told. The functions do nothing: their contracts are the laws.
ghost use Rattle.std.specs.Prelude.{◌≡◌, ℕ, List, [], ◌++◌, map, take};
ghost use Rattle.cept_codes.specs.declared.look.Look.{Look};
ghost use Rattle.cept_parser.specs.Items.{closed_items};
ghost use Rattle.cept_editor.specs.Events.{report};
ghost use Rattle.cept_editor.specs.Script.{edits};
ghost use Rattle.cept_live.specs.declared.notice.Notice.{Notice};
ghost use Rattle.cept_live.specs.EditLines.{AreStepsOf};
ghost use Rattle.cept_live.specs.Lines.{lines_of};
ghost use Rattle.cept_live.specs.Live.{Ends, HasFed, LiveState, TellsAll};
ghost use Rattle.cept_live.specs.Notices.{Saying, notice_of, sayings_after};
ghost use Rattle.cept_run.specs.declared.words.PageAction.TheVariants as pages;
ghost use Rattle.cept_profile.specs.State.{state};
ghost use Rattle.cept_run.specs.declared.words.ScriptAction.TheVariants as scripts;
ghost use Rattle.cept_run.specs.Events.{Edits, end_text, NoSequel, remaining_of, run_events};
ghost use Rattle.cept_run.specs.Words.{options_of_page, options_of_script};
ghost use Rattle.tamligub.specs.Decoders.{page_of};
ghost use Rattle.tamligub.specs.Told.{lines_in, saying_in};

/// A notice says, by its numbers alone, all that it was made of.
pub fn notices_are_read_back()
    ensures { (saying : Saying) → saying_in (notice_of saying) ≡ saying }
{}

/// The lines of what is told are the report of `changes`: those of what the items of a page say, and
/// those of the notices that a decoder put that was opened, fed all bytes of the page, in whatever
/// pieces, and ended.
pub fn what_is_told_is_the_report()
    ensures said { (page : List ℕ) (shown : List (List Look))
        → lines_of (sayings_after [] (closed_items page))
        ≡ report (run_events (options_of_page pages.Changes) page NoSequel shown) }
    ensures told { (page : List ℕ) (shown : List (List Look)) (old mid new : LiveState)
        (notices other after : List Notice) (to : ℕ) → HasFed old [] → TellsAll old page notices
        → HasFed mid page → Ends mid other 0 new to after → lines_in (notices ++ take to after)
        ≡ report (run_events (options_of_page pages.Changes) page NoSequel shown) }
{}

/// A page that was fed whole, and the lines of a script made after its end one by one, leave what the
/// word `edit` leaves of both: the screen of the commands that remain, and the page that it puts at its
/// end.
pub fn what_lines_make_is_the_edit()
    ensures screen { (page script : List ℕ) (old mid new : LiveState) (list now : List Notice)
        (from to : ℕ) → HasFed old page → Ends old list from mid to now
        → AreStepsOf (map (λ line. line.step) (edits script)) mid new → new.screen
        ≡ state (remaining_of (options_of_script scripts.Edit) page (Edits (edits script))) }
    ensures page { (page script : List ℕ) (old mid new : LiveState) (list now : List Notice)
        (from to : ℕ) (shown : List (List Look)) → HasFed old page → Ends old list from mid to now
        → AreStepsOf (map (λ line. line.step) (edits script)) mid new → page_of new
        ≡ end_text (options_of_script scripts.Edit) shown page
        (remaining_of (options_of_script scripts.Edit) page (Edits (edits script))) }
{}
