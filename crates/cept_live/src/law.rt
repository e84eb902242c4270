//! Laws of what is told. The functions do nothing: their contracts are the laws.
ghost use Rattle.std.specs.Prelude.{◌≡◌, ℕ, Some, None, List, ◌++◌, false, length, take};
ghost use Rattle.cept_codes.specs.declared.command.Command.{Command};
ghost use Rattle.cept_codes.specs.declared.item.Item.{Item};
ghost use Rattle.cept_codes.specs.declared.item.Reason.{Reason};
ghost use Rattle.cept_codes.specs.declared.item.Said.TheVariants as said;
ghost use Rattle.cept_codes.specs.declared.look.Look.{Look};
ghost use Rattle.cept_codes.specs.Look.{blank_look};
ghost use Rattle.cept_codes.specs.Table.{IsTable, table};
ghost use Rattle.cept_editor.specs.Applying.{editor_after_step};
ghost use Rattle.cept_editor.specs.Events.{paints};
ghost use Rattle.cept_editor.specs.Kept.{KeptEdits, StandsAfter, editor_after, kept, none_kept};
ghost use Rattle.cept_editor.specs.Meaning.{Step};
ghost use Rattle.cept_editor.specs.Stepping.{line_events};
ghost use Rattle.cept_flash.specs.Phases.{frame};
ghost use Rattle.cept_parser.specs.Items.{closed_items, commands, commands_of, items};
ghost use Rattle.cept_profile.specs.Changes.{changes, changes_between, grid_with_paints};
ghost use Rattle.cept_profile.specs.Look.{looks_of};
ghost use Rattle.cept_profile.specs.State.{core_of};
ghost use Rattle.cept_redraw.specs.Marks.{no_marks};
ghost use Rattle.cept_report.specs.Text.{change_lines, refusal_line};
ghost use Rattle.cept_live.specs.declared.notice.Notice.{Notice};
ghost use Rattle.cept_live.specs.EditLines.{AreStepsOf, IsStepOf, MakesLine, editor_of};
ghost use Rattle.cept_live.specs.EditLines.{sayings_once};
ghost use Rattle.cept_live.specs.Lines.{lines_after, lines_of};
ghost use Rattle.cept_live.specs.Live.{Ends, Feeds, HasFed, LiveState, TellsAll, live_start};
ghost use Rattle.cept_live.specs.Notices.{item_sayings, sayings_after};
ghost use Rattle.cept_live.specs.Shown.{Begins, looks_said, shown};

/// The lines of what is told are those of a report: of a command the lines of its changes, of a
/// refusal its line, and of items those of each after those before it.
pub fn lines_of_sayings()
    ensures command { (earlier : List Item) (item : Item) (command : Command)
        → item.what ≡ said.Command command → lines_of (item_sayings earlier item)
        ≡ change_lines item.at (changes (commands_of earlier) command) }
    ensures refusal { (earlier : List Item) (item : Item) (reason : Reason)
        → item.what ≡ said.Refused reason → lines_of (item_sayings earlier item)
        ≡ refusal_line item.at item.len reason }
    ensures items { (earlier more : List Item) → lines_of (sayings_after earlier more)
        ≡ lines_after earlier more }
{}

/// A display that is blank at first, and shows each notice as it comes, shows what is said to be
/// shown: of bytes, of the end of the page, of a line, and of a phase that begins over what was shown before it
/// begins, as over a display that was blanked. Then all places show their looks at that phase.
pub fn displays_show_what_is_told()
    ensures start { shown live_start ≡ table (λ _ _. blank_look) }
    ensures unflashed { (live : LiveState) → live.phase ≡ None
        → shown live ≡ looks_of (core_of live.screen) }
    ensures fed { (old new : LiveState) (more : List ℕ) (list now : List Notice) (from to : ℕ)
        (bytes : List ℕ) (closed : List Item) → Feeds old more list from new to now
        → HasFed old bytes → items (bytes ++ more) ≡ items bytes ++ closed
        → shown new ≡ grid_with_paints (shown old) (looks_said (sayings_after (items bytes) closed)) }
    ensures ended { (old new : LiveState) (list now : List Notice) (from to : ℕ) (bytes : List ℕ)
        (closed : List Item) → Ends old list from new to now → HasFed old bytes
        → closed_items bytes ≡ items bytes ++ closed
        → shown new ≡ grid_with_paints (shown old) (looks_said (sayings_after (items bytes) closed)) }
    ensures begun { (old new : LiveState) (before : List (List Look)) (phase to : ℕ)
        (list now : List Notice) → IsTable before → Begins old before phase list new to now
        → shown new ≡ grid_with_paints before
        (changes_between before (frame (looks_of (core_of old.screen)) phase)) }
    ensures phase { (old new : LiveState) (before : List (List Look)) (phase to : ℕ)
        (list now : List Notice) → Begins old before phase list new to now
        → shown new ≡ frame (looks_of (core_of old.screen)) phase }
    ensures line { (step : Step) (old new : LiveState) (list now : List Notice) (to : ℕ)
        (page : List Command) (k : KeptEdits) → MakesLine step old list new to now
        → StandsAfter (editor_of old) page k → length old.renewed ≡ 960 → shown new
        ≡ grid_with_paints (shown old) (looks_said (sayings_once old.parser.place
        (paints (line_events false 0 page k step)) (looks_of (core_of new.screen)))) }
    ensures kept { (live : LiveState) (phase : ℕ) → live.phase ≡ Some phase
        → live.renewed ≡ no_marks → shown live ≡ frame (looks_of (core_of live.screen)) phase }
{}

/// Whatever pieces bytes come in, the same is told of them: where bytes were fed and then others,
/// both were fed, in one list of notices or in two.
pub fn pieces_tell_the_same()
    ensures one { (old mid new : LiveState) (xs ys : List ℕ) (list between now : List Notice)
        (from at to : ℕ) → Feeds old xs list from mid at between
        → Feeds mid ys between at new to now → Feeds old (xs ++ ys) list from new to now }
    ensures two { (old mid new : LiveState) (xs ys : List ℕ) (list now other after : List Notice)
        (at to : ℕ) → Feeds old xs list 0 mid at now → Feeds mid ys other 0 new to after
        → TellsAll old (xs ++ ys) (take at now ++ take to after) }
    // A phase that begins between them leaves what was fed.
    ensures phases { (old new : LiveState) (before : List (List Look)) (phase to : ℕ)
        (list now : List Notice) (bytes : List ℕ) → Begins old before phase list new to now
        → HasFed old bytes → HasFed new bytes }
{}

/// A page that was fed whole, and lines of a script made after its end one by one, make the editor that
/// the word `edit` makes of them: the same screen, the same states before the last edits, and the same
/// after those undone.
pub fn lines_make_an_editor()
    ensures start { (old new : LiveState) (list now : List Notice) (from to : ℕ) (bytes : List ℕ)
        → Ends old list from new to now → HasFed old bytes
        → StandsAfter (editor_of new) (commands bytes) none_kept }
    ensures line { (step : Step) (old new : LiveState) → IsStepOf step old new
        → editor_of new ≡ editor_after_step (editor_of old) step }
    ensures all { (old mid new : LiveState) (list now : List Notice) (from to : ℕ) (bytes : List ℕ)
        (steps : List Step) → HasFed old bytes → Ends old list from mid to now
        → AreStepsOf steps mid new → editor_of new ≡ editor_after (commands bytes) (kept steps) }
{}
