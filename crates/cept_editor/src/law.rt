//! Laws of events and of kept edits. The functions do nothing: their contracts are the laws.

ghost use Rattle.std.specs.Prelude.{◌≡◌, ◌≤◌, ◌<◌, ◌+◌, ◌==◌, ℕ, Bool, List, [], ◌∷◌, ◌++◌, Result, OnOk};
ghost use Rattle.std.specs.Prelude.{OnErr, All, AllPairs, filter, length, None, IfSome, IsOk};
ghost use Rattle.std.specs.List.{AllByRecursion};
ghost use Rattle.cept_codes.specs.declared.command.Command.{Command};
ghost use Rattle.cept_codes.specs.declared.look.Look.{Look};
ghost use Rattle.cept_outside.specs.Causes.{Rose};
ghost use Rattle.cept_outside.specs.SinkState.{Gains, GainsPart};
ghost use Rattle.cept_profile.specs.Changes.{grid_with_paints};
ghost use Rattle.cept_profile.specs.Look.{grid};
ghost use Rattle.cept_profile.specs.State.{state};
ghost use Rattle.cept_profile.specs.Valid.{AllValid};
ghost use Rattle.cept_repaint.specs.GlassState.{GlassState};
ghost use Rattle.cept_undo.specs.Past.{most_kept};
ghost use Rattle.cept_words.specs.Lines.{lines};
ghost use Rattle.cept_editor.specs.Applying.{changes_of_step, editor_after_step, editor_after_steps};
ghost use Rattle.cept_editor.specs.Events.{Event, event_changes, report, paints};
ghost use Rattle.cept_editor.specs.Kept.{KeptEdits, none_kept, kept_after, kept, remaining};
ghost use Rattle.cept_editor.specs.Kept.{states_before, states_again, EditorState, StandsAfter};
ghost use Rattle.cept_editor.specs.Kept.{editor_after};
ghost use Rattle.cept_editor.specs.Made.{Output, AreStill, ArePainted, IsMade, AreMade, AreCutOff};
ghost use Rattle.cept_editor.specs.Meaning.{HasCommand, IsValidStep, Step, UndoRedo, UndoRedoKind};
ghost use Rattle.cept_editor.specs.Meaning.{line_meaning};
ghost use Rattle.cept_editor.specs.Script.{IsFirstFault, edit_of, edits, first_fault, numbered_line};
ghost use Rattle.cept_editor.specs.Stepping.{line_events, states_ahead};

/// The texts of events stand in their order, and so do their changes.
pub fn texts_and_changes_in_order()
    ensures no_text { report [] ≡ [] }
    ensures text { (e : Event) → report (e ∷ []) ≡ e.text }
    ensures texts { (xs ys : List Event) → report (xs ++ ys) ≡ report xs ++ report ys }
    ensures no_change { paints [] ≡ [] }
    ensures change { (e : Event) → paints (e ∷ []) ≡ event_changes e }
    ensures changes { (xs ys : List Event) → paints (xs ++ ys) ≡ paints xs ++ paints ys }
{}

/// A script is told by its lines: the edits of a line are what it means, they stand in the order of
/// the lines, and the first fault is that of the first line outside the grammar.
pub fn scripts_are_told_by_their_lines()
    ensures edits { (bytes : List ℕ) (n : ℕ) → 1 ≤ n → n ≤ length (lines bytes)
        → filter (λ e. e.line == n) (edits bytes)
        ≡ edit_of n (line_meaning (numbered_line (lines bytes) n)) }
    ensures within { (bytes : List ℕ) → All (λ e. (1 ≤ e.line) × (e.line ≤ length (lines bytes)))
        (edits bytes) }
    ensures order { (bytes : List ℕ) → AllPairs (λ e f. e.line < f.line) (edits bytes) }
    ensures fault { (bytes : List ℕ) → IfSome (first_fault bytes) (IsFirstFault (lines bytes)) }
    ensures none { (bytes : List ℕ) → first_fault bytes ≡ None → (n : ℕ) → 1 ≤ n
        → n ≤ length (lines bytes) → IsOk (line_meaning (numbered_line (lines bytes) n)) }
{}

/// What an event changes, painted over the grid before it, gives the grid after it.
pub fn each_event_is_shown()
    ensures unpainted { (g : List (List Look)) → grid_with_paints g [] ≡ g }
    ensures shown { (e : Event) → grid_with_paints (grid e.before) (event_changes e)
        ≡ grid e.after }
{}

/// Events that were painted one after the other were painted as one list.
pub fn events_are_painted_in_turn()
    ensures none { (g : GlassState) → ArePainted [] g g }
    ensures still { (e : Event) (g : GlassState) → e.after ≡ e.before → ArePainted (e ∷ []) g g }
    ensures more { (xs ys : List Event) (a b c : GlassState) → ArePainted xs a b
        → ArePainted ys b c → ArePainted (xs ++ ys) a c }
    ensures all_still { (xs ys : List Event) → AreStill xs → AreStill ys → AreStill (xs ++ ys) }
{}

/// Events that were made one after the other were made as one list, and where the sink failed at
/// one of the later ones it failed at one of the list.
pub fn events_are_made_in_turn()
    ensures none { (o : Output) → AreMade [] o o }
    ensures all { (xs ys : List Event) (a b c : Output) → AreMade xs a b → AreMade ys b c
        → AreMade (xs ++ ys) a c }
    ensures cut { (xs ys : List Event) (a b c : Output) → AreMade xs a b
        → b.sink.faults ≡ a.sink.faults → AreCutOff ys b c → AreCutOff (xs ++ ys) a c }
    ensures longer { (es more all : List Event) (a c : Output) → all ≡ es ++ more
        → AreCutOff es a c → AreCutOff all a c }
    ensures untouched { (es : List Event) (a c : Output) → AreStill es → AreCutOff es a c
        → c.glass ≡ a.glass }
{}

/// One more event is made, or the sink fails at it, whatever is answered beside.
pub fn one_more_event_is_made<X, E>()
    ensures made { (es : List Event) (e : Event) (a b c : Output) (r : Result X E)
        → AreMade es a b → IsMade e b r c → OnOk r (AreMade (es ++ e ∷ []) a c) }
    ensures cut { (es : List Event) (e : Event) (a b c : Output) (r : Result X E) → AreMade es a b
        → b.sink.faults ≡ a.sink.faults → IsMade e b r c
        → OnErr r (AreCutOff (es ++ e ∷ []) a c) }
{}

/// The same of an event that changes nothing, where the glass is left as it was.
pub fn one_more_text_is_put()
    ensures made { (es : List Event) (e : Event) (a b c : Output) → AreMade es a b
        → e.after ≡ e.before → Gains b.sink e.text c.sink → c.glass ≡ b.glass
        → AreMade (es ++ e ∷ []) a c }
    ensures cut { (es : List Event) (e : Event) (a b c : Output) → AreMade es a b
        → b.sink.faults ≡ a.sink.faults → e.after ≡ e.before → GainsPart b.sink e.text c.sink
        → Rose b.sink.faults c.sink.faults → b.sink.faults ≤ c.sink.faults → c.glass ≡ b.glass
        → AreCutOff (es ++ e ∷ []) a c }
{}

/// The edits that are kept after more edit lines. Those that can be undone and those that are undone
/// are together no more than may be kept. Before the first line all commands that remain are those of
/// the page, and nothing can be undone or redone: so an editor stands that has applied these alone.
pub fn edit_lines_go_on()
    ensures none { kept [] ≡ none_kept }
    ensures more { (steps : List Step) (step : Step)
        → kept (steps ++ step ∷ []) ≡ kept_after (kept steps) step }
    ensures few { (steps : List Step) → (kept steps).count + length (kept steps).undone ≤ most_kept }
    ensures page { (page : List Command) → remaining page none_kept ≡ page }
    ensures nothing { (page : List Command) → states_before page none_kept ≡ [] }
    ensures nothing_again { (page : List Command) → states_again page none_kept ≡ [] }
    ensures start { (editor : EditorState) (page : List Command) → AllValid page
        → editor.screen ≡ state page → editor.past ≡ [] → editor.future ≡ []
        → StandsAfter editor page none_kept }
{}

/// After a page and the edit lines of a script, made one after the other, the screen has the state of
/// the commands that remain, the past the states before the last edits, and the future those after
/// the first undone edits.
pub fn edit_lines_lead_to_what_remains()
    ensures { (editor : EditorState) (page : List Command) (steps : List Step) → AllValid page
        → AllByRecursion IsValidStep steps → editor.screen ≡ state page → editor.past ≡ []
        → editor.future ≡ [] → editor_after_steps editor steps ≡ editor_after page (kept steps) }
{}

/// Where an editor stands after an edit line, and what the line's events change, by the states of the
/// editor alone.
pub fn edit_lines_by_their_states()
    ensures stands { (old : EditorState) (page : List Command) (k : KeptEdits) (step : Step)
        → StandsAfter old page k → IsValidStep step → HasCommand step
        → StandsAfter (editor_after_step old step) page (kept_after k step) }
    ensures paints { (listed : Bool) (line : ℕ) (old : EditorState) (page : List Command)
        (k : KeptEdits) (step : Step) → StandsAfter old page k → IsValidStep step
        → paints (line_events listed line page k step) ≡ changes_of_step old step }
    ensures idle { (editor : EditorState) (which : UndoRedoKind) → states_ahead editor which ≡ []
        → editor_after_step editor (UndoRedo which) ≡ editor }
{}

/// What the events of an edit line change, painted over the grid before it, gives the grid after
/// it.
pub fn changes_of_a_line_lead_to_its_end()
    ensures { (listed : Bool) (line : ℕ) (page : List Command) (k : KeptEdits) (step : Step)
        → grid_with_paints (grid (remaining page k)) (paints (line_events listed line page k step))
        ≡ grid (remaining page (kept_after k step)) }
{}
