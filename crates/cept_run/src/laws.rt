//! Laws of the report. The functions do nothing: their contracts are the laws.

ghost use Rattle.std.specs.Prelude.{◌≡◌, ◌≢◌, ◌^◌, ℕ, List, [], ◌∷◌, ◌++◌, Some, take, true, false};
ghost use Rattle.cept_codes.specs.declared.command.Command.{Command};
ghost use Rattle.cept_codes.specs.declared.item.Item.{Item};
ghost use Rattle.cept_codes.specs.declared.item.Reason.{Reason};
ghost use Rattle.cept_codes.specs.declared.item.Said.TheVariants as said;
ghost use Rattle.cept_outside.specs.ShelfState.{Holds, IsSound};
ghost use Rattle.cept_profile.specs.Changes.{changes, grid_with_paints};
ghost use Rattle.cept_profile.specs.Look.{grid};
ghost use Rattle.cept_run.specs.declared.run.Status.TheVariants as statuses;
ghost use Rattle.cept_run.specs.declared.words.ReportOptions.{ReportOptions};
ghost use Rattle.cept_codes.specs.declared.look.Look.{Look};
ghost use Rattle.cept_editor.specs.Events.{Event, event_changes, paints};
ghost use Rattle.cept_editor.specs.Made.{Output, AreCutOff};
ghost use Rattle.cept_run.specs.Course.{File, NoScript, course_of};
ghost use Rattle.cept_plot.specs.declared.figure.Figure.{Figure};
ghost use Rattle.cept_plot.specs.Commands.{IsDrawnOn};
ghost use Rattle.cept_plot.specs.Drawings.{points_after_all};
ghost use Rattle.cept_plot.specs.Points.{is_in_field};
ghost use Rattle.cept_profile.specs.State.{core};
ghost use Rattle.cept_profile.specs.Valid.{AllValid};
ghost use Rattle.cept_run.specs.Events.{Sequel, Figures, history, item_event, item_events};
ghost use Rattle.cept_run.specs.Events.{remaining_after, run_events};
ghost use Rattle.cept_run.specs.Outside.{Outside};
ghost use Rattle.cept_run.specs.Run.{Runs, ReportsFront};
ghost use Rattle.cept_run.specs.Words.{Request, is_painted, request_of};

/// The events of some items and one more are those of the items and then that of the one, as it is
/// after them. A command that is applied comes after the commands before it, and changes what it
/// changes after these; a refused item, and any item of a page that isn't painted, changes nothing.
pub fn each_item_after_those_before_it()
    ensures none { (options : ReportOptions) → item_events options [] ≡ [] }
    ensures more { (options : ReportOptions) (items : List Item) (item : Item)
        → item_events options (items ++ item ∷ [])
        ≡ item_events options items ++ item_event options items item ∷ [] }
    ensures applied { (options : ReportOptions) (items : List Item) (item : Item) (command : Command)
        → is_painted options.way ≡ true → item.what ≡ said.Command command
        → event_changes (item_event options items item)
        ≡ changes (history options items) command }
    ensures refused { (options : ReportOptions) (items : List Item) (item : Item) (reason : Reason)
        → item.what ≡ said.Refused reason → event_changes (item_event options items item) ≡ [] }
    ensures idle { (options : ReportOptions) (items : List Item) (item : Item)
        → is_painted options.way ≡ false → event_changes (item_event options items item) ≡ [] }
{}

/// A blank glass with the paints of items over it shows their meaning.
pub fn a_blank_glass_shows_the_meaning()
    ensures { (options : ReportOptions) (items : List Item)
        → grid_with_paints (grid []) (paints (item_events options items))
        ≡ grid (history options items) }
{}

/// After the paints of each event of a run a glass that was blank shows what the commands mean that
/// remain after it. So it does at the end of a run whose sink failed at that event.
pub fn a_blank_glass_shows_each_event()
    ensures each { (options : ReportOptions) (page : List ℕ) (sequel : Sequel) (shown : List (List Look))
        (done : List Event) (event : Event) (rest : List Event)
        → run_events options page sequel shown ≡ done ++ event ∷ rest
        → grid_with_paints (grid []) (paints (done ++ event ∷ [])) ≡ grid event.after }
    ensures cut { (options : ReportOptions) (page : List ℕ) (sequel : Sequel) (shown : List (List Look))
        (before after : Output) (off : AreCutOff (run_events options page sequel shown) before after)
        → before.glass.grid ≡ grid [] → after.glass.grid ≡ grid off.cut.after }
{}

/// What remains of a page and a drawing is the page with the drawing on it: a point whose cell is
/// within the format and not protected is in its field exactly where it is among the points that the
/// figures leave of the page's own. A cell whose points stay is as it was, and so is all else but
/// cells.
pub fn a_drawing_is_drawn_on_its_page()
    ensures { (page : List Command) (figures : List Figure) → AllValid page
        → IsDrawnOn (core page) (points_after_all (is_in_field (core page)) figures)
        (core (remaining_after page (Figures figures))) }
{}

/// A known page that can't be read on, or is too long, is reported as far as it was taken, whether
/// it is selected at the end or not: where it isn't, nothing was taken. Where a script is asked for,
/// or a drawing, it is that which may be selected at the end, and of the page nothing is reported.
pub fn a_known_page_is_reported_as_far_as_taken()
    ensures read_fault { (words : List (List ℕ)) (request : Request) (name page : List ℕ)
        (before after : Outside)
        → IsSound before.shelf → IsSound after.shelf → Runs words before after statuses.ReadFault
        → request_of words ≡ Some request → (course_of request).page ≡ File name
        → Holds before.shelf name page → (course_of request).script ≡ NoScript
        → ReportsFront (course_of request) (take after.shelf.taken page) before after }
    ensures too_long { (words : List (List ℕ)) (request : Request) (name page : List ℕ)
        (before after : Outside)
        → IsSound before.shelf → IsSound after.shelf → Runs words before after statuses.TooLong
        → request_of words ≡ Some request → (course_of request).page ≡ File name
        → Holds before.shelf name page → (course_of request).script ≡ NoScript
        → ReportsFront (course_of request) (take (2 ^ 24) page) before after }
    ensures read_fault_selected { (words : List (List ℕ)) (request : Request)
        (name page : List ℕ) (before after : Outside)
        → IsSound before.shelf → IsSound after.shelf → Runs words before after statuses.ReadFault
        → request_of words ≡ Some request → (course_of request).page ≡ File name
        → Holds before.shelf name page → after.shelf.selected ≡ Some (Some name)
        → ReportsFront (course_of request) (take after.shelf.taken page) before after }
    ensures read_fault_unselected { (words : List (List ℕ)) (request : Request)
        (name page : List ℕ) (before after : Outside)
        → IsSound before.shelf → IsSound after.shelf → Runs words before after statuses.ReadFault
        → request_of words ≡ Some request → (course_of request).page ≡ File name
        → Holds before.shelf name page → after.shelf.selected ≢ Some (Some name)
        → ReportsFront (course_of request) [] before after }
    ensures too_long_selected { (words : List (List ℕ)) (request : Request)
        (name page : List ℕ) (before after : Outside)
        → Runs words before after statuses.TooLong
        → request_of words ≡ Some request → (course_of request).page ≡ File name
        → Holds before.shelf name page → after.shelf.selected ≡ Some (Some name)
        → ReportsFront (course_of request) (take (2 ^ 24) page) before after }
    ensures too_long_unselected { (words : List (List ℕ)) (request : Request)
        (name page : List ℕ) (before after : Outside)
        → IsSound before.shelf → Runs words before after statuses.TooLong
        → request_of words ≡ Some request → (course_of request).page ≡ File name
        → Holds before.shelf name page → after.shelf.selected ≢ Some (Some name)
        → ReportsFront (course_of request) [] before after }
{}
