//! The words of the program: which of them are a request, and what a request asks for.

ghost use Rattle.std.specs.Prelude.{◌≡◌, ◌∷◌, [], None, Some, map, string_bytes, IfSome};
ghost use Rattle.std.specs.Prelude.{if◌then◌else◌, nat_le};
ghost use Rattle.std.specs.Char.{is_ascii_digit};
ghost use Rattle.std.specs.List.{list_all};
ghost use Rattle.std.specs.Option.{option_map, option_and_then};
ghost use Rattle.cept_run.specs.declared.words.End.TheVariants.{Phases};
ghost use Rattle.cept_run.specs.declared.words.Word.TheVariants as asks;
ghost use Rattle.cept_run.specs.Words.{options_of_page, options_of_script, painting_options};
ghost use Rattle.cept_run.specs.Words.{number_of, request_by, request_of, request_with, word_of};
ghost use Rattle.cept_run.specs.Words.{is_counted, is_painted, lists_changes, HasTwoNames};
ghost use Rattle.cept_run.specs.inside.Reporting.{is_quiet};

/// What is asked for of a page.
#[derive(Clone, Copy, Debug, PartialEq, Eq)]
pub enum PageAction {
    /// `changes PAGE`: the changed cells of each item, and the refused items.
    Changes,
    /// `check PAGE`: the refused items, and how many items there are.
    Check,
    /// `list PAGE`: the items.
    List,
    /// `show PAGE`: the screen at the end, as text.
    Show,
    /// `cells PAGE`: the cells of the screen at the end that aren't blank.
    Cells,
    /// `write PAGE`: the page at the end, as bytes that bring it back.
    Write,
}

/// What is asked for of a page and a script.
#[derive(Clone, Copy, Debug, PartialEq, Eq)]
pub enum ScriptAction {
    /// `trace PAGE SCRIPT`: the refused items of the page, and the changed cells of each edit.
    Trace,
    /// `edit PAGE SCRIPT`: the page after the edits, as bytes that bring it back.
    Edit,
}

/// What is asked for of the bytes of a page, whatever they say.
#[derive(Clone, Copy, Debug, PartialEq, Eq)]
pub enum BytesAction {
    /// `seven PAGE`: they are put in seven bits.
    Seven,
    /// `eight PAGE`: from seven bits, they are put in eight again.
    Eight,
}

/// What is asked for of a generated page.
#[derive(Clone, Copy, Debug, PartialEq, Eq)]
pub enum NumberAction {
    /// `gen NUMBER`: it is put.
    Generate,
    /// `load NUMBER`: it is read and painted; how many bytes and items it has, and how many cells
    /// were painted.
    Load,
}

/// What is put at the end of a page whose commands are painted.
#[derive(Clone, Copy, Debug, PartialEq, Eq)]
pub enum End {
    /// Nothing.
    Nothing,
    /// What the glass shows, as text.
    Screen,
    /// The cells that the glass shows and that aren't blank.
    Cells,
    /// The page, as bytes that bring it back.
    Page,
    /// How many bytes and items the page has, and how many cells were painted, which are counted.
    Counts,
    /// The cells that aren't blank at phase 0 of flashing, and those that each of so many turns
    /// changes.
    Phases(u16),
}

impl End {
    /// Whether the painted cells are counted.
    #[inline(always)]
    pub fn is_counted(self) -> bool
        ensures { result ≡ is_counted self }
    {
        matches!(self, End::Counts)
    }
}

/// What is done with the items of a page.
#[derive(Clone, Copy, Debug, PartialEq, Eq)]
pub enum Way {
    /// They are counted, and the counts put at the end.
    Count,
    /// They are listed.
    List,
    /// Their commands are applied and painted.
    Paint,
    /// The same, and what each command changes is listed.
    PaintAndList,
}

impl Way {
    /// Whether commands are applied and painted.
    #[inline(always)]
    pub fn is_painted(self) -> bool
        ensures { result ≡ is_painted self }
    {
        matches!(self, Way::Paint | Way::PaintAndList)
    }

    /// Whether commands are counted alone.
    #[inline(always)]
    pub(crate) fn is_quiet(self) -> bool
        ensures { result ≡ is_quiet self }
    {
        matches!(self, Way::Count)
    }

    /// Whether what each command changes is listed.
    #[inline(always)]
    pub fn lists_changes(self) -> bool
        ensures { result ≡ lists_changes self }
    {
        matches!(self, Way::PaintAndList)
    }
}

/// How a page is reported.
#[derive(Clone, Copy, Debug, PartialEq, Eq)]
pub struct ReportOptions {
    /// What is done with its items.
    pub way: Way,
    /// Its refused items are named.
    pub refusals: bool,
    /// The changes of each edit are listed.
    pub edits_listed: bool,
    /// What is put at the end.
    pub end: End,
}

/// The options of a page that is painted, and of which nothing is put.
const PAINT_OPTIONS: ReportOptions = ReportOptions {
    way: Way::Paint,
    refusals: false,
    edits_listed: false,
    end: End::Nothing,
};

impl PageAction {
    /// Its report options.
    pub fn options(self) -> ReportOptions
        ensures { result ≡ options_of_page self }
    {
        match self {
            PageAction::Changes => ReportOptions {
                way: Way::PaintAndList,
                refusals: true,
                ..PAINT_OPTIONS
            },
            PageAction::Check => ReportOptions {
                way: Way::Count,
                refusals: true,
                ..PAINT_OPTIONS
            },
            PageAction::List => ReportOptions {
                way: Way::List,
                refusals: true,
                ..PAINT_OPTIONS
            },
            PageAction::Show => ReportOptions {
                end: End::Screen,
                ..PAINT_OPTIONS
            },
            PageAction::Cells => ReportOptions {
                end: End::Cells,
                ..PAINT_OPTIONS
            },
            PageAction::Write => ReportOptions {
                end: End::Page,
                ..PAINT_OPTIONS
            },
        }
    }
}

impl ScriptAction {
    /// Its report options.
    pub fn options(self) -> ReportOptions
        ensures { result ≡ options_of_script self }
    {
        match self {
            ScriptAction::Trace => ReportOptions {
                refusals: true,
                edits_listed: true,
                ..PAINT_OPTIONS
            },
            ScriptAction::Edit => ReportOptions {
                end: End::Page,
                ..PAINT_OPTIONS
            },
        }
    }
}

/// The options where a generated page is loaded.
pub const LOAD_OPTIONS: ReportOptions = ReportOptions {
    way: Way::Paint,
    refusals: false,
    edits_listed: false,
    end: End::Counts,
};

/// The options of a page and a drawing.
pub const DRAW_OPTIONS: ReportOptions = ReportOptions {
    way: Way::Paint,
    refusals: false,
    edits_listed: false,
    end: End::Page,
};

/// The options of a page that flashes through so many turns.
pub fn options_of_phases(turns: u16) -> ReportOptions
    ensures { result ≡ record painting_options { end = Phases turns } }
{
    ReportOptions {
        end: End::Phases(turns),
        ..PAINT_OPTIONS
    }
}

/// What the first word asks for, by what stands after it.
#[derive(Clone, Copy, Debug, PartialEq, Eq)]
pub enum Word {
    /// The name of a page.
    Page(PageAction),
    /// The name of a page, of whose bytes it is asked.
    Bytes(BytesAction),
    /// The names of a page and of a script.
    Script(ScriptAction),
    /// The number of a generated page.
    Number(NumberAction),
    /// The name of a page, and a number of turns.
    Flash,
    /// The names of a page and of a drawing.
    Plot,
}

/// What a word asks for.
fn word_of(word: &str) -> Option<Word>
    ensures { result ≡ word_of word.now }
{
    if word == "changes" {
        Some(Word::Page(PageAction::Changes))
    } else if word == "check" {
        Some(Word::Page(PageAction::Check))
    } else if word == "list" {
        Some(Word::Page(PageAction::List))
    } else if word == "show" {
        Some(Word::Page(PageAction::Show))
    } else if word == "cells" {
        Some(Word::Page(PageAction::Cells))
    } else if word == "write" {
        Some(Word::Page(PageAction::Write))
    } else if word == "trace" {
        Some(Word::Script(ScriptAction::Trace))
    } else if word == "edit" {
        Some(Word::Script(ScriptAction::Edit))
    } else if word == "gen" {
        Some(Word::Number(NumberAction::Generate))
    } else if word == "load" {
        Some(Word::Number(NumberAction::Load))
    } else if word == "seven" {
        Some(Word::Bytes(BytesAction::Seven))
    } else if word == "eight" {
        Some(Word::Bytes(BytesAction::Eight))
    } else if word == "flash" {
        Some(Word::Flash)
    } else if word == "plot" {
        Some(Word::Plot)
    } else {
        None
    }
}

/// What the program is asked for: a word, and what has to stand after it.
#[derive(Clone, Copy, Debug)]
pub enum Request<'a> {
    /// Of the page of this name.
    Page(PageAction, &'a str),
    /// Of the bytes of the page of this name.
    Bytes(BytesAction, &'a str),
    /// Of the page of the first name and the script of the second.
    Script(ScriptAction, &'a str, &'a str),
    /// Of the generated page of this number.
    Number(NumberAction, u32),
    /// Of the page of this name, which flashes through so many turns, at most 600.
    Flash(&'a str, u16),
    /// Of the page of the first name and the drawing of the second: the page with it, as bytes that
    /// bring it back.
    Drawing(&'a str, &'a str),
}

/// Whether each byte is a digit.
fn are_digits(text: &[u8]) -> bool
    ensures { result ≡ list_all is_ascii_digit text.now }
{
    text.iter().all(|byte| byte.is_ascii_digit())
}

/// The number of a word of one to ten digits, at most 4,294,967,295.
fn number_of(word: &str) -> Option<u32>
    ensures { result ≡ number_of word.now }
{
    if word.len() > 10 || !are_digits(word.as_bytes()) {
        return None;
    }
    word.parse::<u32>().ok()
}

/// An action and the one word after it, the name of a page.
fn page_request<'a>(action: PageAction, words: &[&'a str]) -> Option<Request<'a>>
    ensures { option_map request_by result
        ≡ request_with (asks.Page action) (map (λ w. w.now) words.now) }
{
    match words {
        [page] if !page.is_empty() => Some(Request::Page(action, page)),
        _ => None,
    }
}

/// An action and the one word after it, the name of a page.
fn bytes_request<'a>(action: BytesAction, words: &[&'a str]) -> Option<Request<'a>>
    ensures { option_map request_by result
        ≡ request_with (asks.Bytes action) (map (λ w. w.now) words.now) }
{
    match words {
        [page] if !page.is_empty() => Some(Request::Bytes(action, page)),
        _ => None,
    }
}

/// An action and the two words after it, the names of a page and of a script.
fn script_request<'a>(action: ScriptAction, words: &[&'a str]) -> Option<Request<'a>>
    ensures request { option_map request_by result
        ≡ request_with (asks.Script action) (map (λ w. w.now) words.now) }
    ensures differ { IfSome result (λ request. HasTwoNames (request_by request)) }
{
    match words {
        [page, script] if !page.is_empty() && !script.is_empty() && page != script => {
            Some(Request::Script(action, page, script))
        }
        _ => None,
    }
}

/// An action and the one word after it, the number of a generated page.
fn number_request<'a>(action: NumberAction, words: &[&'a str]) -> Option<Request<'a>>
    ensures { option_map request_by result ≡ request_with (asks.Number action) (map (λ w. w.now) words.now) }
{
    match words {
        [number] => Some(Request::Number(action, number_of(number)?)),
        _ => None,
    }
}

/// The number of turns of a word of one to ten digits, at most 600.
fn turns_of(word: &str) -> Option<u16>
    ensures { result ≡ option_and_then (λ n. if nat_le n 600 then Some n else None) (number_of word.now) }
{
    let number = number_of(word)?;
    if number <= 600 {
        Some(number as u16)
    } else {
        None
    }
}

/// The two words after the first, the name of a page and a number of turns.
fn flash_request<'a>(words: &[&'a str]) -> Option<Request<'a>>
    ensures { option_map request_by result ≡ request_with asks.Flash (map (λ w. w.now) words.now) }
{
    match words {
        [page, number] if !page.is_empty() => { Some(Request::Flash(page, turns_of(number)?)) }
        _ => None,
    }
}

/// The two words after the first, the names of a page and of a drawing.
fn drawing_request<'a>(words: &[&'a str]) -> Option<Request<'a>>
    ensures request { option_map request_by result
        ≡ request_with asks.Plot (map (λ w. w.now) words.now) }
    ensures differ { IfSome result (λ request. HasTwoNames (request_by request)) }
{
    match words {
        [page, drawing] if !page.is_empty() && !drawing.is_empty() && page != drawing => {
            Some(Request::Drawing(page, drawing))
        }
        _ => None,
    }
}

/// What a first word asks for with those after it, where they are a request.
#[tactic(auto, unfolding(crate::specs::Words::request_of))]
pub fn request_with<'a>(word: &str, after: &[&'a str]) -> Option<Request<'a>>
    ensures request { option_map request_by result
        ≡ request_of (word.now ∷ map (λ w. w.now) after.now) }
    ensures differ { IfSome result (λ request. HasTwoNames (request_by request)) }
{
    match word_of(word)? {
        Word::Page(action) => page_request(action, after),
        Word::Bytes(action) => bytes_request(action, after),
        Word::Script(action) => script_request(action, after),
        Word::Number(action) => number_request(action, after),
        Word::Flash => flash_request(after),
        Word::Plot => drawing_request(after),
    }
}

/// What the words ask for, where they are a request.
#[tactic(auto, unfolding(crate::specs::Words::request_of))]
pub fn request_of(words: &[String]) -> Option<Request<'_>>
    ensures request { option_map request_by result ≡ request_of (map string_bytes words.now) }
    ensures differ { IfSome result (λ request. HasTwoNames (request_by request)) }
{
    match words {
        [word] => request_with(word.as_str(), &[]),
        [word, one] => request_with(word.as_str(), &[one.as_str()]),
        [word, one, other] => request_with(word.as_str(), &[one.as_str(), other.as_str()]),
        _ => None,
    }
}
