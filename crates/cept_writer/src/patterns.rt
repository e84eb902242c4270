ghost use Rattle.std.specs.Prelude.{◌≡◌, ◌≤◌, IfSome};
ghost use Rattle.cept_codes.specs.Look.{IsValidPattern};
ghost use Rattle.cept_outside.specs.SinkState.{PutsText};
ghost use Rattle.cept_parser.specs.Spelling.{form_of, spellings};
ghost use Rattle.cept_writer.specs.CompactCommands.{coded_pattern};
ghost use Rattle.cept_writer.specs.inside.EntryPieces.{has_form, is_code_next, last_then, pattern_after};
ghost use Rattle.cept_writer.specs.EntryPieces.{pattern_numbered, pattern_piece};
ghost use Rattle.cept_writer.specs.inside.EntryPieces.{patterns_after};
ghost use Rattle.cept_writer.specs.EntryPieces.{pieces_in_turn};

use crate::last::LastPattern;
use crate::put::put_commands;
use cept_codes::{Command, Form, Pattern};
use cept_outside::{Sink, WriteFault};
use cept_repaint::Screen;

/// The form of a pattern.
fn form_of(pattern: &Pattern) -> Form
    ensures { result ≡ form_of pattern.now }
{
    Form {
        w: pattern.w,
        h: pattern.h,
        planes: pattern.planes,
    }
}

/// Whether the last pattern has this form.
fn has_form(last: Option<LastPattern>, form: &Form) -> bool
    ensures { result ≡ has_form last form.now }
{
    match last {
        None => false,
        Some(last) => last.form == *form,
    }
}

/// Whether this code comes directly after that of the last pattern.
fn is_code_next(last: Option<LastPattern>, code: u8) -> bool
    ensures { result ≡ is_code_next last code }
{
    match last {
        None => false,
        Some(last) => last.next == code,
    }
}

/// Puts a pattern: after its header where the last one has another form, and after its code there
/// and where it isn't the next one.
fn put_pattern<T: Sink>(
    sink: &mut T,
    last: Option<LastPattern>,
    code: u8,
    pattern: &Pattern,
) -> Result<(), WriteFault>
    requires from_first { 0x21 ≤ code }
    requires to_last { code ≤ 0x7E }
    requires valid { IsValidPattern pattern.now }
    ensures { let text =
        spellings (pattern_after last (record {
          code = code;
          pattern = pattern.now;
        })) in
        PutsText (T.state sink.old) text result (T.state sink.new) }
{
    let form = form_of(pattern);
    let header = Command::DrcsHeader(false, form);
    let start = Command::DrcsStart(code);
    let planes = Command::DrcsPattern(code, *pattern);
    if has_form(last, &form) {
        if is_code_next(last, code) {
            put_commands(sink, &[planes])
        } else {
            put_commands(sink, &[start, planes])
        }
    } else {
        put_commands(sink, &[header, start, planes])
    }
}

/// Puts the pattern of a code, nothing where none is defined.
fn put_defined<T: Sink>(
    sink: &mut T,
    last: Option<LastPattern>,
    code: u8,
    pattern: &Option<Pattern>,
) -> Result<(), WriteFault>
    requires from_first { 0x21 ≤ code }
    requires to_last { code ≤ 0x7E }
    requires valid { IfSome pattern.now IsValidPattern }
    ensures { let text = spellings (patterns_after last (coded_pattern code pattern.now)) in
        PutsText (T.state sink.old) text result (T.state sink.new) }
{
    match pattern {
        None => Ok(()),
        Some(pattern) => put_pattern(sink, last, code, pattern),
    }
}

/// What is kept of the last pattern after that of a code.
fn last_then(last: Option<LastPattern>, code: u8, pattern: &Option<Pattern>) -> Option<LastPattern>
    requires { code ≤ 0x7E }
    ensures { result ≡ last_then last (coded_pattern code pattern.now) }
{
    match pattern {
        None => last,
        Some(pattern) => Some(LastPattern {
            form: form_of(pattern),
            next: code + 1,
        }),
    }
}

/// Puts the patterns of all codes.
pub fn put_patterns<T: Sink>(sink: &mut T, screen: &Screen) -> Result<(), WriteFault>
    ensures { let text =
        spellings (pieces_in_turn pattern_piece (pattern_numbered screen.now.page.patterns) 94) in
        PutsText (T.state sink.old) text result (T.state sink.new) }
{
    let mut last = None;
    for i in 0..94u8 {
        let pattern = screen.pattern(0x21 + i);
        put_defined(sink, last, 0x21 + i, &pattern)?;
        last = last_then(last, 0x21 + i, &pattern);
    }
    Ok(())
}
