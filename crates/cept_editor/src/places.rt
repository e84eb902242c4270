ghost use Rattle.std.specs.Prelude.{◌≡◌, ◌≤◌, length};
ghost use Rattle.cept_editor.specs.inside.Order.{place_before};
ghost use Rattle.cept_editor.specs.Places.{LiesIn, bytes_at};

use crate::order::Order;

/// Where bytes stand in a script: from their first one to before `end`.
#[derive(Clone, Copy)]
pub(crate) struct Span {
    pub(crate) start: u32,
    pub(crate) end: u32,
}

/// The number of an edit's line, and what the line asks for.
#[derive(Clone, Copy)]
pub(crate) struct OrderLine {
    pub(crate) line: u32,
    pub(crate) order: Order,
}

/// The bytes that stand there in a script.
pub(crate) fn bytes_at(script: &[u8], span: Span) -> &[u8]
    requires { LiesIn script.now span }
    ensures { result.now ≡ bytes_at script.now span }
{
    &script[span.start as usize..span.end as usize]
}

/// Where bytes stand that end there in a script.
pub(crate) fn place_before(end: u32, bytes: &[u8]) -> Span
    requires { length bytes.now ≤ end }
    ensures { result ≡ place_before end bytes.now }
{
    Span {
        start: end - bytes.len() as u32,
        end,
    }
}
