ghost use Rattle.std.specs.Prelude.{◌≡◌, ◌≤◌, ◌<◌, IfSome, encode_utf8, encode_utf8_all, length};
ghost use Rattle.cept_codes.specs.Glyph.{IsValidGlyph};
ghost use Rattle.cept_charsets.specs.Rendition.{mark, primary_points, rendition};

use crate::supplementary::supplementary;
use arrayvec::ArrayString;
use cept_codes::{Glyph, SetId};

/// The text of one sign.
pub type Text4 = ArrayString<4>;

/// A sign in Unicode, one to three bytes of UTF-8.
pub fn unicode_of(glyph: Glyph) -> Text4
    requires { IsValidGlyph glyph }
    ensures text { result.bytes ≡ rendition glyph }
    ensures some { 1 ≤ length result.bytes }
    ensures few { length result.bytes ≤ 3 }
{
    match glyph.set {
        SetId::P => primary(glyph.code, glyph.accent),
        SetId::S => text_of(supplementary(glyph.code)),
        SetId::M | SetId::N => text_of('\u{2592}'),
        SetId::D => text_of('\u{25A1}'),
    }
}

#[tactic(auto, using(crate::proofs::Bytes::one_byte, crate::proofs::Bytes::three_bytes))]
fn text_of(point: char) -> Text4
    requires { point < 0x1_0000 }
    ensures text { result.bytes ≡ encode_utf8 point }
    ensures some { 1 ≤ length result.bytes }
    ensures few { length result.bytes ≤ 3 }
{
    let mut text = Text4::new();
    text.push(point);
    text
}

#[tactic(auto, using(crate::proofs::Bytes::ascii_byte, crate::proofs::Bytes::two_bytes))]
fn primary(code: u8, accent: u8) -> Text4
    requires valid { (0x20 ≤ code) × (code ≤ 0x7F) }
    ensures text { result.bytes ≡ encode_utf8_all (primary_points code accent) }
    ensures some { 1 ≤ length result.bytes }
    ensures few { length result.bytes ≤ 3 }
{
    if code == 0x7F {
        return text_of('\u{25A0}');
    }
    let mut text = text_of(char::from(code));
    if let Some(mark) = mark(accent) {
        text.push(mark);
    }
    text
}

#[tactic(auto, unfolding(crate::specs::Rendition::mark))]
fn mark(accent: u8) -> Option<char>
    ensures mark { result ≡ mark accent }
    ensures small { IfSome result (λ point. point < 0x800) }
{
    match accent {
        0x41 => Some('\u{0300}'),
        0x42 => Some('\u{0301}'),
        0x43 => Some('\u{0302}'),
        0x44 => Some('\u{0303}'),
        0x45 => Some('\u{0304}'),
        0x46 => Some('\u{0306}'),
        0x47 => Some('\u{0307}'),
        0x48 => Some('\u{0308}'),
        0x4A => Some('\u{030A}'),
        0x4B => Some('\u{0327}'),
        0x4D => Some('\u{030B}'),
        0x4E => Some('\u{0328}'),
        0x4F => Some('\u{030C}'),
        _ => None,
    }
}
