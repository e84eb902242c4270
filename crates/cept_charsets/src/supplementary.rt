ghost use Rattle.std.specs.Prelude.{◌≡◌, ◌/◌, ◌<◌};
ghost use Rattle.cept_charsets.specs.Rendition.{supplementary_rows, point_in};
ghost use Rattle.cept_charsets.specs.inside.Rendition.{IsPointIn};

/// A code of set `S` in Unicode: U+FFFD where the set leaves it unassigned.
#[tactic(auto, unfolding(crate::specs::Rendition::supplementary_rows))]
pub fn supplementary(code: u8) -> char
    ensures point { result ≡ point_in supplementary_rows code }
    ensures small { result < 0x1_0000 }
{
    match code >> 4 {
        2 => column_2(code),
        3 => column_3(code),
        5 => column_5(code),
        6 => column_6(code),
        7 => column_7(code),
        _ => char::REPLACEMENT_CHARACTER,
    }
}

#[tactic(auto, unfolding(crate::specs::Rendition::supplementary_rows))]
fn column_2(code: u8) -> char
    requires { code / 16 ≡ 2 }
    ensures { IsPointIn supplementary_rows code result }
{
    match code {
        0x21 => '¡',
        0x22 => '¢',
        0x23 => '£',
        0x24 => '$',
        0x25 => '¥',
        0x26 => '#',
        0x27 => '§',
        0x28 => '¤',
        0x29 => '‘',
        0x2A => '“',
        0x2B => '«',
        0x2C => '←',
        0x2D => '↑',
        0x2E => '→',
        0x2F => '↓',
        _ => char::REPLACEMENT_CHARACTER,
    }
}

#[tactic(auto, unfolding(crate::specs::Rendition::supplementary_rows))]
fn column_3(code: u8) -> char
    requires { code / 16 ≡ 3 }
    ensures { IsPointIn supplementary_rows code result }
{
    match code {
        0x30 => '°',
        0x31 => '±',
        0x32 => '²',
        0x33 => '³',
        0x34 => '×',
        0x35 => 'µ',
        0x36 => '¶',
        0x37 => '·',
        0x38 => '÷',
        0x39 => '’',
        0x3A => '”',
        0x3B => '»',
        0x3C => '¼',
        0x3D => '½',
        0x3E => '¾',
        0x3F => '¿',
        _ => char::REPLACEMENT_CHARACTER,
    }
}

#[tactic(auto, unfolding(crate::specs::Rendition::supplementary_rows))]
fn column_5(code: u8) -> char
    requires { code / 16 ≡ 5 }
    ensures { IsPointIn supplementary_rows code result }
{
    match code {
        0x50 => '―',
        0x51 => '¹',
        0x52 => '®',
        0x53 => '©',
        0x54 => '™',
        0x55 => '♪',
        _ => char::REPLACEMENT_CHARACTER,
    }
}

#[tactic(auto, unfolding(crate::specs::Rendition::supplementary_rows))]
fn column_6(code: u8) -> char
    requires { code / 16 ≡ 6 }
    ensures { IsPointIn supplementary_rows code result }
{
    match code {
        0x60 => 'Ω',
        0x61 => 'Æ',
        0x62 => 'Đ',
        0x63 => 'ª',
        0x64 => 'Ħ',
        0x66 => 'Ĳ',
        0x67 => 'Ŀ',
        0x68 => 'Ł',
        0x69 => 'Ø',
        0x6A => 'Œ',
        0x6B => 'º',
        0x6C => 'Þ',
        0x6D => 'Ŧ',
        0x6E => 'Ŋ',
        0x6F => 'ŉ',
        _ => char::REPLACEMENT_CHARACTER,
    }
}

#[tactic(auto, unfolding(crate::specs::Rendition::supplementary_rows))]
fn column_7(code: u8) -> char
    requires { code / 16 ≡ 7 }
    ensures { IsPointIn supplementary_rows code result }
{
    match code {
        0x70 => 'ĸ',
        0x71 => 'æ',
        0x72 => 'đ',
        0x73 => 'ð',
        0x74 => 'ħ',
        0x75 => 'ı',
        0x76 => 'ĳ',
        0x77 => 'ŀ',
        0x78 => 'ł',
        0x79 => 'ø',
        0x7A => 'œ',
        0x7B => 'ß',
        0x7C => 'þ',
        0x7D => 'ŧ',
        0x7E => 'ŋ',
        _ => char::REPLACEMENT_CHARACTER,
    }
}
