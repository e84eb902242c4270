ghost use Rattle.std.specs.Prelude.{◌≡◌, ◌≤◌};
ghost use Rattle.cept_parser.specs.Controls.{one_byte};

use cept_codes::{Command, Reason, Said};

/// What a control of the C0 set says that begins no longer unit.
#[tactic(auto, unfolding(crate::specs::Controls::one_byte))]
#[inline(never)]
pub fn control(byte: u8, said: &mut Said)
    requires { byte ≤ 0x1F }
    ensures { said.new ≡ one_byte byte }
{
    *said = match byte {
        0x00 => Said::Command(Command::Nul), // NUL
        0x08 => Said::Command(Command::Back), // APB
        0x09 => Said::Command(Command::Forward), // APF
        0x0A => Said::Command(Command::Down), // APD
        0x0B => Said::Command(Command::Up), // APU
        0x0C => Said::Command(Command::Clear), // CS
        0x0D => Said::Command(Command::Return), // APR
        0x0E => Said::Command(Command::LockLeft(1)), // LS1
        0x0F => Said::Command(Command::LockLeft(0)), // LS0
        0x11 => Said::Command(Command::CursorOn), // CON
        0x14 => Said::Command(Command::CursorOff), // COF
        0x18 => Said::Command(Command::Cancel), // CAN
        0x19 => Said::Command(Command::Single(2)), // SS2
        0x1D => Said::Command(Command::Single(3)), // SS3
        0x1E => Said::Command(Command::Home), // APH
        _ => Said::Refused(Reason::UnassignedControl),
    };
}
