#![tactic(auto)]
// Lengths and limits that code tests, each named once, at the width of the test. specs/Limits.antt has those of definitions.
ghost use Rattle.std.specs.Prelude.{◌≡◌};
ghost use Rattle.limits.specs.Limits.{bad_line_count};

// Bytes of the lent RAM, of the lent font, and of a font file.
pub const RAM_LENGTH: usize = 1024;

pub const FONT_LENGTH: usize = 4608;

pub const FONT_FILE_LENGTH: usize = 5120;

// RAM cells, and pairs of them: a descriptor or a code is one.
pub const RAM_CELLS: u32 = RAM_LENGTH as u32;

pub const RAM_PAIRS: usize = RAM_LENGTH / 2;

// User characters, cells of one, and of all.
pub const USER_CHARACTERS: u16 = 26;

pub const USER_LENGTH: u16 = 38;

pub const USER_CELLS: u16 = USER_CHARACTERS * USER_LENGTH;

// Lines of a frame at the most.
pub const FRAME_LINES: u32 = 2048;

// Pixels of the widest line.
pub const LINE_MAX: usize = 768;

// Addresses on the bus: those that there are, the first behind the RAM, and the first register's.
pub const ADDRESS_SPACE: u16 = 0x4000;

pub const RAM_END: u16 = RAM_LENGTH as u16;

pub const FIRST_REGISTER: u16 = 0x3FF0;

// No frame has this many lines: 0, or above the most.
pub fn bad_line_count(lines: u32) -> bool
    ensures { result ≡ bad_line_count lines }
{
    lines == 0 || lines > FRAME_LINES
}
