#![tactic(auto, unfolding(crate::specs::Cells::user_slice))]
// Character codes and glyphs: which two bytes a code shows in a slice.
ghost use Rattle.std.specs.Prelude.{◌≡◌, ◌<◌, length, unwrap_or};
ghost use Rattle.limits.specs.Limits.{ram_length};
ghost use Rattle.glyph.specs.Glyph.{ends_line, slice_part, HasSlices};
ghost use Rattle.raster.specs.Raster.{OnScreen};
ghost use Rattle.raster.specs.Search.{InCharacter};
ghost use Rattle.glyph.specs.Words.{glyph_word, word_in};
ghost use Rattle.glyph.specs.Cells.{of_user, user_high, user_slice};

use raster::Slice;

// High bytes from here on are of no user character: SET, and number 26.
const BLANK_FROM: u8 = 128 + limits::USER_CHARACTERS as u8;

// A code's high byte: does it end the line?
pub fn ends_line(high: u8) -> bool
    ensures { result ≡ ends_line high }
{
    high == 255
}

// The two bytes of a slice: a part of the lent RAM or of the lent font, chosen by SET.
pub fn slice_bytes<'a>(
    ram: &'a [u8; limits::RAM_LENGTH],
    font: &'a [u8; limits::FONT_LENGTH],
    high: u8,
    slice: Slice,
) -> &'a [u8]
    requires has_slices { HasSlices high }
    requires on_screen { OnScreen slice }
    ensures part { result.now ≡ slice_part ram.now font.now high slice.0 }
    ensures two { length result.now ≡ 2 }
{
    let number = (high % 128) as usize;
    let s = slice.0 as usize;
    if high / 128 % 2 == 0 {
        let a = 36 * number + 2 * (s - 1);
        return &font[a..a + 2];
    }
    let a = limits::USER_LENGTH as usize * number + 2 * s;
    &ram[a..a + 2]
}

// A code's slice as it lies there, two bytes with PX11 to PX0 in the low bits; how many cells that read.
#[derive(Clone, Copy, Debug, PartialEq, Eq)]
pub struct Word {
    pub bits: u16,
    pub cells: u32,
}

// What a code's high byte shows in a slice; no bits and no cells at the end of line. With SET, numbers 26 to 126 are blank. Font codes come most
// often and are tested first. The word is made before it is known whether there is one: made inside the Option, it would be moved as one number.
#[tactic(auto, using(crate::proofs::Laws::glyph_font, crate::proofs::Laws::glyph_user, crate::proofs::Laws::glyph_blank))]
fn glyph_word(
    ram: &[u8; limits::RAM_LENGTH],
    font: &[u8; limits::FONT_LENGTH],
    high: u8,
    slice: Slice,
) -> Word
    requires { OnScreen slice }
    ensures { result ≡ glyph_word ram.now font.now high slice }
{
    if high < 128 {
        let part = slice_bytes(ram, font, high, slice);
        return Word {
            bits: u16::from_le_bytes([part[0], part[1]]),
            cells: 0,
        };
    }
    if high < BLANK_FROM {
        let part = slice_bytes(ram, font, high, slice);
        return Word {
            bits: u16::from_le_bytes([part[0], part[1]]),
            cells: 2,
        };
    }
    Word { bits: 0, cells: 0 }
}

// The same; nothing at the end of line.
#[tactic(auto, using(crate::proofs::Laws::word_end, crate::proofs::Laws::word_found, crate::proofs::Laws::glyph_end))]
pub fn lookup(
    ram: &[u8; limits::RAM_LENGTH],
    font: &[u8; limits::FONT_LENGTH],
    high: u8,
    slice: Slice,
) -> Option<Word>
    requires { OnScreen slice }
    ensures word { result ≡ word_in ram.now font.now high slice }
    ensures glyph { unwrap_or result (record { bits = 0; cells = 0 }) ≡ glyph_word ram.now font.now high slice }
{
    let word = glyph_word(ram, font, high, slice);
    if ends_line(high) {
        return None;
    }
    Some(word)
}

// Is a cell one of a user character's?
pub fn of_user(cell: u16) -> bool
    ensures { result ≡ of_user cell }
{
    cell < limits::USER_CELLS
}

// The high byte of the code whose user character a cell belongs to.
pub fn user_high(cell: u16) -> u8
    requires { cell < ram_length }
    ensures { result ≡ user_high cell }
{
    (128 + cell / limits::USER_LENGTH) as u8
}

// The number of a cell's slice; 0 for the first two cells of a character, which are of none.
pub fn user_slice(cell: u16) -> Slice
    ensures slice { result ≡ user_slice cell }
    ensures inside { InCharacter result }
{
    Slice((cell % limits::USER_LENGTH / 2) as u8)
}
