#![tactic(auto)]
// One pixel of a frame, asked for by column and line: document 01 as plainly as it can be read, for the bench. Nothing is kept between
// calls, so every call walks from the frame's first descriptor. A line is drawn faster by the device's own draw.
ghost use Rattle.std.specs.Prelude.{◌≡◌, ◌+◌, ◌-◌, ◌*◌, ◌<◌, ◌≤◌};
ghost use Rattle.limits.specs.Limits.{ram_pairs, frame_lines};
ghost use Rattle.buffers.specs.Buffers.{Bytes};
ghost use Rattle.raster.specs.Raster.{InStrip, OnScreen};
ghost use Rattle.walk.specs.Walk.{zoomed_by, height_of};
ghost use Rattle.paint.specs.Pixels.{foreground, background};
ghost use Rattle.pixel.specs.Pixel.{pair_at, falls_in, slice_of, ended, is_foreground, code_of, foreground_at, beside_at, row_pixel, pixel_at};
ghost use Rattle.pixel.specs.Ask.{pixel_reply, ask_pixel};
ghost use Rattle.pixel.specs.Rounds.{round_of};

use device::Device;
use raster::{ScanLine, Slice};
use refusals::Refusal;
use registers::Registers;
use std::ops::ControlFlow;

// A constant of its own: a remainder by a conversion would leave a branch that traps, which the ports do without.
const RAM_PAIRS: u32 = limits::RAM_PAIRS as u32;

// Two bytes of RAM at an even address: a descriptor, or a code.
#[derive(Clone, Copy)]
pub struct Pair {
    pub low: u8,
    pub high: u8,
}

// A line of a frame: the descriptor of its strip, and which line of the strip it is. In the plain rest of a frame it has no strip: a
// descriptor that is passed over stands for it.
#[derive(Clone, Copy)]
pub struct StripLine {
    pub descriptor: Pair,
    pub line: ScanLine,
}

// What a line of characters draws with.
#[derive(Clone, Copy)]
pub struct Row {
    // where its codes start
    pub address: u16,
    pub slice: Slice,
    // the plain pixel
    pub plain: u8,
    // flashing characters are in their hidden time
    pub hidden: bool,
}

// A row with the RAM and the font that it is read from.
#[derive(Clone, Copy)]
struct RowIn<'a> {
    ram: &'a [u8; limits::RAM_LENGTH],
    font: &'a [u8; limits::FONT_LENGTH],
    row: Row,
    ghost bytes: { Bytes ram.now × Bytes font.now },
    ghost on_screen: { OnScreen row.slice },
}

fn pair_at(ram: &[u8; limits::RAM_LENGTH], address: usize) -> Pair
    ensures { result ≡ pair_at ram.now address }
{
    let at = walk::even_address(address);
    Pair {
        low: ram[at],
        high: ram[at + 1],
    }
}

// A line of a descriptor's strip, counted from 0.
fn line_of(descriptor: Pair, number: u32) -> StripLine
    requires { number < frame_lines }
    ensures { result ≡ record { descriptor = descriptor; line = record { 0 = number + 1 } } }
{
    StripLine {
        descriptor,
        line: ScanLine((number + 1) as u16),
    }
}

// The descriptors from one place of RAM up to another, two bytes each, with no wrap between: line y is one of the strip of one of them,
// or lies past them all, so many lines on. Places of 32 bits, for small processors. Each kind of strip is tested by itself: where their
// lines come together before the test, the compiler counts them by a shift, and a strip takes half as long again.
#[tactic(auto, using(crate::proofs::Rounds::span_here, crate::proofs::Rounds::span_next, crate::proofs::Rounds::span_end, crate::proofs::Laws::lines_spacing, crate::proofs::Laws::lines_characters))]
fn walk_span(
    ram: &[u8; limits::RAM_LENGTH],
    ch: u8,
    from: u32,
    to: u32,
    y: u32,
) -> ControlFlow<StripLine, u32>
    requires span { (from ≤ to) × (to ≤ ram_pairs) }
    requires y_lt_frame_lines { y < frame_lines }
    ensures { result ≡ round_of (to - from) ram.now ch (2 * from) y }
{
    let height = u32::from(walk::height(ch));
    let mut left = y;
    for place in from..to {
        let at = 2 * place as usize;
        let descriptor = Pair {
            low: ram[at],
            high: ram[at + 1],
        };
        if walk::is_spacing(descriptor.high) {
            let lines = u32::from(descriptor.low);
            if left < lines {
                return ControlFlow::Break(line_of(descriptor, left));
            }
            left -= lines;
        } else if walk::zoom(descriptor.high) {
            if left < 2 * height {
                return ControlFlow::Break(line_of(descriptor, left));
            }
            left -= 2 * height;
        } else {
            if left < height {
                return ControlFlow::Break(line_of(descriptor, left));
            }
            left -= height;
        }
    }
    ControlFlow::Continue(left)
}

// All 512 descriptors of RAM, from one on.
#[tactic(auto, using(crate::proofs::Rounds::round_upper, crate::proofs::Rounds::round_lower, crate::proofs::Rounds::round_less))]
fn walk_round(
    ram: &[u8; limits::RAM_LENGTH],
    ch: u8,
    first: u16,
    y: u32,
) -> ControlFlow<StripLine, u32>
    requires { y < frame_lines }
    ensures { result ≡ round_of ram_pairs ram.now ch first y }
{
    let start = u32::from(first) / 2 % RAM_PAIRS;
    let left = walk_span(ram, ch, start, RAM_PAIRS, y)?;
    walk_span(ram, ch, 0, start, left)
}

// The strip that line y falls in, of those from a descriptor on. While RAM stays put its descriptors come round again, with as many
// lines each time: whole rounds of lines are left out, so two rounds are walked at the most. Where a round has no line there is no strip,
// and the last descriptor of the round stands for it.
#[tactic(auto, using(crate::proofs::Rounds::round_line, crate::proofs::Rounds::round_left, crate::proofs::Rounds::round_in, crate::proofs::Rounds::round_none, crate::proofs::Rounds::falls_round))]
fn falls_in(ram: &[u8; limits::RAM_LENGTH], ch: u8, first: u16, y: u16) -> StripLine
    requires { y < frame_lines }
    ensures { result ≡ falls_in y ram.now ch first y }
{
    let mut left = u32::from(y);
    for _ in 0..2u32 {
        let past = match walk_round(ram, ch, first, left) {
            ControlFlow::Break(line) => return line,
            ControlFlow::Continue(past) => past,
        };
        let lines = left - past;
        if lines == 0 {
            break;
        }
        left = past;
        // no remainder: small processors divide by a call of the compiler's library
        while left >= lines {
            left -= lines;
        }
    }
    line_of(
        pair_at(ram, first as usize + (limits::RAM_LENGTH - 2)),
        left,
    )
}

fn foreground_pixel(low: u8) -> u8
    ensures { result ≡ foreground low }
{
    8 + low / 16 % 8
}

// Is a column of a character foreground?
fn is_foreground(hidden: bool, low: u8, bits: u16, column: u16) -> bool
    requires { column < 12 }
    ensures { result ≡ is_foreground hidden low bits column }
{
    !(hidden && low / 128 % 2 == 1) && (bits >> (11 - column)) % 2 == 1
}

// Is one of a row's first codes, up to the one with this number, the end of line?
#[tactic(auto, using(crate::proofs::Laws::end_here, crate::proofs::Laws::end_at, crate::proofs::Laws::end_on))]
fn ended_by(ram: &[u8; limits::RAM_LENGTH], first: u16, number: u16) -> bool
    ensures { result ≡ ended number ram.now first }
{
    let mut at = first as usize;
    for _ in 0..number {
        if glyph::ends_line(pair_at(ram, at).high) {
            return true;
        }
        at = walk::next_address(at);
    }
    glyph::ends_line(pair_at(ram, at).high)
}

impl<'a> RowIn<'a> {
    // The code of a column, counted from the first character's first pixel.
    fn code(&self, column: u16) -> Pair
        ensures { result ≡ code_of self.now.ram.now self.now.row column }
    {
        pair_at(
            self.ram,
            self.row.address as usize + 2 * (column / 12) as usize,
        )
    }

    // Does a column show foreground?
    #[tactic(auto, using(crate::proofs::Laws::word_shown, crate::proofs::Laws::end_unlit))]
    fn foreground(&self, column: u16) -> bool
        ensures { result ≡ foreground_at self.now.ram.now self.now.font.now self.now.row column }
    {
        let code = self.code(column);
        match glyph::lookup(self.ram, self.font, code.high, self.row.slice) {
            Some(word) => is_foreground(self.row.hidden, code.low, word.bits % 4096, column % 12),
            None => false,
        }
    }

    // The pixel of a background column, by its code's low byte. What stands to its left is looked up only where a shadow can fall.
    fn background(&self, low: u8, column: u16) -> u8
        ensures { result
            ≡ background self.now.row.plain low (beside_at self.now.ram.now self.now.font.now self.now.row column) }
    {
        if low / 8 % 2 == 0 {
            return 8 + low % 8;
        }
        if low / 2 % 2 == 0 {
            return self.row.plain;
        }
        if column == 0 {
            return self.row.plain;
        }
        if self.foreground(column - 1) {
            8
        } else {
            self.row.plain
        }
    }

    // The pixel of a column.
    #[tactic(auto, unfolding(crate::specs::Pixel::row_pixel))]
    fn pixel(&self, column: u16) -> u8
        ensures { result ≡ row_pixel self.now.ram.now self.now.font.now self.now.row column }
    {
        if ended_by(self.ram, self.row.address, column / 12) {
            return self.row.plain;
        }
        let code = self.code(column);
        if self.foreground(column) {
            return foreground_pixel(code.low);
        }
        self.background(code.low, column)
    }
}

// The slice that a line of characters shows.
fn slice_of(ch: u8, at: StripLine) -> Slice
    requires { InStrip at.line (height_of ch) (zoomed_by at.descriptor.high) }
    ensures { result ≡ slice_of ch at }
{
    at.line
        .slice_by_steps(walk::height(ch), walk::zoom(at.descriptor.high))
}

#[tactic(auto, using(crate::proofs::Laws::falls_shown, registers::proofs::Laws::fbk_bound, raster::proofs::Rules::slice_range), unfolding(crate::specs::Pixel::pixel_at))]
fn pixel_at(
    registers: Registers,
    ram: &[u8; limits::RAM_LENGTH],
    font: &[u8; limits::FONT_LENGTH],
    frame: u8,
    x: u16,
    y: u16,
) -> u8
    requires { y < frame_lines }
    ensures { result ≡ pixel_at registers ram.now font.now frame x y }
{
    let settings = registers.settings();
    if !settings.osd {
        return 0;
    }
    let plain = 8 * settings.fbk;
    let at = falls_in(ram, settings.ch, registers.page() as u16 * 64, y);
    let descriptor = at.descriptor;
    if !walk::shows_codes(descriptor.high) {
        return plain;
    }
    let first = raster::first_pixel(settings.dd);
    if x < first {
        return plain;
    }
    let row = RowIn {
        ram,
        font,
        row: Row {
            address: walk::code_address(descriptor.low, descriptor.high),
            slice: slice_of(settings.ch, at),
            plain,
            hidden: raster::hidden(settings.fl, frame),
        },
    };
    row.pixel(x - first)
}

// The pixel at column x of line y, both counted from 0, of a frame of so many lines with this number, by the device's registers alone.
// Refusals 1, 2, 6, then 11.
#[tactic(auto, unfolding(crate::specs::Ask::pixel_verdict, crate::specs::Ask::pixel_by, crate::specs::Ask::ask_pixel))]
pub fn ask(
    device: &Device,
    ram: &[u8],
    font: &[u8],
    lines: u32,
    frame: u32,
    x: u32,
    y: u32,
) -> Result<u8, Refusal>
    ensures { pixel_reply result ≡ ask_pixel device.now.registers ram.now font.now lines frame x y }
{
    if ram.len() != limits::RAM_LENGTH {
        return Err(Refusal::RamLength);
    }
    if font.len() != limits::FONT_LENGTH {
        return Err(Refusal::FontLength);
    }
    if limits::bad_line_count(lines) {
        return Err(Refusal::FrameLines);
    }
    if x >= u32::from(device.width()) || y >= lines {
        return Err(Refusal::PixelRange);
    }
    Ok(pixel_at(
        device.registers,
        buffers::array_of(ram),
        buffers::array_of(font),
        (frame % 64) as u8,
        x as u16,
        y as u16,
    ))
}
