#![tactic(auto)]
// One scan line: what it reads, and its pixels.
ghost use Rattle.std.specs.Prelude.{◌≡◌, ◌+◌, ◌≤◌, ◌<◌, min, ◌++◌, length, drop, replicate};
ghost use Rattle.limits.specs.Limits.{ram_length, line_max};
ghost use Rattle.buffers.specs.Buffers.{Bytes};
ghost use Rattle.registers.specs.Registers.{settings_of};
ghost use Rattle.raster.specs.Raster.{OnScreen, width_of};
ghost use Rattle.walk.specs.Walk.{OnLine};
ghost use Rattle.paint.specs.Tables.{IsPlain};
ghost use Rattle.line.specs.Promises.{CodeShown, RowDrawn, CharactersDrawn, StripDrawn, LineDrawn};

use paint::{Drawn, RowTable};
use raster::Slice;
use registers::{Registers, Settings};
use walk::{Strip, Walk, Walked};

// What is the same along a row of characters.
#[derive(Clone, Copy, Debug, PartialEq, Eq)]
pub struct Pen {
    pub slice: Slice,
    // the plain pixel
    pub plain: u8,
    // flashing characters are in their hidden time
    pub hidden: bool,
}

// A row of characters: the RAM and the font that it is read from, where its codes start, and what it is drawn with.
#[derive(Clone, Copy)]
struct Row<'a> {
    ram: &'a [u8; limits::RAM_LENGTH],
    font: &'a [u8; limits::FONT_LENGTH],
    address: u16,
    pen: Pen,
    ghost bytes: { Bytes ram.now × Bytes font.now },
    ghost on_screen: { OnScreen pen.slice },
    ghost plain: { IsPlain pen.plain },
}

// A code: how many cells it read, and its character; none where it ends the line.
#[derive(Clone, Copy, Debug, PartialEq, Eq)]
pub struct Coded {
    pub cells: u32,
    pub drawn: Option<Drawn>,
}

// The first w bytes of the line in one pixel.
fn fill_line(out: &mut [u8], w: usize, pixel: u8)
    requires { w ≤ length out.old }
    ensures { out.new ≡ replicate w pixel ++ drop w out.old }
{
    buffers::fill(&mut out[..w], pixel);
}

impl<'a> Row<'a> {
    // The code at an even address, after the bits that the character to its left shows.
    fn code_at(&self, table: &RowTable, at: usize, before: u32) -> Coded
        requires made { (table.now.plain ≡ self.now.pen.plain) × (table.now.hidden ≡ self.now.pen.hidden) }
        requires at_bound { at + 1 < ram_length }
        ensures { CodeShown self.now.ram.now self.now.font.now at self.now.pen before result }
    {
        let low = self.ram[at];
        let Some(word) = glyph::lookup(self.ram, self.font, self.ram[at + 1], self.pen.slice) else {
            return Coded {
                cells: 2,
                drawn: None,
            };
        };
        Coded {
            cells: 2 + word.cells,
            drawn: Some(table.character(low, before, u32::from(word.bits))),
        }
    }

    // Its characters from pixel first up to w, and plain from its end on; answers how many cells it read.
    fn draw(&self, out: &mut [u8], first: usize, w: usize) -> u32
        requires { (first ≤ w) × (w ≤ length out.old) × (w ≤ line_max) }
        ensures { RowDrawn self.now.ram.now self.now.font.now self.now.address self.now.pen first w out.old result out.new }
    {
        let table = RowTable::new(self.pen.plain, self.pen.hidden);
        // small processors divide by a constant in 16 bits and multiply in 32; wider numbers call the run-time library
        let room = (w - first) as u16;
        // characters before this one are whole; at most one, this one, is cut
        let whole = u32::from(room / 12);
        let mut a = walk::even_address(self.address as usize);
        let mut cells: u32 = 0;
        // what the character to the left shows; nothing for the first
        let mut before: u32 = 0;
        for i in 0..u32::from((room + 11) / 12) {
            let x = first + (12 * i) as usize;
            let code = self.code_at(&table, a, before);
            cells += code.cells;
            let Some(drawn) = code.drawn else {
                buffers::fill(&mut out[x..w], self.pen.plain);
                return cells;
            };
            if i == whole {
                paint::put_cut(&mut out[x..w], drawn.columns);
                return cells;
            }
            paint::put_twelve(&mut out[x..x + 12], drawn.columns);
            a = walk::next_address(a);
            before = drawn.bits;
        }
        cells
    }

    // A line of it: plain up to the first character, then the row.
    fn draw_line(&self, out: &mut [u8], first: usize, w: usize) -> u32
        requires { (w ≤ length out.old) × (w ≤ line_max) }
        ensures { CharactersDrawn self.now.ram.now self.now.font.now self.now.address self.now.pen first w out.old result out.new }
    {
        if first < w {
            fill_line(out, first, self.pen.plain);
            return self.draw(out, first, w);
        }
        fill_line(out, w, self.pen.plain);
        0
    }
}

// A line of the strip on screen; answers how many cells its row read.
fn draw_strip(
    out: &mut [u8],
    ram: &[u8; limits::RAM_LENGTH],
    font: &[u8; limits::FONT_LENGTH],
    settings: Settings,
    strip: Strip,
    number: u8,
) -> u32
    requires on_line { OnLine strip }
    requires ld_bound { (settings.ld < 64) × (settings.fbk < 2) × (width_of settings.ld ≤ length out.old) }
    ensures { StripDrawn ram.now font.now settings strip number out.old result out.new }
{
    let w = raster::width(settings.ld) as usize;
    let plain = 8 * settings.fbk;
    if !settings.osd {
        fill_line(out, w, 0);
        return 0;
    }
    match strip {
        Strip::Spacing { .. } => {
            fill_line(out, w, plain);
            0
        }
        Strip::Characters {
            address,
            height,
            zoom,
            enabled,
            line,
        } => {
            if !enabled {
                fill_line(out, w, plain);
                return 0;
            }
            let pen = Pen {
                slice: line.slice(height, zoom),
                plain,
                hidden: raster::hidden(settings.fl, number),
            };
            let row = Row {
                ram,
                font,
                address,
                pen,
            };
            row.draw_line(out, raster::first_pixel(settings.dd) as usize, w)
        }
    }
}

// A count of cells. The bound keeps the compiler from counting a row's cells at 16 bits, which is slower.
fn narrow(cells: u32) -> u16
    ensures { result ≡ min cells 65535 }
{
    cells.min(65535) as u16
}

// The frame's next line, of W bytes; later bytes stay.
pub fn draw(
    out: &mut [u8],
    ram: &[u8; limits::RAM_LENGTH],
    font: &[u8; limits::FONT_LENGTH],
    registers: Registers,
    walk: Walk,
    number: u8,
) -> Walked
    requires registers_in_bounds { width_of (settings_of registers).ld ≤ length out.old }
    ensures { LineDrawn ram.now font.now registers walk number out.old result out.new }
{
    let settings = registers.settings();
    let walked = walk.next_line(ram, settings.ch);
    let read = draw_strip(out, ram, font, settings, walked.walk.strip, number);
    Walked {
        cells: walked.cells + narrow(read),
        ..walked
    }
}
