#![tactic(auto)]
// The geometry of a line: which slice a scan line shows, how wide a line is, where its characters start, and what flashes.
ghost use Rattle.std.specs.Prelude.{◌≡◌, ◌+◌, ◌*◌, ◌/◌, ◌≤◌, ◌<◌};
ghost use Rattle.raster.specs.Raster.{strip_lines, before_first, following, InStrip, is_last, lines_after, HasNext, unzoomed, interpolated, width_of, first_pixel_of, characters_of, hidden_in};
ghost use Rattle.raster.specs.Search.{InCharacter, slice_shown, LinesShown, heights_to};

// A scan line of a strip, counted from 1; 0 before the first.
#[derive(Clone, Copy, Debug, PartialEq, Eq)]
pub struct ScanLine(pub u16);

// A slice of a character, 1 to 18. The search for a cell also asks about number 0, which no line shows.
#[derive(Clone, Copy, Debug, PartialEq, Eq)]
pub struct Slice(pub u8);

// How many whole steps go into a number: fewer than 4, 8, 16 or 18. By comparing and adding doubled steps, as the module's processor
// divides slowly. A step is 2 CH, 510 at the most. Four functions, which one loop over the doublings does not replace: it takes 10.8 ns against
// 7.5 on x86-64, and the ports do not unroll it.
fn steps_below_4(number: u32, step: u32) -> u32
    requires { (number < 4 * step) × (step ≤ 510) }
    ensures { result ≡ number / step }
{
    let mut left = number;
    let mut steps = 0;
    if 2 * step <= left {
        left -= 2 * step;
        steps = 2;
    }
    if step <= left {
        return steps + 1;
    }
    steps
}

fn steps_below_8(number: u32, step: u32) -> u32
    requires { (number < 8 * step) × (step ≤ 510) }
    ensures { result ≡ number / step }
{
    if 4 * step <= number {
        return steps_below_4(number - 4 * step, step) + 4;
    }
    steps_below_4(number, step)
}

fn steps_below_16(number: u32, step: u32) -> u32
    requires { (number < 16 * step) × (step ≤ 510) }
    ensures { result ≡ number / step }
{
    if 8 * step <= number {
        return steps_below_8(number - 8 * step, step) + 8;
    }
    steps_below_8(number, step)
}

fn steps_below_18(number: u32, step: u32) -> u32
    requires { (number < 18 * step) × (step ≤ 510) }
    ensures { result ≡ number / step }
{
    if 16 * step <= number {
        return steps_below_4(number - 16 * step, step) + 16;
    }
    steps_below_16(number, step)
}

// The line counted without zoom: half of it, rounded up. (Here and below no `div_ceil`: it has a branch that traps, which the ports do without.)
fn unzoom(line: u32, zoom: bool) -> u32
    ensures { result ≡ unzoomed zoom line }
{
    if zoom { line / 2 + line % 2 } else { line }
}

// How many scan lines a strip of characters has.
fn strip_lines(height: u8, zoom: bool) -> u16
    ensures { result ≡ strip_lines height zoom }
{
    let lines = u16::from(height);
    if zoom { 2 * lines } else { lines }
}

// Line n of a strip shows this slice, or one above it, where 36 n is so many times CH or more. Every line shows slice 1 or more.
#[tactic(auto, unfolding(crate::specs::Search::heights_to))]
fn heights_to(slice: u16) -> u16
    requires { slice ≤ 19 }
    ensures { result ≡ heights_to slice }
{
    if slice < 2 { 0 } else { 2 * slice - 1 }
}

// The first line of a strip with no zoom that shows this slice, or one above it; 0 for slices 0 and 1. The division is of 16 bits: one of 32
// would be a function of the run-time library on a Cortex-M0.
fn first_line(height: u8, slice: u16) -> u16
    requires { slice ≤ 19 }
    ensures line { result ≡ (heights_to slice * height + 35) / 36 }
    ensures bound { result ≤ 263 }
{
    (heights_to(slice) * u16::from(height) + 35) / 36
}

// Lines of a strip, from one on, up to another.
#[derive(Clone, Copy, Debug, PartialEq, Eq)]
pub struct SliceLines {
    pub from: u16,
    pub to: u16,
}

// The lines of a strip that show a slice: neighbours.
pub fn slice_lines(height: u8, zoom: bool, slice: Slice) -> SliceLines
    requires { InCharacter slice }
    ensures { LinesShown height zoom slice result }
{
    let s = u16::from(slice.0);
    let from = first_line(height, s);
    let to = first_line(height, s + 1);
    if zoom {
        return SliceLines {
            from: (2 * from).saturating_sub(1),
            to: (2 * to).saturating_sub(1),
        };
    }
    SliceLines { from, to }
}

impl ScanLine {
    // Before a strip's first line.
    #[tactic(auto, unfolding(crate::specs::Raster::before_first))]
    pub fn before_first() -> ScanLine
        ensures { result ≡ before_first }
    {
        ScanLine(0)
    }

    // The line after this one.
    #[tactic(auto, unfolding(crate::specs::Raster::following))]
    pub fn next(self) -> ScanLine
        requires { HasNext self }
        ensures { result ≡ following self }
    {
        ScanLine(self.0 + 1)
    }

    // Is it the last line of a strip of characters, or beyond?
    #[tactic(auto, unfolding(crate::specs::Raster::is_last))]
    pub fn is_last(self, height: u8, zoom: bool) -> bool
        ensures { result ≡ is_last self height zoom }
    {
        strip_lines(height, zoom) <= self.0
    }

    // How many lines of the strip are left after it.
    #[tactic(auto, unfolding(crate::specs::Raster::lines_after))]
    pub fn lines_after(self, height: u8, zoom: bool) -> u16
        ensures { result ≡ lines_after self height zoom }
    {
        strip_lines(height, zoom).saturating_sub(self.0)
    }

    // The slice that this line of a strip of characters shows. Steps of 2 CH are counted from where 36 n is CH; there and before it the
    // slice is 1, so that a tall letter has its top line.
    pub fn slice(self, height: u8, zoom: bool) -> Slice
        requires { InStrip self height zoom }
        ensures { result ≡ interpolated self height zoom }
    {
        let n = unzoom(u32::from(self.0), zoom);
        let ch = u32::from(height);
        if 36 * n < ch {
            return Slice(1);
        }
        Slice((steps_below_18(36 * n - ch, 2 * ch) + 1) as u8)
    }

    // The same, one step of 2 CH at a time: the plain way, for one pixel, but for a division, which would be a function of the run-time
    // library on a Cortex-M0. `slice` keeps its one caller, so that the compiler puts it into the drawing of a line.
    pub fn slice_by_steps(self, height: u8, zoom: bool) -> Slice
        requires { InStrip self height zoom }
        ensures { result ≡ interpolated self height zoom }
    {
        let ch = u32::from(height);
        let step = 2 * ch;
        let mut left = 36 * unzoom(u32::from(self.0), zoom) + ch;
        let mut steps: u32 = 0;
        while step <= left {
            left -= step;
            steps += 1;
        }
        Slice(steps.max(1) as u8)
    }

    // Does one of the next lines of the strip, so many, show a slice? The lines that show a slice are neighbours, so the first that
    // could is looked at.
    pub fn shows(self, count: u16, height: u8, zoom: bool, slice: Slice) -> bool
        requires le_count { (1 ≤ count) × (count ≤ lines_after self height zoom) }
        requires in_character { InCharacter slice }
        ensures { result ≡ slice_shown self count height zoom slice }
    {
        let s = u16::from(slice.0);
        let line = u32::from(self.0);
        let n = (unzoom(line + 1, zoom) as u16).max(first_line(height, s));
        let last = unzoom(line + u32::from(count), zoom) as u16;
        n <= last && 36 * n < heights_to(s + 1) * u16::from(height)
    }
}

pub fn width(ld: u8) -> u16
    ensures { result ≡ width_of ld }
{
    12 * (u16::from(ld) + 1)
}

pub fn first_pixel(dd: u8) -> u16
    ensures { result ≡ first_pixel_of dd }
{
    3 * (u16::from(dd.max(4)) + 8)
}

// How many characters there is room to start on a line.
pub fn characters(ld: u8, dd: u8) -> u16
    ensures { result ≡ characters_of ld dd }
{
    (width(ld).saturating_sub(first_pixel(dd)) + 11) / 12
}

// Is a flashing character hidden in this frame?
pub fn hidden(fl: u8, frame: u8) -> bool
    ensures { result ≡ hidden_in fl frame }
{
    match fl {
        0 => false,
        1 => frame >= 32,
        2 => frame >= 16,
        _ => frame >= 48,
    }
}
