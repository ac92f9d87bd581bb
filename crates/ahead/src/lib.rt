#![tactic(auto)]
// What the frame's remaining lines read. The strips are walked once, each in constant time: a strip's row reads the cell as a code
// if it starts closely before it; the rows that show the cell's slice are marked, and then looked through for its user character.
ghost use Rattle.std.specs.Prelude.{IfSome, ◌≡◌, false, ℕ, ◌+◌, ◌*◌, ◌≤◌, ◌<◌};
ghost use Rattle.limits.specs.Limits.{ram_length, ram_pairs};
ghost use Rattle.buffers.specs.Buffers.{Bytes};
ghost use Rattle.cells.specs.Reading.{cells, among};
ghost use Rattle.walk.specs.Walk.{lines_left, in_plain_rest};
ghost use Rattle.ahead.specs.Ahead.{remaining};
ghost use Rattle.ahead.specs.Looking.{user_reads, Starts, Far, Marks, ZerosOf, Lowest, NextRow, OwnCodes};

pub use question::Sought;
use registers::Settings;
use std::ops::ControlFlow;
use walk::{Strip, Walk};

mod question;

// The search for a cell. Its steps break where they find it.
#[derive(Drop)]
struct Search<'a> {
    ram: &'a [u8; limits::RAM_LENGTH],
    sought: Sought,
    // the rows that show the cell's slice, by a bit each
    marks: [u32; 16],
    // only rows that start fewer codes before the cell can read it as a code
    near: u16,
    ghost bytes: { Bytes ram.now },
    ghost far: { Far ram.now sought near },
}

// Back from the cell's pair, up to a code that ends a line: rows that start there read the cell.
#[tactic(auto, using(crate::proofs::Rows::starts_at))]
fn starts(ram: &[u8; limits::RAM_LENGTH], n: u16, cell: u16) -> u16
    requires { cell < ram_length }
    ensures { Starts ram.now cell n result }
{
    let own = cell as usize / 2;
    for m in 1..=n {
        let p = (own + (limits::RAM_PAIRS - 1) * m as usize) % limits::RAM_PAIRS;
        if glyph::ends_line(ram[2 * p + 1]) {
            return m;
        }
    }
    n
}

// Marks the row at an address.
#[tactic(auto, using(crate::proofs::Marks::marks_row))]
fn mark(marks: &mut [u32; 16], address: u16)
    ensures { Marks marks.old address marks.new }
{
    let p = address as usize / 2 % limits::RAM_PAIRS;
    marks[p / 32] |= 1u32 << (p % 32) as u32;
}

// Do the codes of a row, n at the most, show the cell's user character?
#[tactic(auto, using(crate::proofs::Marks::user_ends, crate::proofs::Marks::user_shows, crate::proofs::Marks::user_on, crate::proofs::Marks::user_none))]
fn user_reads(ram: &[u8; limits::RAM_LENGTH], row: usize, n: usize, cell: u16) -> bool
    requires { (row < ram_pairs) × (cell < ram_length) }
    ensures { result ≡ user_reads ram.now cell n (2 * row) }
{
    let user = glyph::user_high(cell);
    let mut p = row;
    for _ in 0..n {
        let high = ram[2 * p + 1];
        if glyph::ends_line(high) {
            return false;
        }
        if high == user {
            return true;
        }
        p = (p + 1) % limits::RAM_PAIRS;
    }
    false
}

// The zeros at the low end of a word, as far as they were passed, and the word without them. They are passed by halves: the kit's
// count of them is compiled into a table on RISC-V, and a port has no data of its own.
#[derive(Clone, Copy)]
pub struct Passed {
    pub zeros: usize,
    pub rest: u32,
}

// Passes h zeros, if there are as many.
#[tactic(auto, using(crate::proofs::Marks::zeros_passed))]
fn pass_zeros(low: Passed, h: u32) -> Passed
    requires { (low.zeros ≤ 32) × (h ≤ 16) }
    ensures { (result.zeros ≤ low.zeros + h) × ((x : ℕ) → ZerosOf x (h + h) low → ZerosOf x h result) }
{
    let rest = low.rest >> h;
    if rest << h == low.rest {
        return Passed {
            zeros: low.zeros + h as usize,
            rest,
        };
    }
    low
}

// The place of the lowest bit that is set, where it is one of the first eight that are left.
#[tactic(auto, using(crate::proofs::Marks::all_zeros))]
fn lowest_of_8(low: Passed) -> usize
    requires { low.zeros ≤ 24 }
    ensures { (x : ℕ) → ZerosOf x 8 low → Lowest x result }
{
    let by_4 = pass_zeros(low, 4);
    let by_2 = pass_zeros(by_4, 2);
    let by_1 = pass_zeros(by_2, 1);
    by_1.zeros
}

// The place of the lowest bit that is set. Where many rows are marked it is mostly near.
fn lowest(x: u32) -> usize
    requires { x ≡ 0 → ⊥ }
    ensures { Lowest x result }
{
    let low = Passed { zeros: 0, rest: x };
    if x % 256 != 0 {
        return lowest_of_8(low);
    }
    let by_16 = pass_zeros(low, 16);
    lowest_of_8(pass_zeros(by_16, 8))
}

// The first marked row from a row on.
#[tactic(auto, using(crate::proofs::Marks::word_none))]
fn next_row(marks: &[u32; 16], from: usize) -> Option<usize>
    requires { from ≤ ram_pairs }
    ensures { NextRow marks.now from result }
{
    for i in from / 32..16 {
        let first = from.max(32 * i);
        let rest = marks[i] >> (first % 32) as u32;
        if rest != 0 {
            return Some(first + lowest(rest));
        }
    }
    None
}

// A row is looked through up to the next marked one, which sees the rest.
fn own_codes(n: usize, row: usize, next: Option<usize>) -> usize
    requires { IfSome next (λ p. row ≤ p) }
    ensures { OwnCodes n row next result }
{
    match next {
        Some(next) => n.min(next - row),
        None => n,
    }
}

impl<'a> Search<'a> {
    ghost use Rattle.ahead.specs.Search.{marked_read, row_read, strip_read, whole_read, lines_read, frame_read, Adds};

    // The row at an address: it reads the cell as a code, or is marked where it shows the cell's slice. Only a row that starts near
    // the cell is reason to look back from there.
    #[tactic(auto, using(crate::proofs::Looks::far_starts, crate::proofs::Looks::row_found, crate::proofs::Looks::row_far, crate::proofs::Looks::row_marked))]
    fn look_row(&mut self, address: u16, shown: bool) -> ControlFlow<()>
        ensures { Adds self.old self.new (row_read self.old shown address) result }
    {
        let start = address as usize / 2 % limits::RAM_PAIRS;
        let back = (self.sought.cell as usize / 2 + limits::RAM_PAIRS - start) % limits::RAM_PAIRS;
        if back < self.near as usize {
            self.near = starts(self.ram, self.sought.codes, self.sought.cell);
            if back < self.near as usize {
                return ControlFlow::Break(());
            }
        }
        if shown {
            mark(&mut self.marks, address);
        }
        ControlFlow::Continue(())
    }

    // The next k lines of a strip.
    #[tactic(auto, using(crate::proofs::Lines::strip_none, crate::proofs::Lines::strip_spacing, crate::proofs::Lines::strip_disabled, crate::proofs::Looks::none_adds, crate::proofs::Looks::strip_shown))]
    fn look_strip(&mut self, strip: Strip, k: u16) -> ControlFlow<()>
        requires { k ≤ lines_left strip }
        ensures { Adds self.old self.new (strip_read self.old k strip) result }
    {
        if k == 0 {
            return ControlFlow::Continue(());
        }
        match strip {
            Strip::Characters {
                address,
                height,
                zoom,
                enabled,
                line,
            } if enabled => {
                let shown = question::user_shown(line, k, height, zoom, self.sought.cell);
                self.look_row(address, shown)
            }
            _ => ControlFlow::Continue(()),
        }
    }

    // The strip of a descriptor, of which all lines are shown.
    #[tactic(auto, using(crate::proofs::Looks::none_adds, crate::proofs::Looks::whole_dark, crate::proofs::Looks::whole_shown))]
    fn look_whole(&mut self, low: u8, high: u8) -> ControlFlow<()>
        ensures { Adds self.old self.new (whole_read self.old low high) result }
    {
        if walk::shows_codes(high) {
            return self.look_row(walk::code_address(low, high), self.sought.whole);
        }
        ControlFlow::Continue(())
    }

    // The lines from a descriptor on. Descriptors, passed over or not, go round all of RAM, so within 512 they meet the cell or the
    // frame's end.
    #[tactic(auto, using(crate::proofs::Looks::sum_start, crate::proofs::Looks::lines_here, crate::proofs::Looks::lines_last, crate::proofs::Looks::lines_over))]
    fn look_lines(&mut self, all: u16, descriptor: u16) -> ControlFlow<()>
        ensures { Adds self.old self.new (lines_read self.old all descriptor) result }
    {
        let own = self.sought.cell as usize / 2;
        let mut p = descriptor as usize / 2 % limits::RAM_PAIRS;
        let mut left = all;
        while left > 0 {
            if own == p {
                return ControlFlow::Break(());
            }
            let low = self.ram[2 * p];
            let high = self.ram[2 * p + 1];
            let lines = walk::descriptor_lines(self.sought.settings.ch, low, high);
            if left < lines {
                let strip = Strip::of_descriptor(self.sought.settings.ch, low, high);
                return self.look_strip(strip, left);
            }
            self.look_whole(low, high)?;
            left -= lines;
            p = (p + 1) % limits::RAM_PAIRS;
        }
        ControlFlow::Continue(())
    }

    // The remaining lines, outside the plain rest.
    fn look_frame(&mut self, left: u16, walk: Walk) -> ControlFlow<()>
        requires { in_plain_rest walk ≡ false }
        ensures { Adds self.old self.new (frame_read self.old left walk) result }
    {
        let k = walk.strip.lines_left().min(left);
        self.look_strip(walk.strip, k)?;
        self.look_lines(left - k, walk.descriptor)
    }

    // Does one of the marked rows show the cell's user character?
    #[tactic(auto, using(crate::proofs::Marks::ahead_first, crate::proofs::Marks::ahead_next, crate::proofs::Marks::row_shows))]
    fn any_row(&self) -> bool
        ensures { result ≡ marked_read self.now }
    {
        let mut next = next_row(&self.marks, 0);
        while let Some(row) = next {
            next = next_row(&self.marks, row + 1);
            let own = own_codes(usize::from(self.sought.codes), row, next);
            if user_reads(self.ram, row, own, self.sought.cell) {
                return true;
            }
        }
        false
    }
}

// Do the frame's remaining lines read the cell?
#[tactic(auto, using(crate::proofs::Lines::plain_unread, crate::proofs::Looks::far_all, crate::proofs::Looks::found_read, crate::proofs::Looks::marked_rest, crate::proofs::Marks::no_row))]
pub fn reads(
    ram: &[u8; limits::RAM_LENGTH],
    settings: Settings,
    left: u16,
    walk: Walk,
    cell: u16,
) -> bool
    requires { cell < ram_length }
    ensures { result ≡ among cell (cells ram.now (remaining settings left walk)) }
{
    if walk.in_plain_rest() {
        return false;
    }
    let sought = Sought::new(settings, cell);
    let mut search = Search {
        ram,
        sought,
        marks: [0; 16],
        near: sought.codes,
    };
    search.look_frame(left, walk).is_break() || search.any_row()
}
