#![tactic(auto)]
// The pixels of a character: what a code's low byte draws with, and its twelve columns, four at a time.
ghost use Rattle.std.specs.Prelude.{◌≡◌, ◌++◌, cond, ◌/◌, ◌%◌, ◌≤◌, ◌<◌, length, take};
ghost use Rattle.paint.specs.Pixels.{takes_shadow};
ghost use Rattle.paint.specs.Tables.{IsPlain, tabulate, facing, casting, fores, backs, shows, row_table, of_pixel, paint_of, solid, shadowed, four_of, column_pixels, CharacterDrawn};

// What a code draws four columns with: a byte for a column.
#[derive(Clone, Copy, Debug, PartialEq, Eq)]
pub struct Paint {
    // background
    pub back: u32,
    // what turns it into foreground, by exclusive or
    pub fore: u32,
    // the bits that are shown
    pub kept: u32,
}

// Twelve columns, four in a number, the leftmost in its lowest byte.
#[derive(Clone, Copy, Debug, PartialEq, Eq)]
pub struct Fours {
    pub left: u32,
    pub middle: u32,
    pub right: u32,
}

// A character as it is drawn: the bits that it shows, PX11 to PX0, and its twelve columns.
#[derive(Clone, Copy, Debug, PartialEq, Eq)]
pub struct Drawn {
    pub bits: u32,
    pub columns: Fours,
}

// Four pixels of a colour, FBLK 1.
const BLACK: u32 = 0x08080808;

const BLUE: u32 = 0x09090909;

const GREEN: u32 = 0x0A0A0A0A;

const CYAN: u32 = 0x0B0B0B0B;

const RED: u32 = 0x0C0C0C0C;

const MAGENTA: u32 = 0x0D0D0D0D;

const YELLOW: u32 = 0x0E0E0E0E;

const WHITE: u32 = 0x0F0F0F0F;

fn of_pixel(pixel: u8) -> u32
    ensures { result ≡ of_pixel pixel }
{
    u32::from(pixel) * 0x01010101
}

fn bits_kept(hidden: bool) -> u32
    ensures { result ≡ cond hidden 0 4095 }
{
    if hidden { 0 } else { 4095 }
}

// What a row makes once and lends to its characters: a table used in place would be made again for each. What it is made for stands beside it.
#[derive(Clone, Copy)]
pub struct RowTable {
    // for an index of five bits, the column to the left and then the four: masks of foreground, and shadow, black where it falls
    pub masks: [u32; 32],
    pub shadows: [u32; 32],
    // four pixels each, foreground for each FL, RF, GF, BF and background for each BK
    pub fore: [u32; 16],
    pub back: [u32; 16],
    // the bits that are shown for each FL, RF, GF, BF
    pub shown: [u32; 16],
    pub plain: u8,
    pub hidden: bool,
    ghost masks_are: { masks ≡ tabulate facing 0 32 },
    ghost shadows_are: { shadows ≡ tabulate casting 0 32 },
    ghost fore_is: { fore ≡ tabulate fores 0 16 },
    ghost back_is: { back ≡ tabulate (backs plain) 0 16 },
    ghost shown_are: { shown ≡ tabulate (shows hidden) 0 16 },
}

impl RowTable {
    pub fn new(plain: u8, hidden: bool) -> RowTable
        ensures words { (result.masks ++ result.shadows) ++ (result.fore ++ (result.back ++ result.shown)) ≡ row_table plain hidden }
        ensures plain { result.plain ≡ plain }
        ensures hidden { result.hidden ≡ hidden }
    {
        let p = of_pixel(plain);
        let a = bits_kept(false);
        let h = bits_kept(hidden);
        RowTable {
            masks: [
                0x00000000, 0xFF000000, 0x00FF0000, 0xFFFF0000, 0x0000FF00, 0xFF00FF00, 0x00FFFF00,
                0xFFFFFF00, 0x000000FF, 0xFF0000FF, 0x00FF00FF, 0xFFFF00FF, 0x0000FFFF, 0xFF00FFFF,
                0x00FFFFFF, 0xFFFFFFFF, 0x00000000, 0xFF000000, 0x00FF0000, 0xFFFF0000, 0x0000FF00,
                0xFF00FF00, 0x00FFFF00, 0xFFFFFF00, 0x000000FF, 0xFF0000FF, 0x00FF00FF, 0xFFFF00FF,
                0x0000FFFF, 0xFF00FFFF, 0x00FFFFFF, 0xFFFFFFFF,
            ],
            shadows: [
                0x00000000, 0x00000000, 0x08000000, 0x00000000, 0x00080000, 0x00080000, 0x08000000,
                0x00000000, 0x00000800, 0x00000800, 0x08000800, 0x00000800, 0x00080000, 0x00080000,
                0x08000000, 0x00000000, 0x00000008, 0x00000008, 0x08000008, 0x00000008, 0x00080008,
                0x00080008, 0x08000008, 0x00000008, 0x00000800, 0x00000800, 0x08000800, 0x00000800,
                0x00080000, 0x00080000, 0x08000000, 0x00000000,
            ],
            fore: [
                BLACK, BLUE, GREEN, CYAN, RED, MAGENTA, YELLOW, WHITE, BLACK, BLUE, GREEN, CYAN,
                RED, MAGENTA, YELLOW, WHITE,
            ],
            back: [
                BLACK, BLUE, GREEN, CYAN, RED, MAGENTA, YELLOW, WHITE, p, p, p, p, p, p, p, p,
            ],
            shown: [a, a, a, a, a, a, a, a, h, h, h, h, h, h, h, h],
            plain,
            hidden,
        }
    }

    // What a code's low byte draws with.
    fn paint_of(&self, low: u8) -> Paint
        ensures { result ≡ paint_of self.now.plain self.now.hidden low }
    {
        let back = self.back[(low % 16) as usize];
        let high = (low / 16) as usize;
        Paint {
            back,
            fore: back ^ self.fore[high],
            kept: self.shown[high],
        }
    }

    // Four columns of an index, with no shadow.
    fn solid(&self, paint: Paint, i: usize) -> u32
        requires { i < 32 }
        ensures { result ≡ solid paint i }
    {
        paint.back ^ (self.masks[i] & paint.fore)
    }

    // Four columns of an index, with their shadow: black over plain is black.
    fn shadowed(&self, paint: Paint, i: usize) -> u32
        requires { i < 32 }
        ensures { result ≡ shadowed paint i }
    {
        self.solid(paint, i) | self.shadows[i]
    }

    // The character of a code's low byte and of the low twelve bits of its glyph's word, after the bits that the character to its left shows:
    // their last goes above the twelve.
    pub fn character(&self, low: u8, before: u32, word: u32) -> Drawn
        requires plain { IsPlain self.now.plain }
        ensures { CharacterDrawn self.now.plain self.now.hidden low before (word % 4096) result }
    {
        let paint = self.paint_of(low);
        let bits = word & paint.kept;
        if takes_shadow(low) {
            let seamed = bits + before % 2 * 4096;
            return Drawn {
                bits,
                columns: in_fours(seamed, |i| self.shadowed(paint, i)),
            };
        }
        Drawn {
            bits,
            columns: in_fours(bits, |i| self.solid(paint, i)),
        }
    }
}

// Twelve columns, four at a time, by what draws four of an index; an index overlaps the one before by a bit.
fn in_fours<F: Fn(usize) -> u32>(bits: u32, four: F) -> Fours
    requires bound { bits < 8192 }
    requires draws { (i : _) → i < 32 → F.pre four i }
    ensures left { F.post four (bits / 256) result.left }
    ensures middle { F.post four (bits / 16 % 32) result.middle }
    ensures right { F.post four (bits % 32) result.right }
{
    Fours {
        left: four((bits / 256) as usize),
        middle: four((bits / 16 % 32) as usize),
        right: four((bits % 32) as usize),
    }
}

// Is a code's character shadowed: BK3 and BK1?
fn takes_shadow(low: u8) -> bool
    ensures { result ≡ takes_shadow low }
{
    low / 8 % 2 != 0 && low / 2 % 2 != 0
}

// Four pixels: stores of consecutive bytes of one number, which the compiler makes one store. (The ports carry no `copy_from_slice`.)
fn put_four(out: &mut [u8], pixels: u32)
    requires { length out.old ≡ 4 }
    ensures { out.new ≡ four_of pixels }
{
    let [a, b, c, d] = pixels.to_le_bytes();
    out[0] = a;
    out[1] = b;
    out[2] = c;
    out[3] = d;
}

// All twelve columns.
pub fn put_twelve(out: &mut [u8], columns: Fours)
    requires { length out.old ≡ 12 }
    ensures { out.new ≡ column_pixels columns }
{
    put_four(&mut out[0..4], columns.left);
    put_four(&mut out[4..8], columns.middle);
    put_four(&mut out[8..12], columns.right);
}

// As many of the bytes as there is room for. The test in the loop keeps the compiler from calling memcpy.
fn copy_cut(out: &mut [u8], whole: &[u8; 12])
    requires { length out.old ≤ 12 }
    ensures { out.new ≡ take (length out.old) whole.now }
{
    for (i, column) in whole.iter().enumerate() {
        if i < out.len() {
            out[i] = *column;
        }
    }
}

// The columns that there is room for. At most one character of a line is cut: apart from a row's loop, this takes none of its registers.
#[inline(never)]
pub fn put_cut(out: &mut [u8], columns: Fours)
    requires { length out.old ≤ 12 }
    ensures { out.new ≡ take (length out.old) (column_pixels columns) }
{
    let mut whole = [0u8; 12];
    put_twelve(&mut whole, columns);
    copy_cut(out, &whole);
}
