#![tactic(auto, unfolding(crate::specs::Walk::walk_from, crate::specs::Walk::strip_of, crate::specs::Walk::over, crate::specs::Walk::lines_left, crate::specs::Walk::advanced))]
// The walk of a frame over its descriptors: which strip is on screen, and which of its lines.
ghost use Rattle.std.specs.Prelude.{◌≡◌, false, IfSome};
ghost use Rattle.limits.specs.Limits.{ram_pairs};
ghost use Rattle.walk.specs.Walk.{even, next, walk_from, is_spacing, enabled_by, zoomed_by, codes_at, passed_over, height_of, shows_codes, strip_of, over, lines_left, advanced, walk_at, plain_rest, in_plain_rest, walked, begins_at};
ghost use Rattle.walk.specs.declared.Strip.TheVariants.{Spacing};

use raster::ScanLine;

// The strip on screen. One with no line left gives way at the next line: to the next strip, or to the plain rest of the frame.
#[derive(Clone, Copy, Debug, PartialEq, Eq)]
pub enum Strip {
    Spacing {
        // lines still to come
        left: u8,
    },
    Characters {
        // where the codes start
        address: u16,
        // CH, taken at the strip's first line
        height: u8,
        // ZY
        zoom: bool,
        // DE
        enabled: bool,
        // the line on screen; 0 before the first
        line: ScanLine,
    },
}

#[derive(Clone, Copy, Debug, PartialEq, Eq)]
pub struct Walk {
    // the address of the next descriptor
    pub descriptor: u16,
    pub strip: Strip,
    // 512 descriptors in a row were passed over: no more are read, and the rest of the frame is plain. Where the strip has a line left
    // it does not count
    pub plain: bool,
}

// The walk at the next line, and how many cells that read.
#[derive(Clone, Copy, Debug, PartialEq, Eq)]
pub struct Walked {
    pub walk: Walk,
    pub cells: u16,
}

// The even address of two bytes of RAM.
pub fn even_address(a: usize) -> usize
    ensures { result ≡ even a }
{
    a / 2 % limits::RAM_PAIRS * 2
}

// The even address of the two bytes after those at an address. The remainder comes first, so that the sum fits.
pub fn next_address(a: usize) -> usize
    ensures { result ≡ next a }
{
    (a % limits::RAM_LENGTH + 2) / 2 % limits::RAM_PAIRS * 2
}

// The high byte of a descriptor: spacing, or characters?
pub fn is_spacing(high: u8) -> bool
    ensures { result ≡ is_spacing high }
{
    high / 128 % 2 == 0
}

// DE
fn enabled(high: u8) -> bool
    ensures { result ≡ enabled_by high }
{
    high / 64 % 2 == 1
}

// ZY
pub fn zoom(high: u8) -> bool
    ensures { result ≡ zoomed_by high }
{
    high / 32 % 2 == 1
}

// Spacing of zero lines.
fn is_passed_over(low: u8, high: u8) -> bool
    ensures { result ≡ passed_over low high }
{
    is_spacing(high) && low == 0
}

// The height of characters, by CH.
pub fn height(ch: u8) -> u8
    ensures { result ≡ height_of ch }
{
    ch.max(1)
}

// Where the codes of a descriptor's strip start: at an even address.
pub fn code_address(low: u8, high: u8) -> u16
    ensures { result ≡ codes_at low high }
{
    u16::from_le_bytes([low / 2 * 2, high % 4])
}

// Are codes read on the lines of its strip?
pub fn shows_codes(high: u8) -> bool
    ensures { result ≡ shows_codes high }
{
    !is_spacing(high) && enabled(high)
}

// How many lines its strip has.
pub fn descriptor_lines(ch: u8, low: u8, high: u8) -> u16
    ensures { result ≡ lines_left (strip_of ch low high) }
{
    Strip::of_descriptor(ch, low, high).lines_left()
}

// Where the first descriptor lies that begins its strip, from an even address on; nowhere where all 512 are passed over.
fn pass_over(ram: &[u8; limits::RAM_LENGTH], first: usize) -> Option<usize>
    requires { even first ≡ first }
    ensures at { result ≡ begins_at ram_pairs ram.now first }
    ensures paired { IfSome result (λ at. even at ≡ at) }
{
    let mut at = first;
    // counted in 32 bits: in 64 a turn takes 43 instructions on a Cortex-M0 in place of 23
    for _ in 0..limits::RAM_PAIRS as u32 {
        if !is_passed_over(ram[at], ram[at + 1]) {
            return Some(at);
        }
        at = next_address(at);
    }
    None
}

// The same. Mostly it is the first: tested by itself, it keeps the loop from lines that have none to pass over.
#[tactic(auto, using(crate::proofs::Laws::at_here))]
fn begins_at(ram: &[u8; limits::RAM_LENGTH], first: usize) -> Option<usize>
    requires { even first ≡ first }
    ensures at { result ≡ begins_at ram_pairs ram.now first }
    ensures paired { IfSome result (λ at. even at ≡ at) }
{
    if is_passed_over(ram[first], ram[first + 1]) {
        return pass_over(ram, first);
    }
    Some(first)
}

impl Strip {
    // The strip of a descriptor, before its first line.
    pub fn of_descriptor(ch: u8, low: u8, high: u8) -> Strip
        ensures { result ≡ strip_of ch low high }
    {
        if is_spacing(high) {
            return Strip::Spacing { left: low };
        }
        Strip::Characters {
            address: code_address(low, high),
            height: height(ch),
            zoom: zoom(high),
            enabled: enabled(high),
            line: ScanLine::before_first(),
        }
    }

    pub fn is_over(self) -> bool
        ensures { result ≡ over self }
    {
        match self {
            Strip::Spacing { left } => left == 0,
            Strip::Characters {
                height,
                zoom,
                line,
                ..
            } => line.is_last(height, zoom),
        }
    }

    // How many lines the strip has left.
    pub fn lines_left(self) -> u16
        ensures { result ≡ lines_left self }
    {
        match self {
            Strip::Spacing { left } => u16::from(left),
            Strip::Characters {
                height,
                zoom,
                line,
                ..
            } => line.lines_after(height, zoom),
        }
    }

    #[tactic(auto, using(raster::proofs::Laws::last_next), unfolding(crate::specs::Walk::over, crate::specs::Walk::advanced))]
    fn advance(self) -> Strip
        requires { over self ≡ false }
        ensures { result ≡ advanced self }
    {
        match self {
            Strip::Spacing { left } => Strip::Spacing { left: left - 1 },
            Strip::Characters {
                address,
                height,
                zoom,
                enabled,
                line,
            } => Strip::Characters {
                address,
                height,
                zoom,
                enabled,
                line: line.next(),
            },
        }
    }
}

impl Walk {
    // The walk at the start of a page.
    pub fn of_page(page: u8) -> Walk
        ensures { result ≡ walk_from page }
    {
        Walk {
            descriptor: u16::from(page) * 64,
            strip: Strip::Spacing { left: 0 },
            plain: false,
        }
    }

    // The walk where 512 descriptors in a row were passed over.
    fn of_plain_rest(descriptor: u16) -> Walk
        ensures { result ≡ plain_rest descriptor }
    {
        Walk {
            descriptor,
            strip: Strip::Spacing { left: 0 },
            plain: true,
        }
    }

    // The first line of the next strip, or of the plain rest, by the descriptors from an address on. CH is taken here.
    #[tactic(auto, using(crate::proofs::Laws::walked_none, crate::proofs::Laws::walked_strip, crate::proofs::Laws::begins_some))]
    fn begin(ram: &[u8; limits::RAM_LENGTH], ch: u8, descriptor: u16) -> Walked
        ensures { result ≡ walked ram.now ch (walk_at descriptor (Spacing 0)) }
    {
        let first = even_address(usize::from(descriptor));
        let Some(at) = begins_at(ram, first) else {
            return Walked {
                walk: Walk::of_plain_rest(first as u16),
                cells: limits::RAM_LENGTH as u16,
            };
        };
        Walked {
            walk: Walk {
                descriptor: next_address(at) as u16,
                strip: Strip::of_descriptor(ch, ram[at], ram[at + 1]).advance(),
                plain: false,
            },
            cells: ((at + limits::RAM_LENGTH - first) % limits::RAM_LENGTH + 2) as u16,
        }
    }

    pub fn in_plain_rest(self) -> bool
        ensures { result ≡ in_plain_rest self }
    {
        self.plain && self.strip.is_over()
    }

    // The walk at the frame's next line. Descriptors are read where the strip on screen is over.
    #[tactic(auto, using(crate::proofs::Laws::walked_on, crate::proofs::Laws::walked_plain, crate::proofs::Laws::walked_begin))]
    pub fn next_line(self, ram: &[u8; limits::RAM_LENGTH], ch: u8) -> Walked
        ensures { result ≡ walked ram.now ch self }
    {
        if !self.strip.is_over() {
            return Walked {
                walk: Walk {
                    strip: self.strip.advance(),
                    plain: false,
                    ..self
                },
                cells: 0,
            };
        }
        if self.plain {
            return Walked {
                walk: Walk::of_plain_rest(self.descriptor),
                cells: 0,
            };
        }
        Walk::begin(ram, ch, self.descriptor)
    }
}
