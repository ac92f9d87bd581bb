#![tactic(auto)]
// Shows a picture as text: reads a binary PPM as `demo` writes it, and prints a Braille character for every 4 columns of 8 lines. A dot
// stands for one pixel of every second column and line, and is set where the pixel is bright enough; how bright differs from dot to
// dot, so that grey shows as some of them.
ghost use Rattle.std.specs.Prelude.{◌≡◌, ◌+◌, ◌*◌, ◌≤◌, ◌<◌, length, IfSome};
ghost use Rattle.limits.specs.Limits.{line_max};
ghost use Rattle.preview.specs.Preview.{digit, number, four_bytes, size_of, brightness, dot, dots, upper, cell, braille};

use std::io;
use std::io::{Read, Write};

#[derive(Clone, Copy, Debug, PartialEq, Eq)]
pub struct Size {
    pub width: usize,
    pub height: usize,
}

fn main(rt: HostRuntime) -> io::Result<()> {
    let mut heading = [0u8; 15];
    let mut input = rt.stdin();
    let mut out = rt.stdout();
    streams::read_full(&mut input, &mut heading)?;
    match size_of(&heading) {
        Some(size) => show(&mut input, &mut out, size),
        None => out.write_all(
            b"preview: not a PPM of at most 768 x 999 with sizes in three digits\n",
        ),
    }
}

// A row of characters for each band of eight lines, up to where the picture ends early.
fn show<R: Read, W: Write>(input: &mut R, out: &mut W, size: Size) -> io::Result<()>
    requires { size.width ≤ line_max }
{
    let mut space = [0u8; 24 * limits::LINE_MAX];
    let n = 24 * size.width;
    for _ in 0..size.height / 8 {
        let band = &mut space[..n];
        if streams::read_full(input, band)? < n {
            return out.write_all(b"preview: the picture is cut short\n");
        }
        show_row(out, band, size.width)?;
    }
    Ok(())
}

fn show_row<W: Write>(out: &mut W, band: &[u8], width: usize) -> io::Result<()>
    requires { 24 * width ≤ length band.now }
{
    // by columns, since a character's dots lie in four lines of the band
    for column in 0..width / 4 {
        out.write_all(&braille_of(cell_at(band, 12 * column, 3 * width)))?;
    }
    out.write_all(b"\n")
}

// The size in a heading; none where the picture is not shown.
#[tactic(auto, unfolding(crate::specs::Preview::size_of, crate::specs::Preview::shown))]
fn size_of(heading: &[u8; 15]) -> Option<Size>
    ensures value { result ≡ size_of heading.now }
    ensures width_le_line_max { IfSome result (λ size. size.width ≤ line_max) }
{
    if four_bytes(heading[0], heading[1], heading[2], heading[6]) != u32::from_be_bytes(*b"P6\n ") {
        return None;
    }
    if four_bytes(heading[10], heading[11], heading[12], heading[13])
        != u32::from_be_bytes(*b"\n255")
    {
        return None;
    }
    let width = number_of(heading[3], heading[4], heading[5])?;
    let height = number_of(heading[7], heading[8], heading[9])?;
    if width == 0 || width > limits::LINE_MAX {
        return None;
    }
    Some(Size { width, height })
}

fn four_bytes(a: u8, b: u8, c: u8, d: u8) -> u32
    ensures { result ≡ four_bytes a b c d }
{
    u32::from_be_bytes([a, b, c, d])
}

fn number_of(a: u8, b: u8, c: u8) -> Option<usize>
    ensures value { result ≡ number a b c }
    ensures upper_bound { IfSome result (λ n. n < 1000) }
{
    Some(100 * digit_of(a)? + 10 * digit_of(b)? + digit_of(c)?)
}

fn digit_of(b: u8) -> Option<usize>
    ensures value { result ≡ digit b }
    ensures upper_bound { IfSome result (λ n. n < 10) }
{
    match b {
        b'0'..=b'9' => Some(usize::from(b - b'0')),
        _ => None,
    }
}

fn brightness_at(band: &[u8], at: usize) -> usize
    requires { at + 2 < length band.now }
    ensures { result ≡ brightness band.now at }
{
    (2 * usize::from(band[at]) + 5 * usize::from(band[at + 1]) + usize::from(band[at + 2])) / 8
}

// The weight of a dot where its pixel is at least so bright, else 0.
#[tactic(auto, unfolding(crate::specs::Preview::dot))]
fn dot_at(band: &[u8], at: usize, least: usize, weight: usize) -> usize
    requires { at + 2 < length band.now }
    ensures value { result ≡ dot band.now at least weight }
    ensures upper_bound { result ≤ weight }
{
    if brightness_at(band, at) < least {
        return 0;
    }
    weight
}

// The two dots of a line.
fn dots_at(band: &[u8], at: usize, left: usize, right: usize, weight: usize) -> usize
    requires { (at + 8 < length band.now) × (weight ≤ 4) }
    ensures value { result ≡ dots band.now at left right weight }
    ensures upper_bound { result ≤ 9 * weight }
{
    dot_at(band, at, left, weight) + dot_at(band, at + 6, right, 8 * weight)
}

fn upper_at(band: &[u8], at: usize, pitch: usize) -> usize
    requires { at + 4 * pitch + 8 < length band.now }
    ensures value { result ≡ upper band.now at pitch }
    ensures upper_bound { result ≤ 63 }
{
    let first = dots_at(band, at, 64, 160, 1);
    let second = dots_at(band, at + 2 * pitch, 208, 112, 2);
    first + second + dots_at(band, at + 4 * pitch, 88, 184, 4)
}

// The eight dots of a character; a line has pitch bytes.
fn cell_at(band: &[u8], at: usize, pitch: usize) -> usize
    requires { at + 6 * pitch + 8 < length band.now }
    ensures value { result ≡ cell band.now at pitch }
    ensures upper_bound { result < 256 }
{
    let low = at + 6 * pitch;
    let left = dot_at(band, low, 232, 64);
    let right = dot_at(band, low + 6, 136, 128);
    upper_at(band, at, pitch) + (left + right)
}

fn braille_of(n: usize) -> [u8; 3]
    requires { n < 256 }
    ensures { result ≡ braille n }
{
    [226, 160 + (n / 64) as u8, 128 + (n % 64) as u8]
}
