#![tactic(auto)]
// Draws a picture: feeds a host's bus traffic to a fresh device, draws one frame, mixes each line with a made-up camera's by fast
// blanking, and writes the frame as a binary PPM. Standard input: a font of 4,608 bytes, then two bytes an event, its kind (0 start,
// 1 host byte, 2 fetch, 3 stop) and the byte; 65,536 bytes at the most. Where a kind is bad, a line says so and nothing is drawn.
// The stored input and output come from tests/demo.py, with a sample font of our own drawing (tests/sample_font.txt).
ghost use Rattle.std.specs.Prelude.{◌≡◌, ◌+◌, ◌*◌, ◌/◌, ◌≤◌, length};
ghost use Rattle.limits.specs.Limits.{line_max};
ghost use Rattle.capture.specs.Capture.{chip, feed_reply};
ghost use Rattle.demo.specs.Picture.{input_length, played, end_of, full, mix, mixed, line_outcome, picture_line};

use camera::Colour;
use capture::{Feed, FeedRefusal};
use device::Device;
use std::io;
use std::io::Write;

mod camera;

const INPUT: usize = 65536;

const LINES: usize = 216;

// The traffic ends at an event that has no kind 0 to 3: its number, counted from 1.
#[derive(Clone, Copy, Debug, PartialEq, Eq)]
struct BadKind {
    event: usize,
}

impl From<FeedRefusal> for BadKind {
    ghost from_gives = { λ r b. b ≡ record { event = r.written / 2 + 1 } };

    fn from(refused: FeedRefusal) -> BadKind {
        BadKind {
            event: refused.written / 2 + 1,
        }
    }
}

fn main(rt: HostRuntime) -> io::Result<()> {
    let mut input = [0u8; INPUT];
    let n = streams::read_full(&mut rt.stdin(), &mut input)?;
    run(&mut rt.stdout(), &input[..n])
}

fn run<W: Write>(out: &mut W, input: &[u8]) -> io::Result<()>
    requires { length input.now ≤ input_length }
{
    if input.len() < limits::FONT_LENGTH {
        return out.write_all(b"demo: the input begins with a font of 4608 bytes\n");
    }
    let (font, traffic) = input.split_at(limits::FONT_LENGTH);
    let mut device = Device::fresh();
    let mut ram = bus::fresh_ram();
    if let Err(bad) = play(&mut device, &mut ram, traffic) {
        out.write_all(b"demo: event ")?;
        streams::write_decimal(out, bad.event as u64)?;
        return out.write_all(b" of the traffic has no kind 0 to 3\n");
    }
    let _ = device.start_frame(LINES as u32);
    show(out, &mut device, &ram, font)
}

// Feeds the traffic; half an event at its end is none yet. An event has as many bytes of output as it has itself, so an output as long
// as the longest input has room.
fn play(
    device: &mut Device,
    ram: &mut [u8; limits::RAM_LENGTH],
    traffic: &[u8],
) -> Result<(), BadKind>
    requires { length traffic.now ≤ input_length }
    ensures { record { chip = chip device.new ram.new; traffic = result } ≡ played device.old ram.old traffic.now }
{
    let mut out = [0u8; INPUT];
    let mut feed = Feed::fresh();
    end_of(feed.take(device, ram, traffic, &mut out))
}

// By the answer of a feed that had room.
fn end_of(answer: Result<usize, FeedRefusal>) -> Result<(), BadKind>
    ensures { result ≡ end_of (feed_reply answer) }
{
    answer?;
    Ok(())
}

// The heading of the PPM, then every line.
fn show<W: Write>(out: &mut W, device: &mut Device, ram: &[u8], font: &[u8]) -> io::Result<()> {
    let width = usize::from(device.width());
    out.write_all(b"P6\n")?;
    streams::write_decimal(out, width as u64)?;
    out.write_all(b" 216\n255\n")?;
    let mut line = [0u8; 3 * limits::LINE_MAX];
    for y in 0..LINES {
        picture_line(device, ram, font, y, &mut line);
        out.write_all(&line[..3 * width])?;
    }
    Ok(())
}

// Draws the frame's next line, which is line y of the picture, and mixes it into the first bytes of out. Where the draw is refused, the
// camera's line stands alone.
fn picture_line(device: &mut Device, ram: &[u8], font: &[u8], y: usize, out: &mut [u8])
    requires { 3 * line_max ≤ length out.old }
    ensures { line_outcome device.new out.new ≡ picture_line device.old ram.now font.now y out.old }
{
    let width = usize::from(device.width());
    let mut space = [0u8; limits::LINE_MAX];
    let line = &mut space[..width];
    let _ = device.draw_line(ram, font, line);
    mix_line(line, y, &mut out[..3 * width]);
}

// A line of the overlay over the camera's line y.
fn mix_line(line: &[u8], y: usize, out: &mut [u8])
    requires { length out.old ≡ 3 * length line.now }
    ensures { out.new ≡ mixed y 0 line.now }
{
    for x in 0..line.len() {
        let c = mix_pixel(line[x], camera::pixel(x, y));
        out[3 * x] = c.r;
        out[3 * x + 1] = c.g;
        out[3 * x + 2] = c.b;
    }
}

// Fast blanking picks the overlay's colour or the camera's pixel.
#[tactic(auto, unfolding(crate::specs::Picture::mix))]
fn mix_pixel(pixel: u8, behind: Colour) -> Colour
    ensures { result ≡ mix pixel behind }
{
    if pixel / 8 % 2 == 1 {
        Colour {
            r: part(pixel / 4),
            g: part(pixel / 2),
            b: part(pixel),
        }
    } else {
        behind
    }
}

// 255 where the lowest bit is set.
fn part(bit: u8) -> u8
    ensures { result ≡ full bit }
{
    255 * (bit % 2)
}
