#![tactic(auto)]
// The bench: from its input to a device, RAM and font, or to a refusal; and the texts that it prints.
ghost use Rattle.std.specs.Prelude.{◌≡◌, map, ◌+◌, ◌-◌, ◌≤◌, length, take, drop};
ghost use Rattle.buffers.specs.Buffers.{hex_digit};
ghost use Rattle.report.specs.Report.{input_length, ram_part, font_part, bench_device, bench_start, start_outcome, places_of, digits, decimal, Put, refusal_text, heading_text, line_text, write_text, text_outcome, next_text, line_outcome};

use device::Device;
use refusals::Refusal;
use registers::Registers;

// Where the parts of the input behind the RAM begin, and how long it is.
const REGISTERS_FROM: usize = limits::RAM_LENGTH;

const FONT_FROM: usize = REGISTERS_FROM + 16;

const COUNT_AT: usize = FONT_FROM + limits::FONT_LENGTH;

pub const INPUT_LENGTH: usize = COUNT_AT + 2;

// Why no frame is started, and the device that `bench_start` gives all the same: a fresh one for a bad length, else the input's.
#[derive(Clone, Copy)]
pub struct BenchRefusal {
    pub refusal: Refusal,
    pub device: Device,
}

// The bytes from start to end, or as many of them as there are.
fn part(input: &[u8], start: usize, end: usize) -> &[u8]
    requires { start ≤ end }
    ensures { result.now ≡ take (end - start) (drop start input.now) }
{
    let end = end.min(input.len());
    &input[start.min(end)..end]
}

pub fn ram_part(input: &[u8]) -> &[u8]
    ensures { result.now ≡ ram_part input.now }
{
    part(input, 0, REGISTERS_FROM)
}

pub fn font_part(input: &[u8]) -> &[u8]
    ensures { result.now ≡ font_part input.now }
{
    part(input, FONT_FROM, COUNT_AT)
}

// The registers' place in the bench's input; test_pixel has its own, for its page: it doesn't stand on the bench's functions.
fn device_of(input: &[u8]) -> Device
    requires { length input.now ≡ input_length }
    ensures { result ≡ bench_device input.now }
{
    Device {
        registers: Registers::load(part(input, REGISTERS_FROM, FONT_FROM)),
        ..Device::fresh()
    }
}

// The device in frame 0, whose lines are those of the input. Refusals 7, then 6.
pub fn begin(input: &[u8]) -> Result<Device, BenchRefusal>
    ensures { start_outcome result ≡ bench_start input.now }
{
    if input.len() != INPUT_LENGTH {
        return Err(BenchRefusal {
            refusal: Refusal::BenchLength,
            device: Device::fresh(),
        });
    }
    let lines = u32::from(buffers::word_at(input, COUNT_AT));
    let mut device = device_of(input);
    match device.start_frame(lines) {
        Ok(()) => Ok(device),
        Err(refusal) => Err(BenchRefusal { refusal, device }),
    }
}

// How many decimal digits a number has.
fn places(number: u16) -> usize
    ensures value { result ≡ places_of number }
    ensures upper_bound { result ≤ 5 }
{
    match number {
        0..=9 => 1,
        10..=99 => 2,
        100..=999 => 3,
        1000..=9999 => 4,
        _ => 5,
    }
}

// An index, since nothing is known of what a `zip` over `iter_mut` has written.
fn copy_pixels(out: &mut [u8], pixels: &[u8])
    requires { length pixels.now ≡ length out.old }
    ensures { out.new ≡ map hex_digit pixels.now }
{
    for i in 0..out.len() {
        out[i] = buffers::hex_digit(pixels[i]);
    }
}

// The last decimal digits of a number, as many as there is room for. In base 10 what `test_script::hex_digits` does in base 16; one function
// for both would stand in `buffers`, which is built for processors too, where to divide 64 bits by a variable calls a library. The law of
// both is one (facts, `back_more`).
fn copy_digits(out: &mut [u8], number: u16)
    ensures { out.new ≡ digits (length out.old) number }
{
    let mut rest = number;
    for i in (0..out.len()).rev() {
        out[i] = b'0' + (rest % 10) as u8;
        rest /= 10;
    }
}

// Each of the next three writes a part of a text at a place and answers the place after it.

fn put_word(out: &mut [u8], at: usize, word: &[u8]) -> usize
    requires { at + length word.now ≤ length out.old }
    ensures { Put word.now (length word.now) at out.old result out.new }
{
    buffers::put(out, at, word);
    at + word.len()
}

fn put_pixels(out: &mut [u8], at: usize, pixels: &[u8]) -> usize
    requires { at + length pixels.now ≤ length out.old }
    ensures { Put (map hex_digit pixels.now) (length pixels.now) at out.old result out.new }
{
    let e = at + pixels.len();
    copy_pixels(&mut out[at..e], pixels);
    e
}

fn put_number(out: &mut [u8], at: usize, number: u16) -> usize
    requires { at + places_of number ≤ length out.old }
    ensures { Put (decimal number) (places_of number) at out.old result out.new }
{
    let e = at + places(number);
    copy_digits(&mut out[at..e], number);
    e
}

// Each text below stands at the start of out, and the answer is its length; where out is too short, it stays, and the answer is None.

pub fn refusal_text(number: u8, out: &mut [u8]) -> Option<usize>
    ensures { text_outcome result out.new ≡ write_text (refusal_text number) out.old }
{
    let n = u16::from(number);
    if out.len() < 9 + places(n) {
        return None;
    }
    let a = put_word(out, 0, b"refused ");
    let b = put_number(out, a, n);
    Some(put_word(out, b, b"\n"))
}

pub fn heading(lines: u16, width: u16, out: &mut [u8]) -> Option<usize>
    ensures { text_outcome result out.new ≡ write_text (heading_text lines width) out.old }
{
    if out.len() < 14 + places(lines) + places(width) {
        return None;
    }
    let a = put_word(out, 0, b"lines ");
    let b = put_number(out, a, lines);
    let c = put_word(out, b, b" width ");
    let d = put_number(out, c, width);
    Some(put_word(out, d, b"\n"))
}

pub fn line_text(pixels: &[u8], cells: u16, out: &mut [u8]) -> Option<usize>
    ensures { text_outcome result out.new ≡ write_text (line_text pixels.now cells) out.old }
{
    if out.len() < pixels.len() + 2 + places(cells) {
        return None;
    }
    let a = put_pixels(out, 0, pixels);
    let b = put_word(out, a, b" ");
    let c = put_number(out, b, cells);
    Some(put_word(out, c, b"\n"))
}

// Draws the frame's next line, in a line buffer of its own, and writes its text. Where the draw is refused, out stays, and the answer is None.
pub fn next_text(device: &mut Device, ram: &[u8], font: &[u8], out: &mut [u8]) -> Option<usize>
    ensures { line_outcome device.new result out.new ≡ next_text device.old ram.now font.now out.old }
{
    let width = usize::from(device.width());
    let mut space = [0u8; limits::LINE_MAX];
    let line = &mut space[..width];
    let Ok(cells) = device.draw_line(ram, font, line) else {
        return None;
    };
    line_text(line, cells, out)
}
