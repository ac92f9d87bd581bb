#![tactic(auto)]
// Asks for every pixel of several pages, one by one, and holds each against the line that is drawn; then asks with every fault there is.
// Standard input:
//
//  - one byte, the number of pages
//  - the pages, 5,652 bytes each: 1,024 of RAM, sixteen registers, 4,608 of font, the line count, low byte first, the frame number, and how the
//    page is told: 0 prints each of its lines as asked for, a hexadecimal digit a pixel
//  - then questions of 18 bytes about the last page: how much RAM and how much font is lent (0: all of it, 1: nothing, 2: one byte less, 3: one byte
//    more), and lines, frame number, x and y, four bytes each, low byte first; 400 of them at the most
//
// Prints behind each page its lines, W, digests of all pixels as drawn and as asked for, and how many differ; of each question the refusal and
// the value. The stored output comes from tests/model.py, which was written from documents 01 and 02 and not from this code
// (tests/test_pixel.py makes both).
ghost use Rattle.std.specs.Prelude.{◌≤◌};

use device::Device;
use registers::Registers;
use std::io;
use std::io::Write;
use test_script::Numbers;

// Where the parts of a page lie, and how long a page and a question are.
const REGISTERS: usize = limits::RAM_LENGTH;

const FONT: usize = REGISTERS + 16;

const COUNT: usize = FONT + limits::FONT_LENGTH;

const PAGE: usize = COUNT + 4;

const QUESTION: usize = 18;

const QUESTIONS: usize = 400;

// What stands where no pixel was drawn, and where none was answered: two numbers, so that a refusal by either way shows.
const NOT_DRAWN: u8 = 170;

const NOT_ANSWERED: u8 = 171;

const DIGEST: Numbers = Numbers {
    factor: 16777619,
    more: 1,
    last: 4294967290,
};

// What was counted of a page: digests of what was drawn and asked for, and how many pixels differ.
#[derive(Clone, Copy, Default)]
struct Sums {
    drawn: u64,
    asked: u64,
    differ: u64,
}

fn main(rt: HostRuntime) -> io::Result<()> {
    let mut input = [0u8; 75776];
    let n = streams::read_full(&mut rt.stdin(), &mut input)?;
    run(&mut rt.stdout(), &input[..n])
}

fn run<W: Write>(out: &mut W, input: &[u8]) -> io::Result<()> {
    let Some((pages, rest)) = input.split_first() else {
        return Ok(());
    };
    let pages = usize::from(*pages);
    let (whole, _) = rest.as_chunks::<PAGE>();
    for page in whole.iter().take(pages) {
        show_page(out, page)?;
    }
    if pages > 0 && pages <= whole.len() {
        ask_all(out, &whole[pages - 1], &rest[pages * PAGE..])?;
    }
    Ok(())
}

// ---- a page, by both ways

fn show_page<W: Write>(out: &mut W, page: &[u8; PAGE]) -> io::Result<()> {
    let lines = u16::from_le_bytes([page[COUNT], page[COUNT + 1]]);
    let mut device = device_of(page);
    device.next = page[COUNT + 2];
    let _ = device.start_frame(u32::from(lines));
    show_lines(out, page, &mut device, u32::from(lines))
}

// A device with the page's registers. `report` has its own, private, for the bench's input, on which no page's test stands.
fn device_of(page: &[u8; PAGE]) -> Device {
    Device {
        registers: Registers::load(&page[REGISTERS..FONT]),
        ..Device::fresh()
    }
}

fn show_lines<W: Write>(
    out: &mut W,
    page: &[u8; PAGE],
    device: &mut Device,
    lines: u32,
) -> io::Result<()> {
    let width = usize::from(device.width());
    let mut sums = Sums::default();
    for y in 0..lines {
        let mut drawn = [NOT_DRAWN; limits::LINE_MAX];
        let mut asked = [NOT_ANSWERED; limits::LINE_MAX];
        let _ = device.draw_line(&page[..REGISTERS], &page[FONT..COUNT], &mut drawn);
        ask_line(device, page, lines, y, &mut asked);
        sums.add(
            test_script::first(&drawn, width),
            test_script::first(&asked, width),
        );
        if page[COUNT + 3] == 0 {
            show_line(out, test_script::first_mut(&mut asked, width))?;
        }
    }
    tell(out, lines, width, sums)
}

// Each pixel of a line, as it is asked for.
fn ask_line(
    device: &Device,
    page: &[u8; PAGE],
    lines: u32,
    y: u32,
    asked: &mut [u8; limits::LINE_MAX],
) {
    let number = u32::from(page[COUNT + 2]);
    for (x, pixel) in asked.iter_mut().enumerate() {
        let answer = pixel::ask(
            device,
            &page[..REGISTERS],
            &page[FONT..COUNT],
            lines,
            number,
            x as u32,
            y,
        );
        *pixel = answer.unwrap_or(NOT_ANSWERED);
    }
}

impl Sums {
    // A line, as drawn and as asked for.
    fn add(&mut self, drawn: &[u8], asked: &[u8]) {
        let differ = drawn.iter().zip(asked).filter(|(a, b)| a != b).count();
        self.drawn = test_script::mix_all(self.drawn, drawn, DIGEST);
        self.asked = test_script::mix_all(self.asked, asked, DIGEST);
        self.differ = self.differ.wrapping_add(differ as u64);
    }
}

// A hexadecimal digit a pixel, in its place.
fn show_line<W: Write>(out: &mut W, asked: &mut [u8]) -> io::Result<()> {
    for pixel in asked.iter_mut() {
        *pixel = buffers::hex_digit(*pixel);
    }
    out.write_all(asked)?;
    out.write_all(b"\n")
}

fn tell<W: Write>(out: &mut W, lines: u32, width: usize, sums: Sums) -> io::Result<()> {
    out.write_all(b"lines ")?;
    test_script::print_decimal(out, u64::from(lines), b' ')?;
    out.write_all(b"width ")?;
    test_script::print_decimal(out, width as u64, b' ')?;
    out.write_all(b"drawn ")?;
    streams::write_hexadecimal(out, sums.drawn)?;
    out.write_all(b" asked ")?;
    streams::write_hexadecimal(out, sums.asked)?;
    out.write_all(b" differ ")?;
    test_script::print_decimal(out, sums.differ, b'\n')
}

// ---- questions, refused ones too

fn ask_all<W: Write>(out: &mut W, page: &[u8; PAGE], questions: &[u8]) -> io::Result<()> {
    let device = device_of(page);
    let (questions, _) = questions.as_chunks::<QUESTION>();
    for question in questions.iter().take(QUESTIONS) {
        ask(out, page, &device, question)?;
    }
    Ok(())
}

fn ask<W: Write>(
    out: &mut W,
    page: &[u8; PAGE],
    device: &Device,
    question: &[u8; QUESTION],
) -> io::Result<()> {
    let ram = test_script::length(1024, question[0]);
    let font = test_script::length(4608, question[1]);
    let answer = pixel::ask(
        device,
        test_script::first(page, usize::from(ram)),
        test_script::first(&page[FONT..], usize::from(font)),
        number_at(question, 2),
        number_at(question, 6),
        number_at(question, 10),
        number_at(question, 14),
    );
    test_script::print_decimal(out, u64::from(refusals::refusal_of(answer)), b' ')?;
    test_script::print_decimal(out, u64::from(refusals::value_of(answer)), b'\n')
}

// Four bytes, the low one first.
fn number_at(question: &[u8; QUESTION], at: usize) -> u32
    requires { at ≤ 14 }
{
    u32::from_le_bytes([
        question[at],
        question[at + 1],
        question[at + 2],
        question[at + 3],
    ])
}
