#![tactic(auto)]
// Makes the calls of a script on one device and prints what they answer. Standard input: four bytes a step, its kind and a, b, c;
// numbers of several bytes have the high byte first.
//
//  0 bus event a: 0 start, 1 host byte b, 2 fetch, 3 stop
//  1 byte c to address a, b over the bus, from start to stop
//  2 frame start with a, b, c lines
//  3 reset
//  4 RAM cell a, b becomes c; 5 the same of the font
//  6 noise from seed a, b in all of RAM; 7 the same of the font
//  8 every RAM cell becomes c; 9 the same of the font
// 10 from now on draws are lent a, b bytes of line buffer, RAM by the choice c % 4 and font by the choice c / 4 (0: all of it,
//    1: nothing, 2: one byte less, 3: one byte more)
// 11 a, b draws; c says how each is told: 0 the line buffer, 1 its digest, otherwise only in the sum
// 12 prints the sum, and begins a new one
// 13 prints the characters a, b and c
// 14 the cell question about c cells, from a, b on, in a line: of each its refusal, and 1 for yes or 0
//
// Before a draw every byte of its line buffer is 170, which prints as a dot. A refused frame start prints its refusal, and an event
// its refusal and byte where they are not both 0.
// The stored output comes from tests/model.py, which was written from documents 01 and 02 and not from this code
// (tests/test_frames.py has the script).
use bus::Event;
use device::Device;
use refusals::Refusal;
use std::io;
use std::io::Write;
use test_script::{Call, Numbers};

// What a line buffer holds before a draw.
const MARKER: u8 = 170;

const NOISE: Numbers = Numbers {
    factor: 75,
    more: 74,
    last: 65536,
};

const DIGEST: Numbers = Numbers {
    factor: 16777619,
    more: 1,
    last: 4294967290,
};

// A step, by its kind.
#[derive(Clone, Copy)]
enum Action {
    Call(Call),
    // a byte to an address over the bus: the address, high byte first, and the byte
    Write([u8; 3]),
    ChangeRam(Change),
    ChangeFont(Change),
    Lend(Lent),
    Draw(u16, Way),
    TellSum,
    Print([u8; 3]),
    // the first cell, and how many
    Ask(u16, u8),
    Nothing,
}

#[derive(Clone, Copy)]
enum Change {
    // a byte at a place, where there is such a place
    Store(u16, u8),
    // from a seed
    Noise(u16),
    Fill(u8),
}

// How many bytes a draw is lent.
#[derive(Clone, Copy)]
struct Lent {
    line: u16,
    ram: u16,
    font: u16,
}

// How a draw is told.
#[derive(Clone, Copy)]
enum Way {
    Line,
    Digest,
    InSum,
}

impl From<[u8; 4]> for Action {
    fn from(step: [u8; 4]) -> Action {
        let [kind, a, b, c] = step;
        let word = u16::from_be_bytes([a, b]);
        match kind {
            0 => Action::Call(Call::Hear(Event::of_kind(a, b))),
            1 => Action::Write([a, b, c]),
            2 => Action::Call(Call::Start(u32::from_be_bytes([0, a, b, c]))),
            3 => Action::Call(Call::Reset),
            4 => Action::ChangeRam(Change::Store(word, c)),
            5 => Action::ChangeFont(Change::Store(word, c)),
            6 => Action::ChangeRam(Change::Noise(word)),
            7 => Action::ChangeFont(Change::Noise(word)),
            8 => Action::ChangeRam(Change::Fill(c)),
            9 => Action::ChangeFont(Change::Fill(c)),
            10 => Action::Lend(Lent {
                line: word,
                ram: test_script::length(1024, c % 4),
                font: test_script::length(4608, c / 4),
            }),
            11 => Action::Draw(word, Way::from(c)),
            12 => Action::TellSum,
            13 => Action::Print([a, b, c]),
            14 => Action::Ask(word, c),
            _ => Action::Nothing,
        }
    }
}

impl From<u8> for Way {
    fn from(number: u8) -> Way {
        match number {
            0 => Way::Line,
            1 => Way::Digest,
            _ => Way::InSum,
        }
    }
}

// What is kept from step to step.
#[derive(Drop)]
struct Player {
    device: Device,
    ram: [u8; 1024],
    // one byte more than a font has, to be lent too much of it
    font: [u8; 4609],
    lent: Lent,
    sum: u64,
}

fn main(rt: HostRuntime) -> io::Result<()> {
    let mut script = [0u8; 131072];
    let n = streams::read_full(&mut rt.stdin(), &mut script)?;
    run(&mut rt.stdout(), &script[..n])
}

fn run<W: Write>(out: &mut W, script: &[u8]) -> io::Result<()> {
    let mut player = Player {
        device: Device::fresh(),
        ram: bus::fresh_ram(),
        font: [0; 4609],
        lent: Lent {
            line: 1024,
            ram: 1024,
            font: 4608,
        },
        sum: 0,
    };
    let (steps, _) = script.as_chunks::<4>();
    for &step in steps {
        player.take(out, Action::from(step))?;
    }
    Ok(())
}

impl Player {
    fn take<W: Write>(&mut self, out: &mut W, action: Action) -> io::Result<()> {
        match action {
            Action::Call(call) => self.call(out, call)?,
            Action::Write(bytes) => self.write(out, bytes)?,
            Action::ChangeRam(change) => change.make(&mut self.ram),
            Action::ChangeFont(change) => change.make(&mut self.font),
            Action::Lend(lent) => self.lent = lent,
            Action::Draw(times, way) => {
                for _ in 0..times {
                    self.draw(out, way)?;
                }
            }
            Action::TellSum => {
                show_digest(out, self.sum)?;
                self.sum = 0;
            }
            Action::Print(text) => out.write_all(&text)?,
            Action::Ask(from, count) => self.ask(out, from, count)?,
            Action::Nothing => {}
        }
        Ok(())
    }

    fn call<W: Write>(&mut self, out: &mut W, call: Call) -> io::Result<()> {
        let answer = test_script::make(&mut self.device, &mut self.ram, call);
        match (call, answer) {
            (_, Ok(0)) => Ok(()),
            (Call::Start(_), _) => {
                out.write_all(b"start ")?;
                test_script::print_decimal(out, u64::from(refusals::refusal_of(answer)), b'\n')
            }
            _ => {
                out.write_all(b"event ")?;
                show_answer(out, answer, b' ', b'\n')
            }
        }
    }

    fn write<W: Write>(&mut self, out: &mut W, bytes: [u8; 3]) -> io::Result<()> {
        self.call(out, Call::Hear(Event::Start))?;
        self.call(out, Call::Hear(Event::Byte(0xBA)))?;
        for byte in bytes {
            self.call(out, Call::Hear(Event::Byte(byte)))?;
        }
        self.call(out, Call::Hear(Event::Stop))
    }

    // The answers about some cells, in a line.
    fn ask<W: Write>(&mut self, out: &mut W, from: u16, count: u8) -> io::Result<()> {
        if count > 0 {
            out.write_all(b"ask ")?;
        }
        for i in 0..count {
            let cell = u32::from(from) + u32::from(i);
            let answer = test_script::make(&mut self.device, &mut self.ram, Call::Ask(cell));
            let behind = if i + 1 < count { b' ' } else { b'\n' };
            show_answer(out, answer, b':', behind)?;
        }
        Ok(())
    }

    fn draw<W: Write>(&mut self, out: &mut W, way: Way) -> io::Result<()> {
        let mut space = [MARKER; 1024];
        let line = test_script::first_mut(&mut space, usize::from(self.lent.line));
        let ram = lent_ram(&self.ram, &self.font, usize::from(self.lent.ram));
        let font = test_script::first(&self.font, usize::from(self.lent.font));
        let answer = self.device.draw_line(ram, font, line);
        match way {
            Way::Line => {
                spell(line);
                show_answer(out, answer, b' ', b' ')?;
                out.write_all(line)?;
                out.write_all(b"\n")
            }
            Way::Digest => {
                show_answer(out, answer, b' ', b' ')?;
                show_digest(out, test_script::mix_all(0, line, DIGEST))
            }
            Way::InSum => {
                let refusal = u16::from(refusals::refusal_of(answer));
                let head = test_script::mix(self.sum, refusal, DIGEST);
                let head = test_script::mix(head, refusals::value_of(answer), DIGEST);
                self.sum = test_script::mix_all(head, line, DIGEST);
                Ok(())
            }
        }
    }
}

// The two numbers of an answer, and a byte behind each.
fn show_answer<W: Write>(
    out: &mut W,
    answer: Result<u16, Refusal>,
    between: u8,
    behind: u8,
) -> io::Result<()> {
    test_script::print_decimal(out, u64::from(refusals::refusal_of(answer)), between)?;
    test_script::print_decimal(out, u64::from(refusals::value_of(answer)), behind)
}

fn show_digest<W: Write>(out: &mut W, sum: u64) -> io::Result<()> {
    streams::write_hexadecimal(out, sum)?;
    out.write_all(b"\n")
}

// RAM of a length: another one than its own is refused, so the font's bytes serve.
fn lent_ram<'a>(ram: &'a [u8; 1024], font: &'a [u8; 4609], n: usize) -> &'a [u8] {
    if n == ram.len() {
        return ram;
    }
    test_script::first(font, n)
}

// A character for each byte, in its place.
fn spell(line: &mut [u8]) {
    for pixel in line.iter_mut() {
        *pixel = character(*pixel);
    }
}

fn character(pixel: u8) -> u8 {
    match pixel {
        0..=15 => buffers::hex_digit(pixel),
        MARKER => b'.',
        _ => b'?',
    }
}

impl Change {
    fn make(self, bytes: &mut [u8]) {
        match self {
            Change::Store(at, byte) => {
                let at = usize::from(at);
                if at < bytes.len() {
                    bytes[at] = byte;
                }
            }
            Change::Noise(seed) => test_script::noise(bytes, u64::from(seed), NOISE, 1),
            Change::Fill(byte) => bytes.fill(byte),
        }
    }
}
