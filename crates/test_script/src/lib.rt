#![tactic(auto)]
// What the test programs share: steps of a script, calls on a device, parts of what is lent, noise and digests, and what is printed.
ghost use Rattle.std.specs.Prelude.{◌≡◌, ◌<◌, length, take, ◌%◌, ◌++◌, ◌∷◌, [], OnOk, OnErr};
ghost use Rattle.std.specs.Io.KnownBytes.{Appends};
ghost use Rattle.streams.specs.Streams.{AppendsPart};
ghost use Rattle.std.specs.Fmt.{decimal};
ghost use Rattle.test_script.specs.Script.{step_at, outcome_of, made, length_of, next_of, noise_of, mixed, digits_of};

use bus::Event;
use device::Device;
use refusals::Refusal;
use std::io;
use std::io::Write;

#[derive(Clone, Copy, Debug, PartialEq, Eq)]
pub struct Step {
    pub kind: u8,
    pub a: u8,
    pub b: u8,
    pub c: u8,
}

// What a host asks of a device, apart from lines.
#[derive(Clone, Copy, Debug, PartialEq, Eq)]
pub enum Call {
    Hear(Event),
    Start(u32),
    Ask(u32),
    Reset,
}

// Numbers one after the other, each made of the one before: times factor, plus more, modulo last + 1.
#[derive(Clone, Copy, Debug, PartialEq, Eq)]
pub struct Numbers {
    pub factor: u32,
    pub more: u32,
    pub last: u32,
}

// ---- scripts

// Step i of a script of four bytes a step; kind 255 where there is none.
pub fn step_at(script: &[u8], i: usize) -> Step
    ensures { result ≡ step_at script.now i }
{
    if i < script.len() / 4 {
        return Step {
            kind: script[4 * i],
            a: script[4 * i + 1],
            b: script[4 * i + 2],
            c: script[4 * i + 3],
        };
    }
    Step {
        kind: 255,
        a: 0,
        b: 0,
        c: 0,
    }
}

// ---- calls

// Answers the byte of an event, 1 for yes, else 0.
#[tactic(auto, unfolding(crate::specs::Script::made))]
pub fn make(device: &mut Device, ram: &mut [u8], call: Call) -> Result<u16, Refusal>
    ensures { outcome_of device.new ram.new result ≡ made device.old ram.old call }
{
    match call {
        Call::Hear(event) => device.hear(ram, event).map(u16::from),
        Call::Start(lines) => device.start_frame(lines).map(|()| 0),
        Call::Ask(cell) => device.ask(ram, cell).map(u16::from),
        Call::Reset => {
            device.reset();
            Ok(0)
        }
    }
}

// ---- parts of what is lent

// The first n bytes, or as many of them as there are.
pub fn first(bytes: &[u8], n: usize) -> &[u8]
    ensures { result.now ≡ take n bytes.now }
{
    &bytes[..n.min(bytes.len())]
}

pub fn first_mut(bytes: &mut [u8], n: usize) -> &mut [u8]
    ensures { result.now ≡ take n bytes.old }
{
    let end = n.min(bytes.len());
    &mut bytes[..end]
}

// How much of a buffer a script lends: all of it, nothing, one byte less or one byte more.
pub fn length(own: u16, choice: u8) -> u16
    requires own_nonzero { 0 < own }
    requires own_bound { own < 65535 }
    ensures { result ≡ length_of own choice }
{
    match choice {
        0 => own,
        1 => 0,
        2 => own - 1,
        _ => own + 1,
    }
}

// ---- noise and digests

// The next number, with a value added: a digest's next state.
#[tactic(auto, unfolding(crate::specs::Script::next_of))]
pub fn mix(sum: u64, value: u16, by: Numbers) -> u64
    ensures { result ≡ next_of sum value by }
{
    let modulus = u64::from(by.last) + 1;
    (sum % modulus * u64::from(by.factor) + (u64::from(value) + u64::from(by.more))) % modulus
}

pub fn mix_all(sum: u64, bytes: &[u8], by: Numbers) -> u64
    ensures { result ≡ mixed sum bytes.now by }
{
    let mut now = sum;
    for byte in bytes {
        now = mix(now, u16::from(*byte), by);
    }
    now
}

// Fills the bytes with noise: of each number after the seed, the byte at a unit.
pub fn noise(bytes: &mut [u8], seed: u64, by: Numbers, unit: u64)
    requires { 0 < unit }
    ensures { bytes.new ≡ noise_of (length bytes.old) seed by unit }
{
    let mut now = seed;
    for byte in bytes.iter_mut() {
        now = mix(now, 0, by);
        *byte = (now / unit % 256) as u8;
    }
}

// ---- what is printed

// The last hexadecimal digits of a number, as many as there is room for.
pub fn hex_digits(number: u64, out: &mut [u8])
    ensures { out.new ≡ digits_of (length out.old) number }
{
    let mut rest = number;
    for i in (0..out.len()).rev() {
        out[i] = buffers::hex_digit((rest % 16) as u8);
        rest /= 16;
    }
}

// Prints the last hexadecimal digits of a number, and the byte behind them.
pub fn print_hex<W: Write>(out: &mut W, number: u64, places: u8, behind: u8) -> io::Result<()>
    ensures ok { OnOk result (Appends (W.contents out.old) (W.contents out.new) (digits_of (places % 17) number ++ behind ∷ [])) }
    ensures err { OnErr result (AppendsPart (W.contents out.old) (W.contents out.new) (digits_of (places % 17) number ++ behind ∷ [])) }
{
    let mut text = [behind; 17];
    let n = (places % 17) as usize;
    hex_digits(number, &mut text[..n]);
    streams::write_all(out, &text[..n + 1])
}

// Prints a number in decimal, and the byte behind it.
pub fn print_decimal<W: Write>(out: &mut W, number: u64, behind: u8) -> io::Result<()>
    ensures { OnOk result (Appends (W.contents out.old) (W.contents out.new) (decimal number ++ behind ∷ [])) }
{
    streams::write_decimal(out, number)?;
    out.write_all(&[behind])
}
