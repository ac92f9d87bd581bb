#![tactic(auto)]
// Feeds scripted bus traffic to a device and prints every answer. Standard input: two bytes a step. Kinds 0 to 3 are start, host
// byte, fetch and stop; kind 4 says how much RAM is lent from then on (0: 1,024 bytes; 1: none; 2: 1,023; 3: 1,025).
// The stored output comes from tests/model.py, which was written from documents 01 and 02 and not from this code
// (tests/test_bus.py has the script).
use bus::Event;
use device::Device;
use refusals::Refusal;
use std::io;
use std::io::Write;

// A step, by its kind.
#[derive(Clone, Copy)]
enum Step {
    Hear(Event),
    // the choice of test_script::length
    Lend(u8),
    Nothing,
}

impl From<[u8; 2]> for Step {
    fn from(bytes: [u8; 2]) -> Step {
        let [kind, byte] = bytes;
        match kind {
            0..=3 => Step::Hear(Event::of_kind(kind, byte)),
            4 => Step::Lend(byte),
            _ => Step::Nothing,
        }
    }
}

fn main(rt: HostRuntime) -> io::Result<()> {
    let mut script = [0u8; 8192];
    let n = streams::read_full(&mut rt.stdin(), &mut script)?;
    let mut ram = [0u8; 1025];
    run(&mut rt.stdout(), &script[..n], &mut ram)
}

fn run<W: Write>(out: &mut W, script: &[u8], ram: &mut [u8]) -> io::Result<()> {
    let mut device = Device::fresh();
    let mut lent = 1024;
    let (steps, _) = script.as_chunks::<2>();
    for &step in steps {
        match Step::from(step) {
            Step::Hear(event) => {
                let lent = test_script::first_mut(ram, usize::from(lent));
                show(out, event, device.hear(lent, event))?;
            }
            Step::Lend(choice) => lent = test_script::length(1024, choice),
            Step::Nothing => {}
        }
    }
    Ok(())
}

// The event, the refusal's number in decimal and the byte.
fn show<W: Write>(out: &mut W, event: Event, answer: Result<u8, Refusal>) -> io::Result<()> {
    show_event(out, event)?;
    out.write_all(b": ")?;
    test_script::print_decimal(out, u64::from(refusals::refusal_of(answer)), b' ')?;
    test_script::print_hex(out, u64::from(refusals::value_of(answer)), 2, b'\n')
}

fn show_event<W: Write>(out: &mut W, event: Event) -> io::Result<()> {
    match event {
        Event::Start => out.write_all(b"start"),
        Event::Byte(byte) => {
            let mut text = *b"byte 00";
            test_script::hex_digits(u64::from(byte), &mut text[5..]);
            out.write_all(&text)
        }
        Event::Fetch => out.write_all(b"fetch"),
        Event::Stop => out.write_all(b"stop"),
    }
}
