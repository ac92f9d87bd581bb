#![tactic(auto)]
// Plays a script of calls on one device and prints digests of all answers and bitmaps of the cell question. A list of bus events, draws
// and cell questions is played twice from the same device, RAM and font: in its own order, and with its draws and questions first.
// Standard input: four bytes a step, its kind and a, b, c; n is a + 256 b.
//
//  0 start, 1 host byte a, 2 fetch, 3 stop
//  4 start a frame of n lines
//  5 draw into a line buffer of n bytes, each of which is c
//  6 ask about cell n
//  7 n draws into line buffers of 768 bytes, each of which is 170
//  8 ask about cell 1,020 + c, with a RAM of n zeros
//  9 reset
// 10 noise from seed n in all of RAM; 11 the same of the font
// 12 RAM cell n becomes c
// 13 prints the latest answer
// 14 prints the answers about all cells
// 15 prints the digests, and begins new ones
// 16 the next a steps are a list, and the b steps behind them show the state that it leaves: both are played for each order
//
// The stored output comes from tests/model.py, which was written from documents 01 and 02 and not from this code
// (tests/test_pages.py has the script).
ghost use Rattle.std.specs.Prelude.{◌<◌};

use bus::Event;
use device::Device;
use refusals::Refusal;
use std::io;
use std::io::Write;
use test_script::{Call, Numbers, Step};

const NOISE: Numbers = Numbers {
    factor: 1664525,
    more: 1013904223,
    last: 4294967295,
};

const DIGEST: Numbers = Numbers {
    factor: 65599,
    more: 1,
    last: 4294967290,
};

// A step, by its kind.
#[derive(Clone, Copy)]
enum Action {
    Call(Call),
    // how often, into how many bytes, and what these hold
    Draw(u16, u16, u8),
    // about a cell, with a RAM of so many zeros
    AskZeros(u16, u16),
    NoiseInRam(u16),
    NoiseInFont(u16),
    // a byte into a cell, where there is such a cell
    Store(u16, u8),
    TellAnswer,
    TellCells,
    TellDigests,
    // so many steps, and so many behind them that show the state
    List(u8, u8),
    Nothing,
}

impl From<Step> for Action {
    fn from(step: Step) -> Action {
        let Step { kind, a, b, c } = step;
        let n = u16::from_le_bytes([a, b]);
        match kind {
            0..=3 => Action::Call(Call::Hear(Event::of_kind(kind, a))),
            4 => Action::Call(Call::Start(u32::from(n))),
            5 => Action::Draw(1, n, c),
            6 => Action::Call(Call::Ask(u32::from(n))),
            7 => Action::Draw(n, 768, 170),
            8 => Action::AskZeros(1020 + u16::from(c), n),
            9 => Action::Call(Call::Reset),
            10 => Action::NoiseInRam(n),
            11 => Action::NoiseInFont(n),
            12 => Action::Store(n, c),
            13 => Action::TellAnswer,
            14 => Action::TellCells,
            15 => Action::TellDigests,
            16 => Action::List(a, b),
            _ => Action::Nothing,
        }
    }
}

impl Action {
    fn is_event(self) -> bool {
        matches!(self, Action::Call(Call::Hear(_)))
    }
}

// Where a list begins, where it ends, and where what shows its state ends.
#[derive(Clone, Copy)]
struct List {
    from: usize,
    to: usize,
    end: usize,
}

// Digests of the answers, those of draws with their line buffers; and the latest answer.
#[derive(Clone, Copy)]
struct Kept {
    draws: u64,
    asks: u64,
    events: u64,
    latest: Result<u16, Refusal>,
}

// What is kept from step to step.
#[derive(Clone, Copy)]
struct Player {
    device: Device,
    ram: [u8; limits::RAM_LENGTH],
    font: [u8; limits::FONT_LENGTH],
    kept: Kept,
}

fn main(rt: HostRuntime) -> io::Result<()> {
    let mut script = [0u8; 65536];
    let n = streams::read_full(&mut rt.stdin(), &mut script)?;
    run(&mut rt.stdout(), &script[..n])
}

fn run<W: Write>(out: &mut W, script: &[u8]) -> io::Result<()> {
    let mut player = Player {
        device: Device::fresh(),
        ram: bus::fresh_ram(),
        font: [0; limits::FONT_LENGTH],
        kept: Kept::fresh(),
    };
    let steps = script.len() / 4 % 65536;
    let mut i = 0;
    // a `while`, since the steps of a list are passed over
    while i < steps {
        let action = Action::from(test_script::step_at(script, i));
        i += 1;
        if let Action::List(steps, shown) = action {
            let to = i + usize::from(steps);
            let end = to + usize::from(shown);
            player.play(out, script, List { from: i, to, end })?;
            i = end;
        } else {
            player.take(out, action)?;
        }
    }
    Ok(())
}

impl Player {
    // A list in both orders, each from the same device, RAM and font, and what shows the state that it leaves; the digests of both.
    fn play<W: Write>(&mut self, out: &mut W, script: &[u8], list: List) -> io::Result<()> {
        self.kept.clear();
        let mut own = *self;
        own.pass(script, list.from, list.to, |_| true);
        own.show(out, script, list)?;
        let mut other = *self;
        other.pass(script, list.from, list.to, |action| !action.is_event());
        other.pass(script, list.from, list.to, |action| action.is_event());
        other.show(out, script, list)
    }

    fn show<W: Write>(&mut self, out: &mut W, script: &[u8], list: List) -> io::Result<()> {
        self.tell_digests(out)?;
        self.pass(script, list.to, list.end, |_| true);
        self.tell_digests(out)
    }

    // Those steps of a part that are wanted.
    fn pass<F: Fn(Action) -> bool>(&mut self, script: &[u8], from: usize, to: usize, wanted: F)
        requires { F.IsAlwaysCallable wanted }
    {
        for i in from..to {
            // `step_at`, since a list may end behind the script, where there are no steps
            let action = Action::from(test_script::step_at(script, i));
            if wanted(action) {
                self.turn(action);
            }
        }
    }

    fn take<W: Write>(&mut self, out: &mut W, action: Action) -> io::Result<()> {
        match action {
            Action::AskZeros(cell, n) => self.ask_zeros(u32::from(cell), n),
            Action::NoiseInRam(seed) => noise(&mut self.ram, seed),
            Action::NoiseInFont(seed) => noise(&mut self.font, seed),
            Action::Store(cell, byte) => {
                let cell = usize::from(cell);
                if cell < limits::RAM_LENGTH {
                    self.ram[cell] = byte;
                }
            }
            Action::TellAnswer => self.tell_answer(out)?,
            Action::TellCells => self.tell_cells(out)?,
            Action::TellDigests => self.tell_digests(out)?,
            _ => self.turn(action),
        }
        Ok(())
    }

    // The steps that a list may have; others do nothing in it.
    fn turn(&mut self, action: Action) {
        match action {
            Action::Call(call) => {
                let answer = test_script::make(&mut self.device, &mut self.ram, call);
                self.kept.told(call, answer);
            }
            Action::Draw(times, room, fill) => {
                for _ in 0..times {
                    self.draw(usize::from(room), fill);
                }
            }
            _ => {}
        }
    }

    fn draw(&mut self, room: usize, fill: u8) {
        let mut space = [fill; 1024];
        let line = test_script::first_mut(&mut space, room);
        let answer = self.device.draw_line(&self.ram, &self.font, line);
        self.kept.drawn(answer, line);
    }

    fn ask_zeros(&mut self, cell: u32, n: u16) {
        let zeros = [0u8; 1025];
        let answer = self
            .device
            .ask(test_script::first(&zeros, usize::from(n)), cell);
        self.kept.told(Call::Ask(cell), answer.map(u16::from));
    }

    // ---- what is printed

    // The refusal's number, and the byte, the read count or the question's answer.
    fn tell_answer<W: Write>(&self, out: &mut W) -> io::Result<()> {
        let refusal = refusals::refusal_of(self.kept.latest);
        let value = refusals::value_of(self.kept.latest);
        test_script::print_hex(out, u64::from(refusal), 1, b' ')?;
        test_script::print_hex(out, u64::from(value), 3, b'\n')
    }

    // Digests: draws, questions, events, the RAM, the registers. New ones begin.
    fn tell_digests<W: Write>(&mut self, out: &mut W) -> io::Result<()> {
        let registers = test_script::mix_all(1, &self.device.registers.bytes, DIGEST);
        test_script::print_hex(out, self.kept.draws, 8, b' ')?;
        test_script::print_hex(out, self.kept.asks, 8, b' ')?;
        test_script::print_hex(out, self.kept.events, 8, b' ')?;
        let ram = test_script::mix_all(1, &self.ram, DIGEST);
        test_script::print_hex(out, ram, 8, b' ')?;
        test_script::print_hex(out, registers, 8, b'\n')?;
        self.kept.clear();
        Ok(())
    }

    // The answers about cells 0 to 1,023: four lines of 64 digits, each digit four cells.
    fn tell_cells<W: Write>(&self, out: &mut W) -> io::Result<()> {
        let mut text = [b'\n'; 260];
        for i in 0..256 {
            text[i + i / 64] = buffers::hex_digit(self.four(4 * i as u32));
        }
        out.write_all(&text)
    }

    fn four(&self, cell: u32) -> u8 {
        let from = cell % 1024;
        let high = 8 * self.reads(from) + 4 * self.reads(from + 1);
        high + 2 * self.reads(from + 2) + self.reads(from + 3)
    }

    // 1 where the lines that are left read a cell.
    fn reads(&self, cell: u32) -> u8
        ensures { result < 2 }
    {
        u8::from(self.device.ask(&self.ram, cell).unwrap_or(false))
    }
}

fn noise(bytes: &mut [u8], seed: u16) {
    test_script::noise(bytes, u64::from(seed), NOISE, 16777216);
}

fn mix(sum: u64, value: u16) -> u64 {
    test_script::mix(sum, value, DIGEST)
}

impl Kept {
    fn fresh() -> Kept {
        Kept {
            draws: 1,
            asks: 1,
            events: 1,
            latest: Ok(0),
        }
    }

    // New digests; the latest answer stays.
    fn clear(&mut self) {
        *self = Kept {
            latest: self.latest,
            ..Kept::fresh()
        };
    }

    fn told(&mut self, call: Call, answer: Result<u16, Refusal>) {
        let refusal = u16::from(refusals::refusal_of(answer));
        let value = refusals::value_of(answer);
        match call {
            Call::Hear(_) => self.events = mix(mix(self.events, refusal), value),
            Call::Ask(_) => self.asks = mix(mix(self.asks, refusal), value),
            Call::Start(_) | Call::Reset => {}
        }
        self.latest = answer;
    }

    fn drawn(&mut self, answer: Result<u16, Refusal>, line: &[u8]) {
        let refusal = u16::from(refusals::refusal_of(answer));
        let cells = refusals::value_of(answer);
        let head = mix(mix(mix(self.draws, refusal), cells / 256), cells % 256);
        self.draws = test_script::mix_all(head, line, DIGEST);
        self.latest = answer;
    }
}
