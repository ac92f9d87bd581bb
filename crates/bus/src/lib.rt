#![tactic(auto)]
// The two-wire bus: what an event does to the bus, the registers and the lent RAM, and how it is answered.
ghost use Rattle.std.specs.Prelude.{◌≡◌, length};
ghost use Rattle.limits.specs.Limits.{ram_length};
ghost use Rattle.bus.specs.Bus.{fresh_bus, fresh_ram, event_of, next_address, goes, ignores, steps, slave, byte_at, fetch_at, step, registers_with, ram_with, byte_in, bus_event, bus_reply};

use refusals::{Refusal, Unheard};
use registers::Registers;

// Kinds of events by their numbers. Above the last there is none.
pub const START: u8 = 0;

pub const HOST_BYTE: u8 = 1;

pub const FETCH: u8 = 2;

pub const STOP: u8 = 3;

#[derive(Clone, Copy, Debug, PartialEq, Eq)]
pub enum Event {
    Start,
    Byte(u8),
    Fetch,
    Stop,
}

// What the bus waits for.
#[derive(Clone, Copy, Debug, PartialEq, Eq)]
pub enum BusState {
    // a start
    Idle,
    // a start or a stop: the slave address was another's
    Deaf,
    // the slave address
    Slave,
    // the high byte of the internal address
    High,
    // the low byte; the high byte is held
    Low(u8),
    // data to store
    Write,
    // fetches
    Read,
}

#[derive(Clone, Copy)]
pub struct Bus {
    pub state: BusState,
    pub counter: u16,
}

// What an event asks of the cells.
#[derive(Clone, Copy)]
pub enum Effect {
    // acknowledged, and no cell is asked for
    Acknowledge,
    // not acknowledged, and why
    Ignore(Unheard),
    // a byte goes to an address
    Store(u16, u8),
    // the byte at an address is the answer
    Load(u16),
}

#[derive(Clone, Copy)]
pub struct Step {
    pub bus: Bus,
    pub effect: Effect,
}

impl Event {
    // The event of a number: 0 start, 1 a byte from the host, 2 a fetch, else stop.
    pub fn of_kind(kind: u8, byte: u8) -> Event
        ensures { result ≡ event_of kind byte }
    {
        match kind {
            0 => Event::Start,
            1 => Event::Byte(byte),
            2 => Event::Fetch,
            _ => Event::Stop,
        }
    }
}

// The RAM of a fresh device, to be lent to bus and drawing.
pub fn fresh_ram() -> [u8; limits::RAM_LENGTH]
    ensures { result ≡ fresh_ram }
{
    [0; limits::RAM_LENGTH]
}

impl Bus {
    pub fn fresh() -> Bus
        ensures { result ≡ fresh_bus }
    {
        Bus {
            state: BusState::Idle,
            counter: 0,
        }
    }

    // The bus part of an event, apart from registers and RAM, so that only these few bytes go in and out by value.
    #[tactic(auto, unfolding(crate::specs::Bus::step))]
    pub fn take(self, event: Event) -> Step
        ensures { result ≡ step self event }
    {
        match event {
            Event::Start => self.goes_to(BusState::Slave, Effect::Acknowledge),
            Event::Byte(x) => self.take_byte(x),
            Event::Fetch => self.take_fetch(),
            Event::Stop => self.goes_to(BusState::Idle, Effect::Acknowledge),
        }
    }

    fn goes_to(self, state: BusState, effect: Effect) -> Step
        ensures { result ≡ goes self state effect }
    {
        Step {
            bus: Bus { state, ..self },
            effect,
        }
    }

    fn ignores(self, why: Unheard) -> Step
        ensures { result ≡ ignores self why }
    {
        self.goes_to(self.state, Effect::Ignore(why))
    }

    fn steps_on(self, effect: Effect) -> Step
        ensures { result ≡ steps self effect }
    {
        Step {
            bus: Bus {
                counter: next_address(self.counter),
                ..self
            },
            effect,
        }
    }

    fn take_byte(self, x: u8) -> Step
        ensures { result ≡ byte_at self.state self x }
    {
        match self.state {
            BusState::Idle => self.ignores(Unheard::Idle),
            BusState::Deaf => self.ignores(Unheard::NotAddressed),
            BusState::Slave => self.take_slave(x),
            BusState::High => self.goes_to(BusState::Low(x), Effect::Acknowledge),
            BusState::Low(high) => Step {
                bus: Bus {
                    state: BusState::Write,
                    counter: u16::from_le_bytes([x, high % 64]),
                },
                effect: Effect::Acknowledge,
            },
            BusState::Write => self.steps_on(Effect::Store(
                self.counter % limits::ADDRESS_SPACE,
                x,
            )),
            BusState::Read => self.ignores(Unheard::Reading),
        }
    }

    fn take_slave(self, x: u8) -> Step
        ensures { result ≡ slave self x }
    {
        match x {
            0xBA => self.goes_to(BusState::High, Effect::Acknowledge),
            0xBB => self.goes_to(BusState::Read, Effect::Acknowledge),
            _ => self.goes_to(BusState::Deaf, Effect::Ignore(Unheard::NotAddressed)),
        }
    }

    fn take_fetch(self) -> Step
        ensures { result ≡ fetch_at self.state self }
    {
        match self.state {
            BusState::Idle => self.ignores(Unheard::Idle),
            BusState::Deaf => self.ignores(Unheard::NotAddressed),
            BusState::Slave => self.ignores(Unheard::Writing),
            BusState::High | BusState::Low(_) | BusState::Write => self.ignores(Unheard::Writing),
            BusState::Read => self.steps_on(Effect::Load(self.counter % limits::ADDRESS_SPACE)),
        }
    }
}

// The address after another: after 3FFF comes 0000. The remainder comes first, so that the sum fits.
pub fn next_address(a: u16) -> u16
    ensures { result ≡ next_address a }
{
    (a % limits::ADDRESS_SPACE + 1) % limits::ADDRESS_SPACE
}

// One bus event, on the whole of what it can touch; the byte on the bus where it is acknowledged. Refusals in the order 1; then 5, 12, 13 or 14.
#[tactic(auto, unfolding(crate::specs::Bus::bus_event, crate::specs::Bus::taken, crate::specs::Bus::registers_with, crate::specs::Bus::ram_with, crate::specs::Bus::answer_to))]
pub fn hear(
    bus: &mut Bus,
    registers: &mut Registers,
    ram: &mut [u8],
    event: Event,
) -> Result<u8, Refusal>
    ensures { record { bus = bus.new; registers = registers.new; ram = ram.new; reply = bus_reply result } ≡ bus_event bus.old registers.old ram.old event }
{
    if ram.len() != limits::RAM_LENGTH {
        return Err(Refusal::RamLength);
    }
    let step = bus.take(event);
    *bus = step.bus;
    match step.effect {
        Effect::Acknowledge => Ok(0),
        Effect::Ignore(why) => Err(Refusal::NotAcknowledged(why)),
        Effect::Store(address, x) => {
            *registers = store(*registers, ram, address, x);
            Ok(0)
        }
        Effect::Load(address) => Ok(load(*registers, ram, address)),
    }
}

// A byte to an address: a RAM cell, a register, or nothing.
#[tactic(auto, unfolding(crate::specs::Bus::registers_with, crate::specs::Bus::ram_with))]
fn store(registers: Registers, ram: &mut [u8], address: u16, x: u8) -> Registers
    requires { length ram.old ≡ ram_length }
    ensures registers { result ≡ registers_with (Effect.Store address x) registers }
    ensures ram { ram.new ≡ ram_with (Effect.Store address x) ram.old }
{
    if address < limits::RAM_END {
        ram[address as usize] = x;
        return registers;
    }
    if address >= limits::FIRST_REGISTER {
        return registers.store((address - limits::FIRST_REGISTER) as usize, x);
    }
    registers
}

// The byte at an address: a RAM cell's, a register's, or 0.
fn load(registers: Registers, ram: &[u8], address: u16) -> u8
    requires { length ram.now ≡ ram_length }
    ensures { result ≡ byte_in address registers ram.now }
{
    if address < limits::RAM_END {
        return ram[address as usize];
    }
    if address >= limits::FIRST_REGISTER {
        return registers.fetch((address - limits::FIRST_REGISTER) as usize);
    }
    0
}
