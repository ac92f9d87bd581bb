#![tactic(auto)]
// Bus events on the device record's lent bytes, in place: of the record only the bus part and at most one register are read and written.
ghost use Rattle.std.specs.Prelude.{◌≡◌, ◌<◌, length};
ghost use Rattle.limits.specs.Limits.{ram_length, address_space};
ghost use Rattle.bus.specs.declared.BusState.TheVariants.{Write, Read};
ghost use Rattle.bus.specs.declared.Event.TheVariants.{Byte, Fetch};
ghost use Rattle.bus.specs.declared.Effect.TheVariants.{Store};
ghost use Rattle.bus.specs.Bus.{address, next_address, ram_with, byte_in};
ghost use Rattle.layout.specs.Layout.{record_length, state_number, is_deaf, put_bus, state_byte, device_in};
ghost use Rattle.interface.specs.Interface.{ignored_on};
ghost use Rattle.bus_bytes.specs.Steps.{InSpace, step_on, event_on, stored_on};

use bus::{Bus, BusState, Effect, Event, Step};
use refusals::Refusal;
use registers::Registers;

// A byte to an address: a RAM cell, a register in its place, or nothing.
#[tactic(auto, unfolding(bus::specs::Bus::ram_with))]
pub fn store(device: &mut [u8], ram: &mut [u8], address: u16, x: u8)
    requires { (length device.old ≡ record_length) × (length ram.old ≡ ram_length) × (address < address_space) }
    ensures registers { device.new ≡ stored_on address x device.old }
    ensures cells { ram.new ≡ ram_with (Store address x) ram.old }
{
    if address < limits::RAM_END {
        ram[address as usize] = x;
        return;
    }
    if address >= limits::FIRST_REGISTER {
        let i = (address - limits::FIRST_REGISTER) as usize;
        // a copy, so that the ports hold code alone and no table
        let kept = Registers::KEPT;
        device[layout::REGISTERS_AT + i] = x & kept[i];
    }
}

// The byte at an address: a RAM cell's, a register's, or 0.
pub fn load(device: &[u8], ram: &[u8], address: u16) -> u8
    requires { (length device.now ≡ record_length) × (length ram.now ≡ ram_length) × (address < address_space) }
    ensures { result ≡ byte_in address (device_in device.now).registers ram.now }
{
    if address < limits::RAM_END {
        return ram[address as usize];
    }
    if address >= limits::FIRST_REGISTER {
        let i = (address - limits::FIRST_REGISTER) as usize;
        return device[layout::REGISTERS_AT + i];
    }
    0
}

// An event that is not acknowledged writes no byte, unless the device turns deaf.
fn ignore(device: &mut [u8], state: BusState)
    requires { length device.old ≡ record_length }
    ensures { device.new ≡ ignored_on (is_deaf state) device.old }
{
    if layout::state_number(state) == layout::DEAF {
        device[layout::BUS_AT] = layout::DEAF;
    }
}

// What the bus asks of the cells, done in place.
fn apply(device: &mut [u8], ram: &mut [u8], step: Step) -> u32
    requires { (length device.old ≡ record_length) × (length ram.old ≡ ram_length) × InSpace step.effect }
    ensures { record { device = device.new; ram = ram.new; answer = result } ≡ step_on device.old ram.old step }
{
    match step.effect {
        Effect::Acknowledge => {
            layout::write_bus(device, step.bus);
            0
        }
        Effect::Ignore(why) => {
            ignore(device, step.bus.state);
            interface::refuse(Refusal::NotAcknowledged(why))
        }
        Effect::Store(address, x) => {
            layout::write_bus(device, step.bus);
            store(device, ram, address, x);
            0
        }
        Effect::Load(address) => {
            let byte = load(device, ram, address);
            layout::write_bus(device, step.bus);
            u32::from(byte)
        }
    }
}

// The address at the counter, which goes up.
fn count_up(device: &mut [u8], state: BusState) -> u16
    requires { length device.old ≡ record_length }
    ensures address { result ≡ address (device_in device.old).bus }
    ensures bus { device.new ≡ put_bus (record { state = state; counter = next_address result }) device.old }
{
    let address = layout::counter_of(device) % limits::ADDRESS_SPACE;
    let counter = bus::next_address(address);
    layout::write_bus(device, Bus { state, counter });
    address
}

// A data byte: stored at the counter.
pub fn write_next(device: &mut [u8], ram: &mut [u8], x: u8) -> u32
    requires { (length device.old ≡ record_length) × (length ram.old ≡ ram_length) × (state_byte device.old ≡ state_number Write) }
    ensures { record { device = device.new; ram = ram.new; answer = result } ≡ event_on device.old ram.old (Byte x) }
{
    let address = count_up(device, BusState::Write);
    store(device, ram, address, x);
    0
}

// A fetch: the byte at the counter.
pub fn read_next(device: &mut [u8], ram: &mut [u8]) -> u32
    requires { (length device.old ≡ record_length) × (length ram.old ≡ ram_length) × (state_byte device.old ≡ state_number Read) }
    ensures { record { device = device.new; ram = ram.new; answer = result } ≡ event_on device.old ram.old Fetch }
{
    let address = count_up(device, BusState::Read);
    u32::from(load(device, ram, address))
}

// A start or a stop: the bus waits for something else, and the counter stays.
fn go(device: &mut [u8], state: BusState)
    requires { length device.old ≡ record_length }
    ensures { device.new ≡ put_bus (record { state = state; counter = (device_in device.old).bus.counter }) device.old }
{
    let counter = layout::counter_of(device);
    layout::write_bus(device, Bus { state, counter });
}

// Any event. A start and a stop leave the counter and are written at once; the others go by the step of the bus.
pub fn hear(device: &mut [u8], ram: &mut [u8], event: Event) -> u32
    requires { (length device.old ≡ record_length) × (length ram.old ≡ ram_length) }
    ensures { record { device = device.new; ram = ram.new; answer = result } ≡ event_on device.old ram.old event }
{
    match event {
        Event::Start => {
            go(device, BusState::Slave);
            0
        }
        Event::Stop => {
            go(device, BusState::Idle);
            0
        }
        Event::Byte(_) | Event::Fetch => {
            let step = layout::bus_of(device).take(event);
            apply(device, ram, step)
        }
    }
}
