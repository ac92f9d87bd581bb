#![tactic(auto)]
// The device that a host uses: the record, and the calls on it. Every call takes any record and slices of any length, and refuses.
ghost use Rattle.std.specs.Prelude.{◌≡◌, ◌≤◌};
ghost use Rattle.limits.specs.Limits.{line_max};
ghost use Rattle.bus.specs.Bus.{bus_reply};
ghost use Rattle.device.specs.Device.{fresh_device, hear_event, start_reply, start_frame, line_width, draw_reply, draw_line, cell_reply, ask_cell};

use bus::{Bus, Event};
use refusals::Refusal;
use registers::Registers;
use walk::Walk;

#[derive(Clone, Copy)]
pub struct Frame {
    // lines still to draw; 0: no frame, or all its lines drawn
    pub left: u16,
    // the frame number, 0 to 63
    pub number: u8,
    pub walk: Walk,
}

#[derive(Clone, Copy)]
pub struct Device {
    pub bus: Bus,
    pub registers: Registers,
    pub frame: Frame,
    // the number that the next frame start takes
    pub next: u8,
}

impl Device {
    #[tactic(auto, unfolding(crate::specs::Device::fresh_device))]
    pub fn fresh() -> Device
        ensures { result ≡ fresh_device }
    {
        Device {
            bus: Bus::fresh(),
            registers: Registers::fresh(),
            frame: Frame {
                left: 0,
                number: 0,
                walk: Walk::of_page(0),
            },
            next: 0,
        }
    }

    // RAM is not touched.
    pub fn reset(&mut self)
        ensures { self.new ≡ fresh_device }
    {
        *self = Device::fresh();
    }

    // One bus event; answers the byte on the bus. Refusals 1; then 5, 12, 13 or 14.
    #[tactic(auto, unfolding(crate::specs::Device::hear_event))]
    pub fn hear(&mut self, ram: &mut [u8], event: Event) -> Result<u8, Refusal>
        ensures { record { device = self.new; ram = ram.new; reply = bus_reply result } ≡ hear_event self.old ram.old event }
    {
        bus::hear(&mut self.bus, &mut self.registers, ram, event)
    }

    // Refusal 6.
    #[tactic(auto, unfolding(crate::specs::Device::in_frame, crate::specs::Device::start_frame))]
    pub fn start_frame(&mut self, lines: u32) -> Result<(), Refusal>
        ensures { record { device = self.new; reply = start_reply result } ≡ start_frame self.old lines }
    {
        if limits::bad_line_count(lines) {
            return Err(Refusal::FrameLines);
        }
        self.frame = Frame {
            left: lines as u16,
            number: self.next % 64,
            walk: Walk::of_page(self.registers.page()),
        };
        self.next = (self.next % 64 + 1) % 64;
        Ok(())
    }

    // The width of its lines.
    pub fn width(&self) -> u16
        ensures { (result ≡ line_width self.now) × (result ≤ line_max) }
    {
        raster::width(self.registers.settings().ld)
    }

    // Draws the frame's next line; answers how many RAM cells that read. Refusals 1, 2, 4, then 3.
    #[tactic(auto, unfolding(crate::specs::Device::draw_verdict, crate::specs::Device::draw_by, crate::specs::Device::draw_line))]
    pub fn draw_line(&mut self, ram: &[u8], font: &[u8], line: &mut [u8]) -> Result<u16, Refusal>
        ensures { record { device = self.new; line = line.new; reply = draw_reply result } ≡ draw_line self.old ram.now font.now line.old }
    {
        if ram.len() != limits::RAM_LENGTH {
            return Err(Refusal::RamLength);
        }
        if font.len() != limits::FONT_LENGTH {
            return Err(Refusal::FontLength);
        }
        if self.frame.left == 0 {
            return Err(Refusal::NoLine);
        }
        if line.len() < self.width() as usize {
            return Err(Refusal::LineLength);
        }
        let walked = line::draw(
            line,
            buffers::array_of(ram),
            buffers::array_of(font),
            self.registers,
            self.frame.walk,
            self.frame.number,
        );
        self.frame.left -= 1;
        self.frame.walk = walked.walk;
        Ok(walked.cells)
    }

    // The cell question: do the frame's remaining lines read the cell? Refusals 1, then 8.
    #[tactic(auto, unfolding(crate::specs::Device::cells_left, crate::specs::Device::ask_cell))]
    pub fn ask(&self, ram: &[u8], cell: u32) -> Result<bool, Refusal>
        ensures { cell_reply result ≡ ask_cell self.now ram.now cell }
    {
        if ram.len() != limits::RAM_LENGTH {
            return Err(Refusal::RamLength);
        }
        if cell >= limits::RAM_CELLS {
            return Err(Refusal::CellRange);
        }
        Ok(ahead::reads(
            buffers::array_of(ram),
            self.registers.settings(),
            self.frame.left,
            self.frame.walk,
            cell as u16,
        ))
    }
}
