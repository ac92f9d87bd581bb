#![tactic(auto)]
// The sixteen registers, and the settings that a line is drawn by.
ghost use Rattle.std.specs.Prelude.{◌≡◌, length};
ghost use Rattle.registers.specs.Registers.{fresh_registers, loaded, stored, fetched, settings_of, page_of};

#[derive(Clone, Copy, Debug, PartialEq, Eq)]
pub struct Registers {
    pub bytes: [u8; 16],
}

// What a line reads of the registers. Written only by `Registers::settings`.
#[derive(Clone, Copy, Debug, PartialEq, Eq)]
pub struct Settings {
    pub ld: u8,
    pub dd: u8,
    pub ch: u8,
    pub osd: bool,
    pub fbk: u8,
    pub fl: u8,
}

impl Registers {
    pub const RESET: [u8; 16] = [
        0x3F, // 3FF0 VSP, HSP, LD
        0x08, // 3FF1 DD
        0x12, // 3FF2 CH
        0x00, // 3FF3 OSD, FBK, FL, unused, P
        0x22, // 3FF4 FR, AS, BS
        0x33, // 3FF5 AF, BF
        0x28, // 3FF6 PP
        0x0A, // 3FF7 FM
        0x00, // 3FF8 PWM
        0x00, // 3FF9 PWM
        0x00, // 3FFA PWM
        0x00, // 3FFB PWM
        0x00, // 3FFC PWM
        0x00, // 3FFD PWM
        0x00, // 3FFE PWM
        0x00, // 3FFF PWM
    ];

    pub const KEPT: [u8; 16] = [
        0xFF, // 3FF0 VSP, HSP, LD
        0xFF, // 3FF1 DD
        0x3F, // 3FF2 CH
        0xF7, // 3FF3 OSD, FBK, FL, unused, P
        0xF7, // 3FF4 FR, AS, BS
        0x77, // 3FF5 AF, BF
        0xFF, // 3FF6 PP
        0x0F, // 3FF7 FM
        0xFF, // 3FF8 PWM
        0xFF, // 3FF9 PWM
        0xFF, // 3FFA PWM
        0xFF, // 3FFB PWM
        0xFF, // 3FFC PWM
        0xFF, // 3FFD PWM
        0xFF, // 3FFE PWM
        0xFF, // 3FFF PWM
    ];

    pub fn fresh() -> Registers
        ensures { result ≡ fresh_registers }
    {
        Registers { bytes: Self::RESET }
    }

    // All sixteen at once, each stored with its kept bits only.
    pub fn load(bytes: &[u8]) -> Registers
        requires { length bytes.now ≡ 16 }
        ensures { result ≡ loaded bytes.now }
    {
        let mut next = Self::RESET;
        for i in 0..16 {
            next[i] = bytes[i] & Self::KEPT[i];
        }
        Registers { bytes: next }
    }

    // Registers are numbered 0 to 15; a larger number is taken modulo 16.
    pub fn store(self, number: usize, byte: u8) -> Registers
        ensures { result ≡ stored self number byte }
    {
        let i = number % 16;
        let mut bytes = self.bytes;
        bytes[i] = byte & Self::KEPT[i];
        Registers { bytes }
    }

    pub fn fetch(self, number: usize) -> u8
        ensures { result ≡ fetched self number }
    {
        self.bytes[number % 16]
    }

    #[tactic(auto, unfolding(crate::specs::Registers::settings_of))]
    pub fn settings(self) -> Settings
        ensures { result ≡ settings_of self }
    {
        let control = self.bytes[3];
        Settings {
            ld: self.bytes[0] % 64,
            dd: self.bytes[1],
            ch: self.bytes[2] % 64,
            osd: control / 128 % 2 == 1,
            fbk: control / 64 % 2,
            fl: control / 16 % 4,
        }
    }

    // The page address P.
    pub fn page(self) -> u8
        ensures { result ≡ page_of self }
    {
        self.bytes[3] % 8
    }
}
