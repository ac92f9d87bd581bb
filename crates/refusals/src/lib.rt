#![tactic(auto)]
// The refusals of document 01's table and of document 02's requests, each with its number.
ghost use Rattle.std.specs.Prelude.{ℕ, ◌≡◌, cond};
ghost use Rattle.refusals.specs.Refusals.{Reply, number_of, refused, file_refused, reply_of};

// Why an event is not acknowledged.
#[derive(Clone, Copy, Debug, PartialEq, Eq)]
pub enum Unheard {
    // 5: a host byte or a fetch while idle
    Idle,
    // 12: an unknown slave address, or any byte or fetch while deaf
    NotAddressed,
    // 13: a host byte while reading
    Reading,
    // 14: a fetch while the device waits for an address or for write data
    Writing,
}

#[derive(Clone, Copy, Debug, PartialEq, Eq)]
pub enum Refusal {
    // 1: the lent RAM is not 1,024 bytes
    RamLength,
    // 2: the font is not 4,608 bytes
    FontLength,
    // 3: the line buffer is shorter than the line
    LineLength,
    // 4: no frame, or all its lines drawn
    NoLine,
    // 5, 12, 13, 14: the event is not acknowledged
    NotAcknowledged(Unheard),
    // 6: frame lines 0 or above 2,048
    FrameLines,
    // 7: bench input not 5,650 bytes
    BenchLength,
    // 8: the cell asked about is 1,024 or above
    CellRange,
    // 9: the feed is shut, or a bad kind shuts it
    FeedShut,
    // 10: the output has less than two bytes for each event that the chunk would complete
    OutputRoom,
    // 11: the pixel asked about lies past the line's last column or the frame's last line
    PixelRange,
}

// The refusals of font files, which no other call gives.
#[derive(Clone, Copy, Debug, PartialEq, Eq)]
pub enum FileRefusal {
    // 15: a font file that is not 5,120 bytes, or the font that goes with it not 4,608
    Length,
    // 16: the checks are wrong in the block at this place
    Checks(u8),
    // 17: the block at this place has another number, used length or padding
    Format(u8),
}

// A refusal in the table's numbers.
pub trait Numbered {
    ghost numbers: { Self → Reply };

    fn number(self) -> u8
        ensures { result ≡ (numbers self).refusal };

    // The number beside it.
    fn value(self) -> u8
        ensures { result ≡ (numbers self).value };
}

impl Numbered for Refusal {
    ghost numbers = { refused };

    fn number(self) -> u8 {
        match self {
            Refusal::RamLength => 1,
            Refusal::FontLength => 2,
            Refusal::LineLength => 3,
            Refusal::NoLine => 4,
            Refusal::NotAcknowledged(why) => why.number(),
            Refusal::FrameLines => 6,
            Refusal::BenchLength => 7,
            Refusal::CellRange => 8,
            Refusal::FeedShut => 9,
            Refusal::OutputRoom => 10,
            Refusal::PixelRange => 11,
        }
    }

    // 255 for the byte of an event that is not acknowledged, else 0.
    fn value(self) -> u8 {
        match self {
            Refusal::NotAcknowledged(_) => 255,
            _ => 0,
        }
    }
}

impl Unheard {
    fn number(self) -> u8
        ensures { result ≡ number_of (Refusal.NotAcknowledged self) }
    {
        match self {
            Unheard::Idle => 5,
            Unheard::NotAddressed => 12,
            Unheard::Reading => 13,
            Unheard::Writing => 14,
        }
    }
}

impl Numbered for FileRefusal {
    ghost numbers = { file_refused };

    fn number(self) -> u8 {
        match self {
            FileRefusal::Length => 15,
            FileRefusal::Checks(_) => 16,
            FileRefusal::Format(_) => 17,
        }
    }

    // The place of the bad block in its file; 0 where the length is wrong.
    fn value(self) -> u8 {
        match self {
            FileRefusal::Length => 0,
            FileRefusal::Checks(place) | FileRefusal::Format(place) => place,
        }
    }
}

// What an accepted call answers, as a number.
pub trait Value {
    ghost own: { Self → ℕ };

    fn own(self) -> u16
        ensures { result ≡ own self };
}

impl Value for () {
    ghost own = { λ _. 0 };

    fn own(self) -> u16 {
        0
    }
}

impl Value for bool {
    ghost own = { λ b. cond b 1 0 };

    fn own(self) -> u16 {
        u16::from(self)
    }
}

impl Value for u8 {
    ghost own = { λ x. x };

    fn own(self) -> u16 {
        u16::from(self)
    }
}

impl Value for u16 {
    ghost own = { λ x. x };

    fn own(self) -> u16 {
        self
    }
}

// The refusal's number in an answer; 0 where the call is accepted.
pub fn refusal_of<T: Value + Copy, E: Numbered + Copy>(answer: Result<T, E>) -> u8
    ensures { result ≡ (reply_of T.own E.numbers answer).refusal }
{
    match answer {
        Ok(_) => 0,
        Err(refusal) => refusal.number(),
    }
}

// The answer's other number.
pub fn value_of<T: Value + Copy, E: Numbered + Copy>(answer: Result<T, E>) -> u16
    ensures { result ≡ (reply_of T.own E.numbers answer).value }
{
    match answer {
        Ok(own) => own.own(),
        Err(refusal) => u16::from(refusal.value()),
    }
}
