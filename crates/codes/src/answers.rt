// What a call says where it is not Ok.
ghost use Rattle.std.specs.Prelude.{◌≡◌};
ghost use Rattle.codes.specs.Answers.{says_refusal, cause_word, high_half, refusal_word};

// What caused 2 or 3: the device's own word, or no status at all. No Option: a refusal that reads
// `IoError(None)` would not say what is missing, and `word` is a method of it.
#[derive(Clone, Copy)]
pub enum Cause {
    NoStatus,
    Status(u32),
}

#[derive(Clone, Copy)]
pub enum Refusal {
    InvalidParam,
    IoError(Cause),
    Unsupported(Cause),
    NoInfo,
    TooMany,
    WrongToken,
    QueueFailed,
    Busy,
    OutOfTurns,
    BadLength,
    Short,
    BadState,
    Full,
    NotYet,
    BadCapture,
}

impl Cause {
    // 0x8000 stands for none: it is ok, and causes no refusal. 0 is a word that a device may write.
    pub fn word(self) -> u32
        ensures { result ≡ cause_word self }
    {
        match self {
            Cause::NoStatus => 0x8000,
            Cause::Status(word) => word,
        }
    }
}

impl Refusal {
    // The number of a refusal. It is no discriminant, since two cases carry a cause.
    pub fn number(self) -> u32
        ensures { result ≡ (says_refusal self).number }
    {
        match self {
            Refusal::InvalidParam => 1,
            Refusal::IoError(_) => 2,
            Refusal::Unsupported(_) => 3,
            Refusal::NoInfo => 4,
            Refusal::TooMany => 5,
            Refusal::WrongToken => 6,
            Refusal::QueueFailed => 7,
            Refusal::Busy => 8,
            Refusal::OutOfTurns => 9,
            Refusal::BadLength => 10,
            Refusal::Short => 11,
            Refusal::BadState => 12,
            Refusal::Full => 15,
            Refusal::NotYet => 16,
            Refusal::BadCapture => 17,
        }
    }

    // The status that 2 and 3 carry, as it stands in the high half of a word.
    fn high_half(self) -> u32
        ensures { result ≡ high_half self }
    {
        match self {
            Refusal::InvalidParam => 0,
            Refusal::IoError(cause) => cause.word(),
            Refusal::Unsupported(cause) => cause.word(),
            Refusal::NoInfo => 0,
            Refusal::TooMany => 0,
            Refusal::WrongToken => 0,
            Refusal::QueueFailed => 0,
            Refusal::Busy => 0,
            Refusal::OutOfTurns => 0,
            Refusal::BadLength => 0,
            Refusal::Short => 0,
            Refusal::BadState => 0,
            Refusal::Full => 0,
            Refusal::NotYet => 0,
            Refusal::BadCapture => 0,
        }
    }

    // The answer at the C boundary: the number, and above it the status.
    pub fn word(self) -> u64
        ensures { result ≡ refusal_word self }
    {
        let number = self.number();
        let high = self.high_half();
        number as u64 + 4294967296 * (high as u64)
    }
}
