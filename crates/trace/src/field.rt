// What a trace is made of, and what is said of one.
ghost use Rattle.std.specs.Prelude.{◌≡◌};
ghost use Rattle.trace.specs.Private.{error_at};

use turns::Track;

// One field of a trace: tag 1, length 2, contents.
#[derive(Clone, Copy)]
pub enum Field {
    Start {
        stream: u32,
        total: u32,
        period: u32,
    },
    Submitted {
        slot: u8,
        offset: u32,
        len: u32,
    },
    Completed {
        slot: u8,
        status: u32,
    },
    End {
        answer: u8,
    },
}

// Where a judge stands in a trace: no turn was run yet; a submission was the last field; a good
// completion was; a bad one was; the end was.
#[derive(Clone, Copy)]
pub enum Stage {
    Opening,
    Out,
    Back,
    Failed,
    Over,
}

// Where a judge stands in a trace, and the transfer's track there.
#[derive(Clone, Copy)]
pub struct State {
    pub stage: Stage,
    pub track: Track,
}

// Why a trace is not accepted: 18 or 19, with its offset.
#[derive(Clone, Copy)]
pub enum TraceError {
    BadTrace { at: usize },
    NotARun { at: usize },
}

// What is said of a trace: it is accepted, or why it is not.
pub type Judgement = Result<(), TraceError>;

impl TraceError {
    // The offset that it tells.
    pub(crate) fn at(self) -> usize
        ensures { result ≡ error_at self }
    {
        match self {
            TraceError::BadTrace { at } | TraceError::NotARun { at } => at,
        }
    }
}
