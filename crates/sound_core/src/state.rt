// The core of a state, on which every decision is made: no table is in sight.
ghost use Rattle.std.specs.Prelude.{◌≡◌};
ghost use Rattle.sound_core.specs.State.{new_core};

// A number for each of the three tables.
#[derive(Clone, Copy)]
pub struct Counts {
    pub jacks: u32,
    pub streams: u32,
    pub maps: u32,
}

// What a stream was last set to. `known` is 0 where it never was: a byte and no bool, so that any
// byte of a lent store stands for one state.
#[derive(Clone, Copy, Default)]
pub struct Params {
    pub known: u8,
    pub buffer: u32,
    pub period: u32,
    pub features: u32,
    pub channels: u8,
    pub format: u8,
    pub rate: u8,
}

// The four commands to a stream.
#[derive(Clone, Copy)]
pub enum Kind {
    Prepare,
    Release,
    Start,
    Stop,
}

// What can be asked of a stream's record.
#[derive(Clone, Copy)]
pub enum Field {
    Rates,
    Formats,
    Channels,
    Features,
}

#[derive(Clone, Copy)]
pub enum Call {
    SetParams {
        stream: u32,
        to: Params,
    },
    Command {
        kind: Kind,
        stream: u32,
    },
    Remap {
        jack: u32,
        association: u32,
        sequence: u32,
    },
    Streams {
        direction: u8,
    },
    Supported {
        field: Field,
        stream: u32,
    },
    // A transfer that had to begin set-up.
    Xfer {
        stream: u32,
    },
    // A capture that had to begin set-up.
    Capture {
        stream: u32,
    },
}

// The open exchange: which answer is waited for, and the call that waits.
#[derive(Clone, Copy)]
pub enum Stage {
    Idle,
    JacksAsked(Call),
    StreamsAsked(Call),
    MapsAsked(Call),
    Sent(Call),
}

#[derive(Clone, Copy)]
pub struct Core {
    // As configured.
    pub counts: Counts,
    // Commands are held to the standard's lifecycle. Fixed when the state is made.
    pub guard: bool,
    // As read: how many records of each table count.
    pub read: Counts,
    // Set-up is done.
    pub ready: bool,
    pub stage: Stage,
}

impl Core {
    // The core before any call, with the guard or without, from the configured counts.
    pub fn new(guard: bool, jacks: u32, streams: u32, maps: u32) -> Core
        ensures { result ≡ new_core guard jacks streams maps }
    {
        Core {
            counts: Counts {
                jacks,
                streams,
                maps,
            },
            guard,
            read: Counts {
                jacks: 0,
                streams: 0,
                maps: 0,
            },
            ready: false,
            stage: Stage::Idle,
        }
    }
}
