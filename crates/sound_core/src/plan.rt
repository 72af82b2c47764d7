// What a call or an answer leads to.
use crate::state::{Core, Params};
use codes::Refusal;
use records::{PcmCommand, Query, Remap, SetParameters};

// What is to be sent.
#[derive(Clone, Copy)]
pub enum Request {
    Query(Query),
    Remap(Remap),
    Command(PcmCommand),
    Set(SetParameters),
}

// What a call results in. A list of streams stands beside it, since the core sees no table. No Option:
// that nothing comes with Ok is one of four results.
#[derive(Clone, Copy)]
pub enum Value {
    Nothing,
    Number(u64),
    Range { min: u8, max: u8 },
    Streams { direction: u8 },
}

// What a call looks up in a table before it is decided: a jack's features, the field of a stream's
// record that is asked for, or where a stream is in its lifecycle; for a capture its direction too.
#[derive(Clone, Copy)]
pub enum Look {
    Nothing,
    Jack { features: u32 },
    Stream(Value),
    Life(u8),
    Directed { life: u8, direction: u8 },
}

// What a call that is not refused says: a request to send, or its result.
#[derive(Clone, Copy)]
pub enum Say {
    Send(Request),
    Done(Value),
}

// The one change to tables, parameters and lifecycles.
#[derive(Clone, Copy)]
pub enum Effect {
    Nothing,
    // So many records of the page that was judged.
    FillJacks(u32),
    FillStreams(u32),
    FillMaps(u32),
    Store { stream: u32, to: Params },
    // To where an ok command moves its stream, under the guard.
    Move { stream: u32, life: u8 },
}

#[derive(Clone, Copy)]
pub struct Plan {
    pub core: Core,
    pub say: Result<Say, Refusal>,
    pub effect: Effect,
}
