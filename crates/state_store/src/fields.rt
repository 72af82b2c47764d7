// Where the fields stand: the head's in a store, those of parameters in their row.

// How many there are, and how many were read.
pub(crate) const JACKS_COUNT: usize = 0;

pub(crate) const STREAMS_COUNT: usize = 4;

pub(crate) const MAPS_COUNT: usize = 8;

pub(crate) const JACKS_READ: usize = 12;

pub(crate) const STREAMS_READ: usize = 16;

pub(crate) const MAPS_READ: usize = 20;

// What is kept of the core's stage.
pub(crate) const READY: usize = 24;

pub(crate) const STAGE: usize = 25;

pub(crate) const CALL: usize = 26;

pub(crate) const PART: usize = 27;

pub(crate) const ID: usize = 28;

pub(crate) const FIRST: usize = 32;

pub(crate) const SECOND: usize = 36;

pub(crate) const THIRD: usize = 40;

pub(crate) const KNOWN: usize = 44;

pub(crate) const CHANNELS: usize = 45;

pub(crate) const FORMAT: usize = 46;

pub(crate) const RATE: usize = 47;

// Commands are held to the lifecycle: 1, or 0.
pub(crate) const GUARD: usize = 48;

// What is reserved.
pub(crate) const RESERVED: usize = 56;

// What a stream was set to; whether it was stands first.
pub(crate) const SET_CHANNELS: usize = 1;

pub(crate) const SET_FORMAT: usize = 2;

pub(crate) const SET_RATE: usize = 3;

pub(crate) const SET_BUFFER: usize = 4;

pub(crate) const SET_PERIOD: usize = 8;

pub(crate) const SET_FEATURES: usize = 12;

// A token; its state stands first.
pub(crate) const TOKEN_STATUS: usize = 4;
