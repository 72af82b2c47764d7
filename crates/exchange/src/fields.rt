// Where the fields that are looked at stand in their record.

// A jack's record.
pub(crate) const JACK_FEATURES: usize = 4;

// A stream's record.
pub(crate) const STREAM_FEATURES: usize = 4;

pub(crate) const STREAM_FORMATS: usize = 8;

pub(crate) const STREAM_RATES: usize = 16;

pub(crate) const STREAM_DIRECTION: usize = 24;

pub(crate) const STREAM_MIN: usize = 25;

pub(crate) const STREAM_MAX: usize = 26;
