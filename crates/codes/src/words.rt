// The words of two refusals at the C boundary, which carry no status: what `Refusal::word` says of
// them, for calls that answer by a word alone.

// A ring, a state or a number that is none.
pub const INVALID_PARAM: u64 = 1;

// A store, a buffer or a page of a wrong length.
pub const BAD_LENGTH: u64 = 10;
