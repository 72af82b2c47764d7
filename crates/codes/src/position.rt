// Channel positions: VIRTIO_SND_CHMAP_*. Numbers and no enum, since a record keeps any byte.

// undefined
pub const NONE: u8 = 0;

// silent
pub const NA: u8 = 1;

// mono stream
pub const MONO: u8 = 2;

// front left
pub const FL: u8 = 3;

// front right
pub const FR: u8 = 4;

// rear left
pub const RL: u8 = 5;

// rear right
pub const RR: u8 = 6;

// front center
pub const FC: u8 = 7;

// low frequency (LFE)
pub const LFE: u8 = 8;

// side left
pub const SL: u8 = 9;

// side right
pub const SR: u8 = 10;

// rear center
pub const RC: u8 = 11;

// front left center
pub const FLC: u8 = 12;

// front right center
pub const FRC: u8 = 13;

// rear left center
pub const RLC: u8 = 14;

// rear right center
pub const RRC: u8 = 15;

// front left wide
pub const FLW: u8 = 16;

// front right wide
pub const FRW: u8 = 17;

// front left high
pub const FLH: u8 = 18;

// front center high
pub const FCH: u8 = 19;

// front right high
pub const FRH: u8 = 20;

// top center
pub const TC: u8 = 21;

// top front left
pub const TFL: u8 = 22;

// top front right
pub const TFR: u8 = 23;

// top front center
pub const TFC: u8 = 24;

// top rear left
pub const TRL: u8 = 25;

// top rear right
pub const TRR: u8 = 26;

// top rear center
pub const TRC: u8 = 27;

// top front left center
pub const TFLC: u8 = 28;

// top front right center
pub const TFRC: u8 = 29;

// top side left
pub const TSL: u8 = 30;

// top side right
pub const TSR: u8 = 31;

// left LFE
pub const LLFE: u8 = 32;

// right LFE
pub const RLFE: u8 = 33;

// bottom center
pub const BC: u8 = 34;

// bottom left center
pub const BLC: u8 = 35;

// bottom right center
pub const BRC: u8 = 36;
