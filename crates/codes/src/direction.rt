// Directions of a stream and of a channel map: VIRTIO_SND_D_*. Numbers and no
// enum, since a device may write any byte there and a record keeps it.
pub const OUTPUT: u8 = 0;

pub const INPUT: u8 = 1;
