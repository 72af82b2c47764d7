// A new device: its three tables as they came, and zeros.
ghost use Rattle.std.specs.Prelude.{◌≡◌, ◌+◌, ◌≤◌, length};
ghost use Rattle.std.proofs.lemmas.List.Edits.{sets};
ghost use Rattle.model_store.specs.Store.{device_size, counts_bytes};
ghost use Rattle.layout.specs.Bytes.{zeros};
ghost use Rattle.model_store.specs.Private.{jacks_room, pcms_room, maps_room, padded, new_bytes};

use crate::SIZE;
use crate::place::{JACK_COUNT, JACKS, MAP_COUNT, MAPS, PARAMS, PCMS, STREAM_COUNT, copy};
use model::Counts;

fn clear(to: &mut [u8], at: usize, n: usize)
    requires { at + n ≤ length to.old }
    ensures { to.new ≡ sets to.old at (zeros n) }
{
    to[at..at + n].fill(0);
}

// A table's rows, then zeros up to its room.
fn fill(device: &mut [u8], place: usize, room: usize, rows: &[u8])
    requires { (place + room ≤ length device.old) × (length rows.now ≤ room) }
    ensures { device.new ≡ sets device.old place (padded room rows.now) }
{
    let n = rows.len();
    copy(device, place, rows, 0, n);
    clear(device, place + n, room - n);
}

fn put_counts(device: &mut [u8], n: Counts)
    ensures { device.new ≡ sets device.old 0 (counts_bytes n) }
{
    layout::put_u32(device, JACK_COUNT, n.jacks);
    layout::put_u32(device, STREAM_COUNT, n.streams);
    layout::put_u32(device, MAP_COUNT, n.maps);
}

// No stream has parameters, and nothing was played.
pub(crate) fn make(device: &mut [u8], n: Counts, jacks: &[u8], pcms: &[u8], maps: &[u8])
    requires { (device_size ≤ length device.old) × (length jacks.now ≤ jacks_room) × (length pcms.now ≤ pcms_room) × (length maps.now ≤ maps_room) }
    ensures { device.new ≡ sets device.old 0 (new_bytes n jacks.now pcms.now maps.now) }
{
    put_counts(device, n);
    fill(device, JACKS, PCMS - JACKS, jacks);
    fill(device, PCMS, MAPS - PCMS, pcms);
    fill(device, MAPS, PARAMS - MAPS, maps);
    clear(device, PARAMS, SIZE - PARAMS);
}
