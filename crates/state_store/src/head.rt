// The head of a store: the core, read and written in place.
ghost use Rattle.std.specs.Prelude.{◌≡◌, ◌+◌, ◌≤◌, [], ◌∷◌, length};
ghost use Rattle.std.proofs.lemmas.List.Edits.{sets};
ghost use Rattle.state_store.specs.Flat.{flat_row, flat_values};
ghost use Rattle.layout.specs.Layout.{write};
ghost use Rattle.state_store.specs.Store.{head_row, head_values, head_at, head_of, core_of, whole_head, guard_row, flag};
ghost use Rattle.state_store.specs.Steps.{counts_row, counts_values};
ghost use Rattle.state_store.specs.Places.{flat_place, guard_place, head_size};

use crate::fields;
use crate::flat::{Flat, Head, flat_of, is_whole_flat, stage_of};
use codes::both;
use sound_core::{Call, Core, Counts, Stage};

// The head that a store holds; bytes past the end of a short one are 0.
pub(crate) fn get_head(s: &[u8]) -> Head
    ensures { result ≡ head_at s.now }
{
    Head {
        counts: Counts {
            jacks: layout::get_u32(s, fields::JACKS_COUNT),
            streams: layout::get_u32(s, fields::STREAMS_COUNT),
            maps: layout::get_u32(s, fields::MAPS_COUNT),
        },
        read: Counts {
            jacks: layout::get_u32(s, fields::JACKS_READ),
            streams: layout::get_u32(s, fields::STREAMS_READ),
            maps: layout::get_u32(s, fields::MAPS_READ),
        },
        flat: Flat {
            ready: layout::get_u8(s, fields::READY),
            stage: layout::get_u8(s, fields::STAGE),
            call: layout::get_u8(s, fields::CALL),
            part: layout::get_u8(s, fields::PART),
            id: layout::get_u32(s, fields::ID),
            first: layout::get_u32(s, fields::FIRST),
            second: layout::get_u32(s, fields::SECOND),
            third: layout::get_u32(s, fields::THIRD),
            known: layout::get_u8(s, fields::KNOWN),
            channels: layout::get_u8(s, fields::CHANNELS),
            format: layout::get_u8(s, fields::FORMAT),
            rate: layout::get_u8(s, fields::RATE),
        },
        guard: layout::get_u64(s, fields::GUARD),
        reserved: layout::get_u64(s, fields::RESERVED),
    }
}

// A head whose stage is written as it must be, whose guard is 0 or 1, and in which what is reserved is 0.
pub(crate) fn is_whole(h: Head) -> bool
    ensures { result ≡ whole_head h }
{
    let flat = is_whole_flat(h.flat);
    both(flat, both(h.guard <= 1, h.reserved == 0))
}

// A head that is not whole stands for no core: it gives one that fails the consistency test, so
// that every call refuses it in its turn.
pub(crate) fn core_by(whole: bool, h: Head) -> Core
    requires { whole ≡ whole_head h }
    ensures { result ≡ core_of h }
{
    let flat = h.flat;
    let counts = h.counts;
    let read = h.read;
    if whole {
        let stage = stage_of(flat);
        let ready = flat.ready != 0;
        let guard = h.guard != 0;
        return Core {
            counts,
            guard,
            read,
            ready,
            stage,
        };
    }
    Core {
        counts,
        guard: false,
        read,
        ready: true,
        stage: Stage::JacksAsked(Call::Streams { direction: 0 }),
    }
}

// The same, with the test made here.
pub(crate) fn core_of(h: Head) -> Core
    ensures { result ≡ core_of h }
{
    core_by(is_whole(h), h)
}

fn number(guard: bool) -> u64
    ensures { result ≡ flag guard }
{
    if guard { 1 } else { 0 }
}

fn put_counts(s: &mut [u8], counts: Counts, read: Counts)
    ensures { s.new ≡ sets s.old 0 (write counts_row (counts_values counts read)) }
{
    layout::put_u32(s, fields::JACKS_COUNT, counts.jacks);
    layout::put_u32(s, fields::STREAMS_COUNT, counts.streams);
    layout::put_u32(s, fields::MAPS_COUNT, counts.maps);
    layout::put_u32(s, fields::JACKS_READ, read.jacks);
    layout::put_u32(s, fields::STREAMS_READ, read.streams);
    layout::put_u32(s, fields::MAPS_READ, read.maps);
}

fn put_flat(s: &mut [u8], f: Flat)
    ensures { s.new ≡ sets s.old flat_place (write flat_row (flat_values f)) }
{
    layout::put_u8(s, fields::READY, f.ready);
    layout::put_u8(s, fields::STAGE, f.stage);
    layout::put_u8(s, fields::CALL, f.call);
    layout::put_u8(s, fields::PART, f.part);
    layout::put_u32(s, fields::ID, f.id);
    layout::put_u32(s, fields::FIRST, f.first);
    layout::put_u32(s, fields::SECOND, f.second);
    layout::put_u32(s, fields::THIRD, f.third);
    layout::put_u8(s, fields::KNOWN, f.known);
    layout::put_u8(s, fields::CHANNELS, f.channels);
    layout::put_u8(s, fields::FORMAT, f.format);
    layout::put_u8(s, fields::RATE, f.rate);
}

// What is reserved is 0.
fn put_guard(s: &mut [u8], guard: bool)
    ensures { s.new ≡ sets s.old guard_place (write guard_row (flag guard ∷ 0 ∷ [])) }
{
    layout::put_u64(s, fields::GUARD, number(guard));
    layout::put_u64(s, fields::RESERVED, 0);
}

// The core over the one that stands there; no table is touched.
pub(crate) fn put_core(s: &mut [u8], c: Core)
    ensures { s.new ≡ sets s.old 0 (write head_row (head_values (head_of c))) }
{
    let stage = c.stage;
    let flat = flat_of(c.ready, stage);
    put_counts(s, c.counts, c.read);
    put_flat(s, flat);
    put_guard(s, c.guard);
}
