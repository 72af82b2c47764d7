// A submission that does not wait, the completion that marks its token, its finish, and what is pending.
ghost use Rattle.std.specs.Prelude.{◌≡◌, ◌≤◌, length};
ghost use Rattle.layout.specs.Lent.{message_size};
ghost use Rattle.pending.specs.Table.{count_in};
ghost use Rattle.exchange.specs.State.{says_configured, configured_of};
ghost use Rattle.exchange.specs.Submit.{places_of, nb_of, nb_says, Submits, nb_store, nb_message, submit_of, refused_nb, token_nb, set_up_nb, end_by, mark_step, finish_step, barred_end, token_seen};

use crate::state::{Sound, count_told};
use crate::xfer::{checked, set_up};
use codes::Refusal;
use pending::{
    INDIRECT_PLACES, Judged, PLACES, Seen, count, find_spot, finish, hold, look, lowest, mark,
    placed,
};
use records::Query;
use sound_core::{Call, Gate, MESSAGE, consistent};
use turns::{Completion, INDIRECT, Ring};

// A request of so many bytes to send, or the token of what was submitted.
#[derive(Clone, Copy)]
pub enum NbReply {
    Send(usize),
    Token(usize),
}

#[derive(Clone, Copy)]
pub struct NbStep {
    pub sound: Sound,
    pub reply: Result<NbReply, Refusal>,
}

// What a completion, or finishing, comes to.
#[derive(Clone, Copy)]
pub struct NbEnd {
    pub sound: Sound,
    pub said: Result<(), Refusal>,
}

fn refused_nb(s: Sound, refusal: Refusal) -> NbStep
    ensures { result ≡ refused_nb s refusal }
{
    NbStep {
        sound: s,
        reply: Err(refusal),
    }
}

// The token is taken.
fn token_nb(s: Sound, k: usize) -> NbStep
    ensures { result ≡ token_nb s k }
{
    let old = s.pending;
    let pending = hold(old, k);
    NbStep {
        sound: Sound { pending, ..s },
        reply: Ok(NbReply::Token(k)),
    }
}

// The places of a lent store, by the descriptors to a submission.
pub fn places_of(descriptors: usize) -> usize
    ensures { result ≡ places_of descriptors }
{
    if descriptors == INDIRECT {
        INDIRECT_PLACES
    } else {
        PLACES
    }
}

// The stream's number and the payload go into the lowest free of so many places, or nothing does.
fn submit(
    places: usize,
    s: Sound,
    stream: u32,
    period: u32,
    payload: &[u8],
    store: &mut [u8],
) -> NbStep
    ensures { (result ≡ submit_of places s (length payload.now) (length store.old) period) × (store.new ≡ nb_store places (submit_of places s (length payload.now) (length store.old) period).reply stream payload.now store.old) }
{
    let old = s.pending;
    let free = lowest(old, places);
    let outcome = find_spot(places, free, payload.len(), store.len(), period);
    match outcome {
        Err(reason) => refused_nb(s, reason),
        Ok(k) => {
            placed(store, places, k, stream, payload);
            token_nb(s, k)
        }
    }
}

// The submission waits for set-up, and its first query goes out.
fn set_up_nb(s: Sound, ring: Ring, stream: u32, message: &mut [u8]) -> NbStep
    requires { message_size ≤ length message.old }
    ensures { (result ≡ set_up_nb s stream) × (message.new ≡ nb_message (set_up_nb s stream).reply s stream message.old) }
{
    let x = set_up(s, ring, Call::Xfer { stream }, message);
    let sound = x.sound;
    NbStep {
        sound,
        reply: Ok(NbReply::Send(Query::SIZE)),
    }
}

// One whole period, submitted without waiting: its token, a refusal, or the first query of set-up.
pub fn pcm_xfer_nb(
    s: Sound,
    ring: Ring,
    stream: u32,
    payload: &[u8],
    store: &mut [u8],
    message: &mut [u8],
) -> NbStep
    ensures { Submits (places_of ring.track.descriptors) (nb_of s ring stream (length payload.now) (length store.old) (length message.old)) (nb_says s ring stream (length payload.now) (length store.old) (length message.old)) s stream payload.now store.old store.new message.old message.new result }
{
    let outcome = checked(false, MESSAGE <= message.len(), true, s, ring.track, stream);
    match outcome {
        Err(refusal) => refused_nb(s, refusal),
        Ok(Gate::SetUp) => set_up_nb(s, ring, stream, message),
        Ok(Gate::Open(period)) => {
            let places = places_of(ring.track.descriptors);
            submit(places, s, stream, period, payload, store)
        }
    }
}

fn end_by(s: Sound, j: Judged) -> NbEnd
    ensures { result ≡ end_by s j }
{
    let pending = j.table;
    let said = j.said;
    NbEnd {
        sound: Sound { pending, ..s },
        said,
    }
}

// A state that fails the test.
fn barred_end(s: Sound) -> NbEnd
    ensures { result ≡ barred_end s }
{
    NbEnd {
        sound: s,
        said: Err(Refusal::InvalidParam),
    }
}

// A completion reading marks its token.
pub fn pcm_xfer_mark(s: Sound, reading: Option<Completion>) -> NbEnd
    ensures { result ≡ mark_step s reading }
{
    if !consistent(s.core) {
        return barred_end(s);
    }
    match reading {
        None => NbEnd {
            sound: s,
            said: Ok(()),
        },
        Some(done) => {
            let old = s.pending;
            let j = mark(old, done.slot, done.status);
            end_by(s, j)
        }
    }
}

// A marked token is finished, and free again.
pub fn pcm_xfer_ok(s: Sound, token: u32) -> NbEnd
    ensures { result ≡ finish_step s token }
{
    if !consistent(s.core) {
        return barred_end(s);
    }
    let old = s.pending;
    let j = finish(old, token);
    end_by(s, j)
}

// How many are pending, marked or not.
pub fn pending_count(s: Sound) -> Result<u32, Refusal>
    ensures { says_configured result ≡ configured_of s.core (count_in s.pending) }
{
    let old = s.pending;
    let n = count(old);
    count_told(s.core, n)
}

// What a token is.
pub fn pending_token(s: Sound, token: u32) -> Result<Seen, Refusal>
    ensures { result ≡ token_seen s token }
{
    if !consistent(s.core) {
        return Err(Refusal::InvalidParam);
    }
    let old = s.pending;
    look(old, token)
}
