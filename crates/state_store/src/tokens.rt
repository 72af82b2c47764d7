// What is pending, in a byte store: tokens are looked at by place, and a completion or a finish
// changes the 8 bytes of one.
ghost use Rattle.std.specs.Prelude.{◌≡◌, [], ◌∷◌, Ok};
ghost use Rattle.std.proofs.lemmas.List.Edits.{sets};
ghost use Rattle.layout.specs.Bytes.{le};
ghost use Rattle.layout.specs.Rows.{rows_bytes};
ghost use Rattle.layout.specs.Lent.{made, shown};
ghost use Rattle.pending.specs.Table.{token_at, says_seen};
ghost use Rattle.state_store.specs.Store.{sound_of};
ghost use Rattle.state_store.specs.Tokens.{outcome_word, mark_in, finish_in, pending_in, seen_in};
ghost use Rattle.state_store.specs.Steps.{token_over, shown_of};

use crate::calls::{RESULT, SIZE};
use crate::config::show;
use crate::fields;
use crate::head::{core_of, get_head};
use crate::place::{TOKEN, TOKENS};
use codes::words::{BAD_LENGTH, INVALID_PARAM};
use codes::{Refusal, both};
use pending::{Pending, Seen, Token, Told, count, finish_token, mark_token, seen_token};
use sound_core::consistent;
use turns::Completion;

// A token; past the last it is free.
fn token_at(s: &[u8], k: usize) -> Token
    ensures { result ≡ token_at (sound_of s.now).pending k }
{
    if 32 <= k {
        return Token {
            state: 0,
            status: 0,
        };
    }
    let at = TOKENS + k * TOKEN;
    Token {
        state: layout::get_u32(s, at),
        status: layout::get_u32(s, at + fields::TOKEN_STATUS),
    }
}

// All of them.
fn read_tokens(s: &[u8]) -> [Token; 32]
    ensures { result ≡ (sound_of s.now).pending.tokens }
{
    let mut tokens = Pending::new().tokens;
    for k in 0..32 {
        let t = token_at(s, k);
        tokens[k] = t;
    }
    tokens
}

pub(crate) fn pending_in(s: &[u8]) -> Pending
    ensures { result ≡ (sound_of s.now).pending }
{
    let tokens = read_tokens(s);
    Pending { tokens }
}

pub(crate) fn put_token(s: &mut [u8], k: usize, t: Token)
    ensures { s.new ≡ token_over s.old k t }
{
    if 32 <= k {
        return;
    }
    let at = TOKENS + k * TOKEN;
    layout::put_u32(&mut *s, at, t.state);
    layout::put_u32(&mut *s, at + fields::TOKEN_STATUS, t.status);
}

fn word_of(said: Result<(), Refusal>) -> u64
    ensures { result ≡ outcome_word said }
{
    match said {
        Ok(()) => 0,
        Err(refusal) => refusal.word(),
    }
}

// What became of a token is stored, and said.
fn settle(state: &mut [u8], k: usize, told: Told) -> u64
    ensures { made result state.new ≡ made (outcome_word told.said) (token_over state.old k told.token) }
{
    let said = told.said;
    put_token(&mut *state, k, told.token);
    word_of(said)
}

// A completion reading marks its token.
pub fn pcm_xfer_mark(state: &mut [u8], kind: u32, token: u32, status: u32) -> u64
    ensures { made result state.new ≡ mark_in state.old kind token status }
{
    if state.len() < SIZE {
        return BAD_LENGTH;
    }
    let c = core_of(get_head(&state[..]));
    if !consistent(c) {
        return INVALID_PARAM;
    }
    let reading = Completion::from_words(kind, token, status);
    match reading {
        None => 0,
        Some(done) => {
            let k = done.slot as usize;
            let t = token_at(&state[..], k);
            settle(state, k, mark_token(t, done.status))
        }
    }
}

// A marked token is finished, and free again.
pub fn pcm_xfer_ok(state: &mut [u8], token: u32) -> u64
    ensures { made result state.new ≡ finish_in state.old token }
{
    if state.len() < SIZE {
        return BAD_LENGTH;
    }
    let c = core_of(get_head(&state[..]));
    if !consistent(c) {
        return INVALID_PARAM;
    }
    let k = token as usize;
    let t = token_at(&state[..], k);
    settle(state, k, finish_token(t))
}

// How many are pending, marked or not.
pub fn pending_count(state: &[u8], res: &mut [u8]) -> u64
    ensures { shown result res.new ≡ pending_in state.now res.old }
{
    if !both(SIZE <= state.len(), RESULT <= res.len()) {
        return BAD_LENGTH;
    }
    let c = core_of(get_head(state));
    let n = count(pending_in(state));
    show(c, n, res)
}

// Two numbers in the result.
fn tell_two(res: &mut [u8], a: u64, b: u64) -> u64
    ensures { shown result res.new ≡ shown 0 (sets res.old 0 (rows_bytes (le 8) (a ∷ b ∷ []))) }
{
    layout::put_u64(&mut *res, 0, a);
    layout::put_u64(&mut *res, 8, b);
    0
}

fn tell_seen(seen: Seen, res: &mut [u8]) -> u64
    ensures { shown result res.new ≡ shown_of res.old (says_seen (Ok seen)) }
{
    match seen {
        Seen::Free => tell_two(res, 0, 0),
        Seen::Waits => tell_two(res, 1, 0),
        Seen::Marked(status) => tell_two(res, 2, status as u64),
    }
}

// What a token is: 0 free, 1 waits, 2 marked, and its status. There are 32.
pub fn pending_token(state: &[u8], token: usize, res: &mut [u8]) -> u64
    ensures { shown result res.new ≡ seen_in state.now token res.old }
{
    if !both(SIZE <= state.len(), RESULT <= res.len()) {
        return BAD_LENGTH;
    }
    let c = core_of(get_head(state));
    if !consistent(c) {
        return INVALID_PARAM;
    }
    if 32 <= token {
        return INVALID_PARAM;
    }
    let seen = seen_token(token_at(state, token));
    tell_seen(seen, res)
}
