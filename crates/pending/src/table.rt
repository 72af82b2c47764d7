// The table of tokens, and its reads. Every content of its bytes is a table: there is no test of its own.
ghost use Rattle.std.specs.Prelude.{◌≡◌};
ghost use Rattle.pending.specs.Table.{new_pending, token_at, lowest_in, count_in, none_in, weight_of, seen_token, seen_of, bound_of};

use codes::Refusal;

// `state` is 0 where the token is free, 1 where its submission waits for the completion, and any other
// number where it is completed, with this status. It stays a number, since any four bytes of the
// lent store are one: an enum would have to keep which number stood there.
#[derive(Clone, Copy)]
pub struct Token {
    pub state: u32,
    pub status: u32,
}

#[derive(Clone, Copy)]
pub struct Pending {
    pub tokens: [Token; 32],
}

// What a reader is told of a token.
#[derive(Clone, Copy)]
pub enum Seen {
    Free,
    Waits,
    Marked(u32),
}

impl Pending {
    // Nothing is pending.
    pub fn new() -> Pending
        ensures { result ≡ new_pending }
    {
        let blank = Token {
            state: 0,
            status: 0,
        };
        Pending {
            tokens: [blank; 32],
        }
    }
}

// A token; past the table it is free.
pub(crate) fn token_at(p: Pending, k: usize) -> Token
    ensures { result ≡ token_at p k }
{
    let free = Token {
        state: 0,
        status: 0,
    };
    p.tokens.get(k).copied().unwrap_or(free)
}

// So many places as the table has tokens for.
pub(crate) fn bound(places: usize) -> usize
    ensures { result ≡ bound_of places }
{
    places.min(32)
}

// The lowest free of so many places; as many as there are where none is.
pub fn lowest(p: Pending, places: usize) -> usize
    ensures { result ≡ lowest_in p places }
{
    let n = bound(places);
    let free = p.tokens.iter().take(n).position(|t| t.state == 0);
    free.unwrap_or(n)
}

// 1 where a token is pending, else 0.
fn weight(t: Token) -> u32
    ensures { result ≡ weight_of t }
{
    if t.state == 0 { 0 } else { 1 }
}

// How many tokens are pending, marked or not.
pub fn count(p: Pending) -> u32
    ensures { result ≡ count_in p }
{
    p.tokens.iter().map(|t| weight(*t)).sum()
}

// Nothing is pending.
pub fn is_none(p: Pending) -> bool
    ensures { result ≡ none_in p }
{
    let n = count(p);
    n == 0
}

// What one token is.
pub fn seen_token(t: Token) -> Seen
    ensures { result ≡ seen_token t }
{
    if t.state == 0 {
        return Seen::Free;
    }
    if t.state == 1 {
        return Seen::Waits;
    }
    Seen::Marked(t.status)
}

// The same of a token by its number; 32 or more is none.
pub fn look(p: Pending, token: u32) -> Result<Seen, Refusal>
    ensures { result ≡ seen_of p token }
{
    let k = token as usize;
    if 32 <= k {
        return Err(Refusal::InvalidParam);
    }
    let t = token_at(p, k);
    Ok(seen_token(t))
}
