// What is done to the table: a submission takes a token, a completion marks it, finishing frees it.
// What becomes of a token is decided on that token alone.
ghost use Rattle.std.specs.Prelude.{◌≡◌, set};
ghost use Rattle.pending.specs.Table.{put, waits, mark_token, finish_token, judged_at, mark_of, finish_of, end_of};

use crate::table::{Pending, Token, token_at};
use codes::{Cause, Refusal, status_is_ok};

// What becomes of a token, and what is said of it: a status that is not ok frees its token too.
#[derive(Clone, Copy)]
pub struct Told {
    pub token: Token,
    pub said: Result<(), Refusal>,
}

// The same of a table.
#[derive(Clone, Copy)]
pub struct Judged {
    pub table: Pending,
    pub said: Result<(), Refusal>,
}

// The table with one token new; past its end nothing is stored.
fn stored(old: [Token; 32], k: usize, t: Token) -> [Token; 32]
    ensures { result ≡ set old k t }
{
    if 32 <= k {
        return old;
    }
    let mut tokens = old;
    tokens[k] = t;
    tokens
}

fn with(p: Pending, k: usize, t: Token) -> Pending
    ensures { result ≡ put p k t }
{
    let old = p.tokens;
    let tokens = stored(old, k, t);
    Pending { tokens }
}

// A submission takes a token, which waits for its completion.
pub fn hold(p: Pending, k: usize) -> Pending
    ensures { result ≡ put p k waits }
{
    let waiting = Token {
        state: 1,
        status: 0,
    };
    with(p, k, waiting)
}

// A completion with a status marks a token that waits.
pub fn mark_token(t: Token, status: u32) -> Told
    ensures { result ≡ mark_token t status }
{
    if t.state != 1 {
        return Told {
            token: t,
            said: Err(Refusal::WrongToken),
        };
    }
    let marked = Token { state: 2, status };
    Told {
        token: marked,
        said: Ok(()),
    }
}

// What the device said of a submission.
fn ended(status: u32) -> Result<(), Refusal>
    ensures { result ≡ end_of status }
{
    let ok = status_is_ok(status);
    if ok {
        return Ok(());
    }
    Err(Refusal::IoError(Cause::Status(status)))
}

// Finishing frees a token that is marked.
pub fn finish_token(t: Token) -> Told
    ensures { result ≡ finish_token t }
{
    if t.state == 0 {
        return Told {
            token: t,
            said: Err(Refusal::WrongToken),
        };
    }
    if t.state == 1 {
        return Told {
            token: t,
            said: Err(Refusal::NotYet),
        };
    }
    let free = Token {
        state: 0,
        status: 0,
    };
    Told {
        token: free,
        said: ended(t.status),
    }
}

fn judge(p: Pending, k: usize, t: Told) -> Judged
    ensures { result ≡ judged_at p k t }
{
    let said = t.said;
    Judged {
        table: with(p, k, t.token),
        said,
    }
}

// A completion with a status marks its token.
pub fn mark(p: Pending, token: u32, status: u32) -> Judged
    ensures { result ≡ mark_of p token status }
{
    let k = token as usize;
    let t = token_at(p, k);
    let told = mark_token(t, status);
    judge(p, k, told)
}

// Finishing frees a token that is marked, by its number.
pub fn finish(p: Pending, token: u32) -> Judged
    ensures { result ≡ finish_of p token }
{
    let k = token as usize;
    let old = token_at(p, k);
    let freed = finish_token(old);
    judge(p, k, freed)
}
