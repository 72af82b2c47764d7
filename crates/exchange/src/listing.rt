// The list of streams of a direction.
ghost use Rattle.std.specs.Prelude.{◌≡◌, ◌<◌, ◌≤◌, [], take};
ghost use Rattle.codes.specs.Says.{pick};
ghost use Rattle.tables.specs.Tables.{pcms_in};
ghost use Rattle.exchange.specs.Exchange.{ids_from, listed, ids_by, list_of};
ghost use Rattle.exchange.specs.Steps.{pushed};

use crate::calls::StreamList;
use crate::effect::direction_at;
use codes::Refusal;
use sound_core::{Say, Value};

pub(crate) fn no_ids() -> StreamList
    ensures { result ≡ listed [] }
{
    StreamList {
        count: 0,
        ids: [0; 127],
    }
}

// The list with one more id, where that is wanted.
fn with_id(list: StreamList, wanted: bool, id: u32) -> StreamList
    requires { list.count < 127 }
    ensures { result ≡ pick wanted (pushed list id) list }
{
    if !wanted {
        return list;
    }
    let mut more = list;
    let at = list.count as usize;
    more.ids[at] = id;
    more.count += 1;
    more
}

// The streams of a direction among the first `n`.
fn ids_of(direction: u8, n: u32, tables: &[u8]) -> StreamList
    requires { n ≤ 127 }
    ensures { result ≡ listed (ids_from direction 0 (take n (pcms_in tables.now))) }
{
    let mut list = no_ids();
    for i in 0..n {
        let found = direction_at(tables, i);
        list = with_id(list, found == direction, i);
    }
    list
}

// The same, where a table of more than 127 counts as one of 127.
fn all_ids(direction: u8, n: u32, tables: &[u8]) -> StreamList
    ensures { result ≡ listed (ids_from direction 0 (take n (pcms_in tables.now))) }
{
    if 127 < n {
        return ids_of(direction, 127, tables);
    }
    ids_of(direction, n, tables)
}

fn list_by(v: Value, n: u32, tables: &[u8]) -> StreamList
    ensures { result ≡ listed (ids_by v n (pcms_in tables.now)) }
{
    match v {
        Value::Streams { direction } => all_ids(direction, n, tables),
        _ => no_ids(),
    }
}

// The list that goes with what is said: empty but for a list of streams.
pub(crate) fn list_of(say: Result<Say, Refusal>, n: u32, tables: &[u8]) -> StreamList
    ensures { result ≡ list_of say n (pcms_in tables.now) }
{
    match say {
        Ok(Say::Done(v)) => list_by(v, n, tables),
        _ => no_ids(),
    }
}
