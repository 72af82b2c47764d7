// A call's result in bytes.
ghost use Rattle.std.specs.Prelude.{◌≡◌, ◌+◌, ◌*◌, ◌≤◌};
ghost use Rattle.std.proofs.lemmas.List.Edits.{sets};
ghost use Rattle.layout.specs.Bytes.{le};
ghost use Rattle.codes.specs.Says.{pick};
ghost use Rattle.sound_core.specs.Reply.{reply_of};
ghost use Rattle.exchange.specs.Exchange.{listed, ids_by, list_of};
ghost use Rattle.sound_core.specs.declared.plan.Value.TheVariants as value;
ghost use Rattle.tables.specs.Tables.{pcms_in};
ghost use Rattle.state_store.specs.Calls.{value_bytes, result_bytes};
ghost use Rattle.state_store.specs.Steps.{ids_in, Listed};

use codes::Refusal;
use exchange::direction_at;
use sound_core::{Say, Value};

// One more id after `count` of them, where that is wanted; how many there are then.
fn put_id(res: &mut [u8], count: usize, wanted: bool, id: u32) -> usize
    requires { count ≤ 127 }
    ensures count { result ≡ pick wanted (count + 1) count }
    ensures bytes { res.new ≡ pick wanted (sets res.old (4 + count * 4) (le 4 id)) res.old }
{
    if !wanted {
        return count;
    }
    layout::put_u32(&mut *res, 4 + count * 4, id);
    count + 1
}

// The streams of a direction among the first `n`, from byte 4 on; how many they are.
fn put_ids(tables: &[u8], direction: u8, n: u32, res: &mut [u8]) -> usize
    requires { n ≤ 127 }
    ensures { Listed res.old (ids_in tables.now direction n) result res.new }
{
    let mut count: usize = 0;
    for i in 0..n {
        let found = direction_at(tables, i);
        count = put_id(&mut *res, count, found == direction, i);
    }
    count
}

// The list of them: the count stands before the ids. A table of more than 127 counts as one of 127.
fn put_streams(tables: &[u8], direction: u8, n: u32, res: &mut [u8])
    ensures { res.new ≡ sets res.old 0 (value_bytes (value.Streams direction) (listed (ids_by (value.Streams direction) n (pcms_in tables.now)))) }
{
    if 127 < n {
        let all = put_ids(tables, direction, 127, &mut *res);
        layout::put_u32(&mut *res, 0, all as u32);
        return;
    }
    let count = put_ids(tables, direction, n, &mut *res);
    layout::put_u32(&mut *res, 0, count as u32);
}

fn put_value(tables: &[u8], v: Value, n: u32, res: &mut [u8])
    ensures { res.new ≡ sets res.old 0 (value_bytes v (listed (ids_by v n (pcms_in tables.now)))) }
{
    match v {
        Value::Nothing => {}
        Value::Number(x) => layout::put_u64(&mut *res, 0, x),
        Value::Range { min, max } => {
            layout::put_u8(&mut *res, 0, min);
            layout::put_u8(&mut *res, 1, max);
        }
        Value::Streams { direction } => put_streams(tables, direction, n, &mut *res),
    }
}

// What is said, with the streams of the tables where it is a list of them. Only the result's own
// bytes are written; what is not a result writes none.
pub(crate) fn put_result(tables: &[u8], say: Result<Say, Refusal>, n: u32, res: &mut [u8])
    ensures { res.new ≡ sets res.old 0 (result_bytes (reply_of say) (list_of say n (pcms_in tables.now))) }
{
    if let Ok(Say::Done(v)) = say {
        put_value(tables, v, n, &mut *res);
    }
}
