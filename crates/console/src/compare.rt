// Two traces compared.
ghost use Rattle.std.specs.Prelude.{◌≡◌};
ghost use Rattle.layout.specs.Layout.{size};
ghost use Rattle.layout.specs.Lent.{made};
ghost use Rattle.trace.specs.Listed.{row_widths, tallied_of, says_compared, count_of};
ghost use Rattle.console.specs.Entries.{compare_entry};

use trace::{CompareError, ROW};

fn number(c: Result<usize, CompareError>) -> u64
    ensures { result ≡ (says_compared c).number }
{
    match c {
        Ok(_) => 0,
        Err(CompareError::BadFirst { .. }) => 18,
        Err(CompareError::BadSecond { .. }) => 18,
        Err(CompareError::ListFull) => 20,
    }
}

fn counted(c: Result<usize, CompareError>) -> u64
    ensures { result ≡ count_of c }
{
    match c {
        Ok(count) => count as u64,
        Err(_) => 0,
    }
}

// The bytes of one entry of a list of differences.
#[unsafe(no_mangle)]
pub extern "C" fn snd_entry_size() -> u64
    ensures { result ≡ size row_widths }
{
    ROW as u64
}

// How many differences two traces have; 0 where one is refused.
#[unsafe(no_mangle)]
pub extern "C" fn snd_differences(first: &[u8], second: &[u8]) -> u64
    ensures { result ≡ count_of (tallied_of first.now second.now) }
{
    let c = trace::differences(first, second);
    counted(c)
}

// The differences of two traces, as entries at the front of the list: 0, 18 or 20.
#[unsafe(no_mangle)]
pub extern "C" fn snd_compare(first: &[u8], second: &[u8], list: &mut [u8]) -> u64
    ensures { made result list.new ≡ compare_entry first.now second.now list.old }
{
    let c = trace::compare(first, second, list);
    number(c)
}
