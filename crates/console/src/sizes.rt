// Sizes of the stores and buffers.
ghost use Rattle.std.specs.Prelude.{◌≡◌};
ghost use Rattle.layout.specs.Lent.{message_size, page_size, result_size};
ghost use Rattle.model_store.specs.Store.{device_size};
ghost use Rattle.ring_store.specs.Store.{ring_size};
ghost use Rattle.state_store.specs.Places.{state_size};

use sound_core::MESSAGE;
use tables::PAGE;

#[unsafe(no_mangle)]
pub extern "C" fn snd_state_size() -> u64
    ensures { result ≡ state_size }
{
    state_store::size()
}

#[unsafe(no_mangle)]
pub extern "C" fn snd_ring_size() -> u64
    ensures { result ≡ ring_size }
{
    ring_store::size()
}

#[unsafe(no_mangle)]
pub extern "C" fn snd_message_size() -> u64
    ensures { result ≡ message_size }
{
    MESSAGE as u64
}

#[unsafe(no_mangle)]
pub extern "C" fn snd_result_size() -> u64
    ensures { result ≡ result_size }
{
    state_store::RESULT as u64
}

#[unsafe(no_mangle)]
pub extern "C" fn snd_page_size() -> u64
    ensures { result ≡ page_size }
{
    PAGE as u64
}

#[unsafe(no_mangle)]
pub extern "C" fn snd_model_size() -> u64
    ensures { result ≡ device_size }
{
    model_store::size()
}
