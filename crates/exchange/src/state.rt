// The state: a core on which every decision is made, three tables as the received records, of each
// stream its parameters and where it is in its lifecycle, and what was submitted without waiting.
ghost use Rattle.std.specs.Prelude.{◌≡◌, true, false, replicate};
ghost use Rattle.sound_core.specs.State.{unset};
ghost use Rattle.exchange.specs.State.{new_sound, says_configured, configured_of};

use codes::{Refusal, life};
use pending::Pending;
use sound_core::{Core, Params, consistent};

#[derive(Clone, Copy)]
pub struct Sound {
    pub core: Core,
    // 170 jacks, 127 streams, 170 channel maps, where `tables` has them.
    pub tables: [u8; 12224],
    pub params: [Params; 127],
    pub lives: [u8; 127],
    pub pending: Pending,
}

fn no_params() -> [Params; 127]
    ensures { result ≡ replicate 127 unset }
{
    [Params::default(); 127]
}

// A count; an inconsistent state tells none.
pub(crate) fn count_told(c: Core, n: u32) -> Result<u32, Refusal>
    ensures { says_configured result ≡ configured_of c n }
{
    let sound = consistent(c);
    if !sound {
        return Err(Refusal::InvalidParam);
    }
    Ok(n)
}

fn made(guard: bool, jacks: u32, streams: u32, chmaps: u32) -> Sound
    ensures { result ≡ new_sound guard jacks streams chmaps }
{
    Sound {
        core: Core::new(guard, jacks, streams, chmaps),
        tables: [0; 12224],
        params: no_params(),
        lives: [life::SET_PARAMETERS; 127],
        pending: Pending::new(),
    }
}

impl Sound {
    // The state before any call, from the configured counts.
    pub fn new(jacks: u32, streams: u32, chmaps: u32) -> Sound
        ensures { result ≡ new_sound false jacks streams chmaps }
    {
        made(false, jacks, streams, chmaps)
    }

    // The same with the guard: commands are held to the standard's lifecycle.
    pub fn new_guarded(jacks: u32, streams: u32, chmaps: u32) -> Sound
        ensures { result ≡ new_sound true jacks streams chmaps }
    {
        made(true, jacks, streams, chmaps)
    }

    // The configured counts.
    pub fn jacks(self) -> Result<u32, Refusal>
        ensures { says_configured result ≡ configured_of self.core self.core.counts.jacks }
    {
        let c = self.core;
        count_told(c, c.counts.jacks)
    }

    pub fn streams(self) -> Result<u32, Refusal>
        ensures { says_configured result ≡ configured_of self.core self.core.counts.streams }
    {
        let c = self.core;
        count_told(c, c.counts.streams)
    }

    pub fn chmaps(self) -> Result<u32, Refusal>
        ensures { says_configured result ≡ configured_of self.core self.core.counts.maps }
    {
        let c = self.core;
        count_told(c, c.counts.maps)
    }
}
