// The model device, for tests and demonstrations.
ghost use Rattle.std.specs.Prelude.{◌≡◌};
ghost use Rattle.layout.specs.Lent.{made, shown};
ghost use Rattle.model_store.specs.Calls.{new_in, told, control_in, transferred, transfer_in, payload_in, params_in, played_in};

#[unsafe(no_mangle)]
pub extern "C" fn snd_model_new(model: &mut [u8], jacks: &[u8], pcms: &[u8], maps: &[u8]) -> u64
    ensures { made result model.new ≡ new_in model.old jacks.now pcms.now maps.now }
{
    model_store::new(model, jacks, pcms, maps)
}

#[unsafe(no_mangle)]
pub extern "C" fn snd_model_control(
    model: &mut [u8],
    request: &[u8],
    page: &mut [u8],
    res: &mut [u8],
) -> u64
    ensures { told result model.new page.new res.new ≡ control_in model.old request.now page.old res.old }
{
    model_store::control(model, request, page, res)
}

#[unsafe(no_mangle)]
pub extern "C" fn snd_model_transfer(model: &mut [u8], request: &[u8], answer: &mut [u8]) -> u64
    ensures { transferred result model.new answer.new ≡ transfer_in model.old request.now answer.old }
{
    model_store::transfer(model, request, answer)
}

// The payload of a transfer, as a part of the request itself.
#[unsafe(no_mangle)]
pub extern "C" fn snd_model_payload(model: &[u8], request: &[u8], res: &mut [u8]) -> u64
    ensures { shown result res.new ≡ payload_in model.now request.now res.old }
{
    model_store::payload(model, request, res)
}

#[unsafe(no_mangle)]
pub extern "C" fn snd_model_params(model: &[u8], stream: u32, res: &mut [u8]) -> u64
    ensures { shown result res.new ≡ params_in model.now stream res.old }
{
    model_store::params(model, stream, res)
}

#[unsafe(no_mangle)]
pub extern "C" fn snd_model_played(model: &[u8], stream: u32, res: &mut [u8]) -> u64
    ensures { shown result res.new ≡ played_in model.now stream res.old }
{
    model_store::played(model, stream, res)
}
