// Every code, number, mask and position, as the crate `codes` hands it out.
use crate::show;
use codes::{
    JackFeatures, NotificationType, PcmFeature, PcmFeatures, PcmFormat, PcmFormats, PcmRate,
    PcmRates, RequestCode, StatusCode, direction, position,
};
use records::{ChannelMap, JackInfo, PcmCommand, PcmInfo, Remap, SetParameters};
use std::io;

const FORMATS: [(&str, PcmFormat); 25] = [
    ("PCM_FMT_IMA_ADPCM", PcmFormat::ImaAdpcm),
    ("PCM_FMT_MU_LAW", PcmFormat::MuLaw),
    ("PCM_FMT_A_LAW", PcmFormat::ALaw),
    ("PCM_FMT_S8", PcmFormat::S8),
    ("PCM_FMT_U8", PcmFormat::U8),
    ("PCM_FMT_S16", PcmFormat::S16),
    ("PCM_FMT_U16", PcmFormat::U16),
    ("PCM_FMT_S18_3", PcmFormat::S18_3),
    ("PCM_FMT_U18_3", PcmFormat::U18_3),
    ("PCM_FMT_S20_3", PcmFormat::S20_3),
    ("PCM_FMT_U20_3", PcmFormat::U20_3),
    ("PCM_FMT_S24_3", PcmFormat::S24_3),
    ("PCM_FMT_U24_3", PcmFormat::U24_3),
    ("PCM_FMT_S20", PcmFormat::S20),
    ("PCM_FMT_U20", PcmFormat::U20),
    ("PCM_FMT_S24", PcmFormat::S24),
    ("PCM_FMT_U24", PcmFormat::U24),
    ("PCM_FMT_S32", PcmFormat::S32),
    ("PCM_FMT_U32", PcmFormat::U32),
    ("PCM_FMT_FLOAT", PcmFormat::FLOAT),
    ("PCM_FMT_FLOAT64", PcmFormat::FLOAT64),
    ("PCM_FMT_DSD_U8", PcmFormat::DsdU8),
    ("PCM_FMT_DSD_U16", PcmFormat::DsdU16),
    ("PCM_FMT_DSD_U32", PcmFormat::DsdU32),
    ("PCM_FMT_IEC958_SUBFRAME", PcmFormat::Iec958Subframe),
];

const RATES: [(&str, PcmRate); 14] = [
    ("PCM_RATE_5512", PcmRate::Rate5512),
    ("PCM_RATE_8000", PcmRate::Rate8000),
    ("PCM_RATE_11025", PcmRate::Rate11025),
    ("PCM_RATE_16000", PcmRate::Rate16000),
    ("PCM_RATE_22050", PcmRate::Rate22050),
    ("PCM_RATE_32000", PcmRate::Rate32000),
    ("PCM_RATE_44100", PcmRate::Rate44100),
    ("PCM_RATE_48000", PcmRate::Rate48000),
    ("PCM_RATE_64000", PcmRate::Rate64000),
    ("PCM_RATE_88200", PcmRate::Rate88200),
    ("PCM_RATE_96000", PcmRate::Rate96000),
    ("PCM_RATE_176400", PcmRate::Rate176400),
    ("PCM_RATE_192000", PcmRate::Rate192000),
    ("PCM_RATE_384000", PcmRate::Rate384000),
];

const POSITIONS: [(&str, u8); 37] = [
    ("CHMAP_NONE", position::NONE),
    ("CHMAP_NA", position::NA),
    ("CHMAP_MONO", position::MONO),
    ("CHMAP_FL", position::FL),
    ("CHMAP_FR", position::FR),
    ("CHMAP_RL", position::RL),
    ("CHMAP_RR", position::RR),
    ("CHMAP_FC", position::FC),
    ("CHMAP_LFE", position::LFE),
    ("CHMAP_SL", position::SL),
    ("CHMAP_SR", position::SR),
    ("CHMAP_RC", position::RC),
    ("CHMAP_FLC", position::FLC),
    ("CHMAP_FRC", position::FRC),
    ("CHMAP_RLC", position::RLC),
    ("CHMAP_RRC", position::RRC),
    ("CHMAP_FLW", position::FLW),
    ("CHMAP_FRW", position::FRW),
    ("CHMAP_FLH", position::FLH),
    ("CHMAP_FCH", position::FCH),
    ("CHMAP_FRH", position::FRH),
    ("CHMAP_TC", position::TC),
    ("CHMAP_TFL", position::TFL),
    ("CHMAP_TFR", position::TFR),
    ("CHMAP_TFC", position::TFC),
    ("CHMAP_TRL", position::TRL),
    ("CHMAP_TRR", position::TRR),
    ("CHMAP_TRC", position::TRC),
    ("CHMAP_TFLC", position::TFLC),
    ("CHMAP_TFRC", position::TFRC),
    ("CHMAP_TSL", position::TSL),
    ("CHMAP_TSR", position::TSR),
    ("CHMAP_LLFE", position::LLFE),
    ("CHMAP_RLFE", position::RLFE),
    ("CHMAP_BC", position::BC),
    ("CHMAP_BLC", position::BLC),
    ("CHMAP_BRC", position::BRC),
];

fn request_codes(rt: &impl Print) -> io::Result<()> {
    let table = [
        ("R_JACK_INFO", RequestCode::RJackInfo.code() as u64),
        ("R_JACK_REMAP", RequestCode::RJackRemap.code() as u64),
        ("R_PCM_INFO", RequestCode::RPcmInfo.code() as u64),
        ("R_PCM_SET_PARAMS", RequestCode::RPcmSetParams.code() as u64),
        ("R_PCM_PREPARE", RequestCode::RPcmPrepare.code() as u64),
        ("R_PCM_RELEASE", RequestCode::RPcmRelease.code() as u64),
        ("R_PCM_START", RequestCode::RPcmStart.code() as u64),
        ("R_PCM_STOP", RequestCode::RPcmStop.code() as u64),
        ("R_CHMAP_INFO", RequestCode::RChmapInfo.code() as u64),
    ];
    show::numbers(rt, &table)
}

// The same as constants of the records.
fn record_codes(rt: &impl Print) -> io::Result<()> {
    let table = [
        ("R_JACK_INFO", JackInfo::CODE as u64),
        ("R_JACK_REMAP", Remap::CODE as u64),
        ("R_PCM_INFO", PcmInfo::CODE as u64),
        ("R_PCM_SET_PARAMS", SetParameters::CODE as u64),
        ("R_PCM_PREPARE", PcmCommand::PREPARE as u64),
        ("R_PCM_RELEASE", PcmCommand::RELEASE as u64),
        ("R_PCM_START", PcmCommand::START as u64),
        ("R_PCM_STOP", PcmCommand::STOP as u64),
        ("R_CHMAP_INFO", ChannelMap::CODE as u64),
    ];
    show::numbers(rt, &table)
}

pub(crate) fn requests(rt: &impl Print) -> io::Result<()> {
    request_codes(rt)?;
    record_codes(rt)
}

pub(crate) fn answers(rt: &impl Print) -> io::Result<()> {
    let table = [
        (
            "EVT_JACK_CONNECTED",
            NotificationType::JackConnected.code() as u64,
        ),
        (
            "EVT_JACK_DISCONNECTED",
            NotificationType::JackDisconnected.code() as u64,
        ),
        (
            "EVT_PCM_PERIOD_ELAPSED",
            NotificationType::PcmPeriodElapsed.code() as u64,
        ),
        ("EVT_PCM_XRUN", NotificationType::PcmXrun.code() as u64),
        ("S_OK", StatusCode::SOk.code() as u64),
        ("S_BAD_MSG", StatusCode::SBadMsg.code() as u64),
        ("S_NOT_SUPP", StatusCode::SNotSupp.code() as u64),
        ("S_IO_ERR", StatusCode::SIoErr.code() as u64),
        ("S_OK", StatusCode::OK as u64),
        ("S_BAD_MSG", StatusCode::BAD_MSG as u64),
        ("S_NOT_SUPP", StatusCode::NOT_SUPP as u64),
        ("S_IO_ERR", StatusCode::IO_ERR as u64),
        ("D_OUTPUT", direction::OUTPUT as u64),
        ("D_INPUT", direction::INPUT as u64),
    ];
    show::numbers(rt, &table)
}

// A format's number, its mask and its widths.
fn format(rt: &impl Print, name: &[u8], f: PcmFormat) -> io::Result<()> {
    show::number(rt, name, f.number() as u64)?;
    let mask = PcmFormats::from(f);
    show::plain(rt, b"1 <<", mask.bits)?;
    show::plain(rt, b"sample", f.sample_bits() as u64)?;
    show::plain(rt, b"storage", f.storage_bits() as u64)
}

pub(crate) fn formats(rt: &impl Print) -> io::Result<()> {
    for (name, f) in FORMATS {
        format(rt, name.as_bytes(), f)?;
    }
    Ok(())
}

// A rate's number, its mask, and its Hz, which the name has.
fn rate(rt: &impl Print, name: &[u8], r: PcmRate) -> io::Result<()> {
    show::number(rt, name, r.number() as u64)?;
    let mask = PcmRates::from(r);
    show::plain(rt, b"1 <<", mask.bits)?;
    show::plain(rt, b"Hz", r.hz() as u64)
}

pub(crate) fn rates(rt: &impl Print) -> io::Result<()> {
    for (name, r) in RATES {
        rate(rt, name.as_bytes(), r)?;
    }
    Ok(())
}

fn feature(rt: &impl Print, name: &[u8], f: PcmFeature) -> io::Result<()> {
    let mask = PcmFeatures::from(f);
    show::mask(rt, name, mask.bits as u64)
}

pub(crate) fn flags(rt: &impl Print) -> io::Result<()> {
    show::mask(rt, b"JACK_F_REMAP", JackFeatures::REMAP as u64)?;
    feature(rt, b"PCM_F_SHMEM_HOST", PcmFeature::ShmemHost)?;
    feature(rt, b"PCM_F_SHMEM_GUEST", PcmFeature::ShmemGuest)?;
    feature(rt, b"PCM_F_MSG_POLLING", PcmFeature::MsgPolling)?;
    feature(rt, b"PCM_F_EVT_SHMEM_PERIODS", PcmFeature::EvtShmemPeriods)?;
    feature(rt, b"PCM_F_EVT_XRUNS", PcmFeature::EvtXruns)
}

pub(crate) fn positions(rt: &impl Print) -> io::Result<()> {
    show::number(rt, b"CHMAP_MAX_SIZE", ChannelMap::POSITIONS as u64)?;
    for (name, place) in POSITIONS {
        show::number(rt, name.as_bytes(), u64::from(place))?;
    }
    Ok(())
}
