//! The day frame: 05, live and adds (4 bytes each), and three readings (2 bytes each), high byte first. Knows the kinds of frames; nothing of days.
#![tactic(auto)]

ghost use Rattle.std.specs.Prelude.{◌≡◌};
ghost use Rattle.day_frame.specs.DayFrames.{frame_of, read_of, OneDayFrame};

use frames::head::Kind;
use refusals::Refusal;

// What a day frame says.
#[derive(Clone, Copy, PartialEq, Eq, Debug)]
pub struct Summary {
    // the live readings
    pub live: u32,
    // the readings added
    pub adds: u32,
    // the reading at a quarter of live
    pub first: i16,
    // the reading at a half of live
    pub second: i16,
    // the reading at three quarters of live
    pub third: i16,
}

pub fn write(summary: Summary) -> [u8; 15]
    ensures { result ≡ frame_of summary }
{
    let [a, b, c, d] = summary.live.to_be_bytes();
    let [e, f, g, h] = summary.adds.to_be_bytes();
    let [i, j] = summary.first.to_be_bytes();
    let [k, l] = summary.second.to_be_bytes();
    let [m, n] = summary.third.to_be_bytes();
    let kind = u8::from(Kind::Day);
    [kind, a, b, c, d, e, f, g, h, i, j, k, l, m, n]
}

// The summary of a frame: 2 if it has no byte, 3 if the first byte is not 05, 4 if there are not exactly 15 bytes.
pub fn read(frame: &[u8]) -> Result<Summary, Refusal>
    ensures { result ≡ read_of frame.now }
{
    if Kind::of(frame)? != Kind::Day {
        return Err(Refusal::Kind);
    }
    let &[_, a, b, c, d, e, f, g, h, i, j, k, l, m, n] = frame else {
        return Err(Refusal::Length);
    };
    Ok(Summary {
        live: u32::from_be_bytes([a, b, c, d]),
        adds: u32::from_be_bytes([e, f, g, h]),
        first: i16::from_be_bytes([i, j]),
        second: i16::from_be_bytes([k, l]),
        third: i16::from_be_bytes([m, n]),
    })
}

// One summary is one frame.
pub fn day_frames_are_canonical()
    ensures { OneDayFrame }
{}
