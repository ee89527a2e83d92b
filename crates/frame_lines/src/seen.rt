//! What the lines said so far, and one line more.
use super::degrees::Degrees;
use super::said::Said;
use day_frame::Summary;
use frames::key_frames::Keys;
use frames::readings::Readings;
use hex_line::BYTES;
use keys::tag::Tag;
use refusals::Refusal;
use std::io;

#[derive(Default, Drop)]
pub(crate) struct Seen {
    frames: u64,
    refused: u64,
    readings: u64,
    missing: u64,
    tags: u64,
}

impl Seen {
    // Says what one line says.
    pub(crate) fn tell(&mut self, rt: &HostRuntime, line: &[u8]) -> io::Result<()> {
        let mut bytes = [0; BYTES];
        match Said::of(line, &mut bytes) {
            Ok(said) => self.tell_frame(rt, said),
            Err(refusal) => self.refuse(rt, refusal),
        }
    }

    fn refuse(&mut self, rt: &HostRuntime, refusal: Refusal) -> io::Result<()> {
        self.refused = self.refused.saturating_add(1);
        println!(rt; "refused: {refusal}")
    }

    fn tell_frame(&mut self, rt: &HostRuntime, said: Said) -> io::Result<()> {
        self.frames = self.frames.saturating_add(1);
        match said {
            Said::Readings(samples) => self.tell_readings(rt, samples),
            Said::Tags(tags) => self.tell_tags(rt, tags),
            Said::Day(day) => tell_day(rt, day),
        }
    }

    // The samples in order; a missing one is a dash.
    fn tell_readings(&mut self, rt: &HostRuntime, samples: Readings) -> io::Result<()> {
        print!(rt; "readings {}:", samples.change())?;
        for sample in samples {
            match sample {
                Some(reading) => {
                    self.readings = self.readings.saturating_add(1);
                    print!(rt; " {}", Degrees(reading))?;
                }
                None => {
                    self.missing = self.missing.saturating_add(1);
                    print!(rt; " -")?;
                }
            }
        }
        println!(rt; "")
    }

    // The tags in order, each as station and code.
    fn tell_tags(&mut self, rt: &HostRuntime, tags: Keys<Tag>) -> io::Result<()> {
        print!(rt; "tags {}:", tags.change())?;
        for tag in tags {
            self.tags = self.tags.saturating_add(1);
            print!(rt; " {}/{}", tag.station, tag.code)?;
        }
        println!(rt; "")
    }

    // What was seen in all.
    pub(crate) fn sum_up(&self, rt: &HostRuntime) -> io::Result<()> {
        println!(rt;
            "{} frames with {} readings, {} gaps and {} tags; {} lines refused",
            self.frames, self.readings, self.missing, self.tags, self.refused
        )
    }
}

fn tell_day(rt: &HostRuntime, day: Summary) -> io::Result<()> {
    println!(rt;
        "day: live {}, adds {}, quartiles {} {} {}",
        day.live,
        day.adds,
        Degrees(day.first),
        Degrees(day.second),
        Degrees(day.third)
    )
}
