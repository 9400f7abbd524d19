// A speaker: it counts the samples that it plays, and adds them up as loud as the level makes them.
ghost use Rattle.std.specs.Prelude.{◌≡◌, ◌≤◌, slice_index};
ghost use Rattle.sound.specs.Samples.{heard, sample, played};
ghost use Rattle.sound.specs.Sounds.{sound_of};

use crate::class::Sound;
use crate::op::SoundOp;
use device::{Command, Device, permitted, put_counters};

// The bound on a level stands here and in `play` alone, so a type of its own would be no plainer.
fn add_sample(total: u32, level: u32, pair: [u8; 2]) -> u32
    requires { level ≤ 256 }
    ensures { result ≡ heard level total (sample (slice_index pair 0) (slice_index pair 1)) }
{
    let s = i32::from(i16::from_le_bytes(pair));
    total.wrapping_add_signed(s * level as i32 / 256)
}

// The total after all samples of a payload.
fn play(from: u32, level: u32, payload: &[u8]) -> u32
    requires { level ≤ 256 }
    ensures { result ≡ played level from payload.now }
{
    let (pairs, _) = payload.as_chunks::<2>();
    pairs
        .iter()
        .fold(from, |total, pair| add_sample(total, level, *pair))
}

#[derive(Drop)]
pub struct Speaker {
    samples: u32,
    total: u32,
}

impl Speaker {
    pub fn new() -> Speaker
        ensures { sound_of result.samples result.total ≡ sound_of 0 0 }
    {
        Speaker {
            samples: 0,
            total: 0,
        }
    }
}

impl Device for Speaker {
    type C = Sound;

    ghost reach = { λ _. 1 };

    ghost contents = { λ d. sound_of d.samples d.total };

    fn reaches(&self) -> u32 {
        1
    }

    fn perform(&mut self, command: &Command<'_>, answer: &mut [u8]) -> usize {
        match permitted::<Sound>(self.reaches(), command, answer.len()) {
            Some(SoundOp::Play) => {
                let samples = (command.payload.len() / 2) as u32;
                self.samples = self.samples.wrapping_add(samples);
                self.total = play(self.total, command.level, command.payload);
                0
            }
            Some(SoundOp::Counters) => put_counters(answer, self.samples, self.total),
            None => 0,
        }
    }
}
