// Times rounds of one piece of work.
use std::io;
use std::rt::Clock;
use std::time::{Duration, Instant};

// How long the rounds took, and how many of them came out.
#[derive(Clone, Copy)]
pub struct Timed {
    pub time: Duration,
    pub rounds: u32,
    pub done: u32,
}

impl Timed {
    // How long a round took.
    pub fn nanos(self) -> u128 {
        self.time.as_nanos() / u128::from(self.rounds.max(1))
    }

    // How many rounds a second.
    pub fn rate(self) -> u128 {
        u128::from(self.rounds) * 1_000_000_000 / self.time.as_nanos().max(1)
    }
}

// Times so many rounds; each says whether it came out.
pub fn time_rounds<F: FnMut() -> bool>(
    rt: &impl Clock,
    rounds: u32,
    mut round: F,
) -> io::Result<Timed>
    requires { F.IsAlwaysCallable round }
{
    let mut done: u32 = 0;
    let start = Instant::now(rt)?;
    for _ in 0..rounds {
        if round() {
            done = done.saturating_add(1);
        }
    }
    let time = start.elapsed(rt)?;
    Ok(Timed { time, rounds, done })
}
