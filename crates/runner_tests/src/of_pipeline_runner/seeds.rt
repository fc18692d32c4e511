//! The seeds of the hashes, from random bytes of the tests' own.

use super::gates::Watch;
use super::{Case, run_drawing};
use std::io;
use std::random::RandomSource;
use std::sync::atomic::{AtomicU64, Ordering};
use std::test::Fail;
use std::thread::Threads;
use std::time::{Clock, Duration};

/// A runtime whose random bytes are 0, 1, 2 and so on, from one draw to the next. All runs of the tests have it: a second one would be one more copy of
/// a run in the compiled tests.
#[derive(Drop)]
pub struct Drawing<'a, R> {
    pub rt: &'a R,
    drawn: AtomicU64,
}

impl<'a, R> Drawing<'a, R> {
    pub fn new(rt: &'a R) -> Drawing<'a, R> {
        Drawing {
            rt,
            drawn: AtomicU64::new(0),
        }
    }
}

impl<R: Threads> Threads for Drawing<'_, R> {}

impl<R: Clock> Clock for Drawing<'_, R> {
    fn monotonic(&self) -> io::Result<Duration> {
        self.rt.monotonic()
    }

    fn since_1970(&self) -> io::Result<Duration> {
        self.rt.since_1970()
    }
}

impl<R> RandomSource for Drawing<'_, R> {
    fn fill_bytes(&self, buf: &mut [u8]) -> io::Result<()> {
        for place in buf.iter_mut() {
            *place = (self.drawn.fetch_add(1, Ordering::SeqCst) % 256) as u8;
        }
        Ok(())
    }
}

const GROUPS: &[u8] = b"pipeline 1\nnumbers 5 2 7 4 5\ngroupby self counting\n";

// The first run draws the bytes 0 to 15, and the second 16 to 31.
#[test]
fn are_drawn_anew_by_each_run(rt: HostRuntime) -> Result<(), Fail> {
    let drawing = Drawing::new(&rt);
    for drawn in [16u64, 32] {
        let case = Case::of(GROUPS, 1, 0);
        let (_, written) = run_drawing(&drawing, rt.alloc(), &case, &Watch::new(false))?;
        assert!(rt;
            written.as_str() == "{5=2, 2=1, 7=1, 4=1}\n"
                && drawing.drawn.load(Ordering::SeqCst) == drawn,
            "{written}"
        );
    }
    Ok(())
}
