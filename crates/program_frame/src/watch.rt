//! What watches a run, and what becomes of it at the end.
use crate::failure::failed;
use crate::{Answer, Failure, Host};
use clap::ArgMatches;
use mohairjade::{GatePair, Looks, Meter, Timeline};
use std::fs;
use std::io::{self, BufWriter, Write};
use std::rt::Files;
use std::time::Clock;

/// How many leaves a timeline shows.
const MOST_LEAVES: usize = 16_384;

/// The gate of a program's run: a meter on standard error and a timeline, each where it is asked for.
pub type WatchGate<'a, R> = GatePair<Meter<'a, R>, Timeline<'a, R>>;

/// What watches a program's run.
#[derive(Drop)]
pub struct Watch<'a, R: Files> {
    rt: &'a R,
    pub(crate) gate: WatchGate<'a, R>,
    /// The file of the timeline, and its name.
    picture: Option<(R::File, String)>,
}

impl<'a, R: Host + Files + Clock> Watch<'a, R> {
    /// What the words ask for. The file of a timeline is made here, so that one that can't be written is told before any work.
    pub fn new(
        rt: &'a R,
        is_terminal: bool,
        words: &ArgMatches<'_>,
    ) -> Result<Watch<'a, R>, Failure> {
        let is_metered = words.get_flag("progress");
        let meter = is_metered.then(|| Meter::new(rt, Looks::of_terminal(rt, is_terminal)));
        let Some(name) = words.get_str("timeline") else {
            let gate = GatePair {
                first: meter,
                second: None,
            };
            return Ok(Watch {
                rt,
                gate,
                picture: None,
            });
        };
        let file = fs::create(rt, name).map_err(|error| failed(rt.alloc(), name, error))?;
        let gate = GatePair {
            first: meter,
            second: Some(Timeline::new(rt, rt.alloc(), MOST_LEAVES)?),
        };
        let name = String::from_str(rt.alloc(), name)?;
        Ok(Watch {
            rt,
            gate,
            picture: Some((file, name)),
        })
    }

    /// Ends a bar, and writes the timeline. Where it can't be written that is told behind the answer.
    pub fn end(self, answer: Result<Answer, Failure>) -> Result<Answer, Failure> {
        let Watch { rt, gate, picture } = self;
        if let Some(meter) = &gate.first {
            meter.finish();
        }
        let (Some((file, name)), Some(timeline)) = (picture, &gate.second) else {
            return answer;
        };
        match (draw(rt, file, timeline), answer) {
            (Err(error), Ok(Answer { text, fault: None })) => Ok(Answer {
                text,
                fault: Some(failed(rt.alloc(), &name, error)),
            }),
            (Err(error), answer) => {
                let _told = eprintln!(rt; "{name}: {error}");
                answer
            }
            (Ok(()), answer) => answer,
        }
    }
}

/// Writes a timeline's picture to a file, in blocks.
fn draw<R: Host + Files + Clock>(
    rt: &R,
    file: R::File,
    timeline: &Timeline<'_, R>,
) -> io::Result<()> {
    let mut writer = BufWriter::new(rt.alloc(), file)?;
    write!(writer, "{timeline}")?;
    writer.flush()
}
