//! The parts of a timeline's picture, as SVG.
use std::fmt::{self, Display, Formatter, Write};

/// How long a row is, in pixels.
const LENGTH: u64 = 1060;

/// Where the first row begins, and how far the next one is from it.
const TOP: u64 = 64;

const PITCH: u64 = 28;

/// The most parts of the axis.
const PARTS: u64 = 10;

const SECOND: u64 = 1_000_000_000;

const STYLE: &str =
    "text{font:12px sans-serif;fill:#333}.a{fill:#1c5a9e}.b{fill:#5fa8e6}.row{fill:#eee}.tick{stroke:#ccc}.title{font-size:16px}";

const NOTE: &str =
    "A row a worker, with the part of the time that it was busy; a bar a leaf, in dark and light blue by turns of runs";

/// A leaf that was run, with its beginning and end in nanoseconds.
#[derive(Clone, Copy)]
pub(crate) struct Bar {
    pub(crate) run: u64,
    pub(crate) worker: u64,
    pub(crate) leaf: u64,
    pub(crate) begin: u64,
    pub(crate) end: u64,
}

impl Bar {
    /// How long it took.
    pub(crate) fn nanos(&self) -> u64 {
        self.end.saturating_sub(self.begin)
    }
}

/// What a picture is of.
#[derive(Clone, Copy)]
pub(crate) struct Drawing {
    runs: u64,
    ended: u64,
    // how many leaves are drawn, of how many workers, and when the last one ended
    drawn: u64,
    pub(crate) workers: u64,
    span: u64,
}

impl Drawing {
    /// Of no bar yet, and of so many runs and leaves.
    pub(crate) fn new(runs: u64, ended: u64) -> Drawing {
        Drawing {
            runs,
            ended,
            drawn: 0,
            workers: 0,
            span: 1,
        }
    }

    /// Makes room for a bar.
    pub(crate) fn add(&mut self, bar: &Bar) {
        self.drawn = self.drawn.saturating_add(1);
        self.workers = self.workers.max(bar.worker.saturating_add(1));
        self.span = self.span.max(bar.end);
    }

    /// Where the rows end.
    fn bottom(&self) -> u64 {
        self.workers.saturating_mul(PITCH).saturating_add(TOP)
    }

    /// So much of the axis, in hundredths of a pixel.
    fn length(&self, nanos: u64) -> Hundredths {
        let whole = u128::from(LENGTH * 100);
        let part = u128::from(nanos).saturating_mul(whole) / u128::from(self.span.max(1));
        Hundredths(u64::try_from(part).unwrap_or(u64::MAX))
    }

    /// The picture's beginning, on white.
    pub(crate) fn write_frame<W: Write>(&self, f: &mut Formatter<W>) -> fmt::Result {
        let height = self.bottom().saturating_add(30);
        writeln!(
            f,
            "<svg xmlns=\"http://www.w3.org/2000/svg\" width=\"1200\" height=\"{height}\">\n<style>{STYLE}</style>"
        )?;
        writeln!(
            f,
            "<rect width=\"1200\" height=\"{height}\" fill=\"#fff\"/>"
        )
    }

    /// What stands above the rows.
    pub(crate) fn write_title<W: Write>(&self, f: &mut Formatter<W>) -> fmt::Result {
        write!(
            f,
            "<text x=\"80\" y=\"26\" class=\"title\">workers: {}, runs: {}, leaves: {}",
            self.workers, self.runs, self.ended
        )?;
        if self.drawn < self.ended {
            write!(f, ", of which the first {} are shown", self.drawn)?;
        }
        writeln!(f, "</text>\n<text x=\"80\" y=\"46\">{NOTE}</text>")
    }

    /// The axis, with a line for each part.
    pub(crate) fn write_axis<W: Write>(&self, f: &mut Formatter<W>) -> fmt::Result {
        let (step, bottom) = (step_of(self.span), self.bottom());
        for part in 0..=PARTS {
            let at = step.saturating_mul(part);
            if self.span < at {
                break;
            }
            self.write_tick(f, Tick { nanos: at, step }, bottom)?;
        }
        Ok(())
    }

    fn write_tick<W: Write>(&self, f: &mut Formatter<W>, tick: Tick, bottom: u64) -> fmt::Result {
        let (x, y) = (self.length(tick.nanos), bottom.saturating_add(18));
        writeln!(
            f,
            "<g transform=\"translate(80,0)\"><path class=\"tick\" d=\"M{x} 64V{bottom}\"/><text x=\"{x}\" y=\"{y}\" text-anchor=\"middle\">{tick} s</text></g>"
        )
    }

    /// The beginning of a worker's row.
    pub(crate) fn write_row<W: Write>(&self, f: &mut Formatter<W>, worker: u64) -> fmt::Result {
        let top = worker.saturating_mul(PITCH).saturating_add(TOP);
        writeln!(
            f,
            "<g transform=\"translate(80,{top})\"><text x=\"-8\" y=\"15\" text-anchor=\"end\">worker {worker}</text><rect class=\"row\" width=\"1060\" height=\"22\"/>"
        )
    }

    /// A leaf in its worker's row. A little of its end is left free, to tell it from the next.
    pub(crate) fn write_bar<W: Write>(&self, f: &mut Formatter<W>, bar: &Bar) -> fmt::Result {
        let (begin, end) = (self.length(bar.begin), self.length(bar.end));
        let length = end.0.saturating_sub(begin.0);
        let length = Hundredths(length - (length / 8).min(60));
        let class = if bar.run % 2 == 0 { "b" } else { "a" };
        writeln!(
            f,
            "<rect class=\"{class}\" x=\"{begin}\" width=\"{length}\" height=\"22\"><title>run {}, leaf {}: {} to {} s</title></rect>",
            bar.run,
            bar.leaf,
            Micros(bar.begin),
            Micros(bar.end)
        )
    }

    /// The end of a worker's row, which was busy for so long.
    pub(crate) fn write_row_end<W: Write>(&self, f: &mut Formatter<W>, busy: u64) -> fmt::Result {
        let percent = busy.saturating_mul(100) / self.span.max(1);
        let place = LENGTH + 8;
        writeln!(f, "<text x=\"{place}\" y=\"15\">{percent}%</text></g>")
    }
}

/// The nanoseconds of a part of the axis: one, two or five times a power of ten.
fn step_of(span: u64) -> u64 {
    let mut step = 1u64;
    for _ in 0..60 {
        if span / step.max(1) < PARTS {
            break;
        }
        step = next_step(step);
    }
    step
}

/// The next greater one of these numbers: of two, five and ten times a power of ten.
fn next_step(step: u64) -> u64 {
    let mut first = step;
    for _ in 0..20 {
        if first < 10 {
            break;
        }
        first /= 10;
    }
    if first == 2 {
        step.saturating_mul(5) / 2
    } else {
        step.saturating_mul(2)
    }
}

/// A number of hundredths.
#[derive(Clone, Copy)]
struct Hundredths(u64);

impl Display for Hundredths {
    fn fmt<W: Write>(&self, f: &mut Formatter<W>) -> fmt::Result {
        write!(f, "{}.{:02}", self.0 / 100, self.0 % 100)
    }
}

/// Nanoseconds as seconds, to the thousandth.
#[derive(Clone, Copy)]
struct Millis(u64);

impl Display for Millis {
    fn fmt<W: Write>(&self, f: &mut Formatter<W>) -> fmt::Result {
        write!(f, "{}.{:03}", self.0 / SECOND, self.0 % SECOND / 1_000_000)
    }
}

/// Nanoseconds as seconds, to the millionth.
#[derive(Clone, Copy)]
struct Micros(u64);

impl Display for Micros {
    fn fmt<W: Write>(&self, f: &mut Formatter<W>) -> fmt::Result {
        write!(f, "{}.{:06}", self.0 / SECOND, self.0 % SECOND / 1_000)
    }
}

/// The nanoseconds at a line of the axis as seconds, as far as the axis tells them apart.
#[derive(Clone, Copy)]
struct Tick {
    nanos: u64,
    step: u64,
}

impl Display for Tick {
    fn fmt<W: Write>(&self, f: &mut Formatter<W>) -> fmt::Result {
        if SECOND <= self.step {
            write!(f, "{}", self.nanos / SECOND)
        } else if SECOND / 10 <= self.step {
            let tenths = self.nanos % SECOND / (SECOND / 10);
            write!(f, "{}.{tenths}", self.nanos / SECOND)
        } else if SECOND / 1_000 <= self.step {
            write!(f, "{}", Millis(self.nanos))
        } else {
            write!(f, "{}", Micros(self.nanos))
        }
    }
}
