//! The stages over texts that look at one item at a time, as one stage that walks them.
ghost use Rattle.std.specs.Prelude.{◌≡◌, ◌≤◌, ◌<◌, ℕ, IsTrue, IfOk, OnOk, OnErr, List, ◌∷◌, Option, true, MatchBool, MatchOption, flat_map, length};
ghost use Rattle.std.specs.Ordering.{nat_cmp};
ghost use Rattle.std.specs.Cmp.Lexicographic.{slice_cmp};
ghost use Rattle.std.proofs.Math.ListN.{replicate};
ghost use Rattle.file_words.specs.Words.{words_of};
ghost use Rattle.pipeline_meaning.specs.Walks.{row_of, size_of, IsStep};
ghost use Rattle.pipeline_meaning.specs.TextSteps.{text_images, text_step_images, walked_images, Follows, IsFewer, words_left, letters_left, is_map_step, only_maps, KeepsSound-text_steps};
ghost use Rattle.pipeline_meaning.specs.Stages.{text_stage, is_barrier_stage, is_map_stage};

use crate::TextCheck;
use file_words::first_word;
use pipeline_language::{Expansion, TextStage};
use spliterator::{NoMemory, Text};
use stages::{Operation, Sink, Stage, Test};
use std::alloc::Global;

/// One stage, prepared.
#[derive(Clone, Copy)]
enum TextStep<'a> {
    Itself,
    Filter(TextCheck<'a>),
    Repeat(u64),
    Words,
}

// About how many words a text has.
const WORDS: u64 = 16;

impl<'a> TextStep<'a> {
    // `None` for a stage that looks at more than one item.
    fn of(stage: &TextStage<'a>) -> Option<TextStep<'a>>
        ensures { MatchOption result (IsTrue (is_barrier_stage stage.now)) (λ step. IsStep text_step_images text_stage is_map_step is_map_stage step stage.now) }
    {
        match stage {
            TextStage::Map(()) => Some(TextStep::Itself),
            TextStage::Filter(test) => Some(TextStep::Filter(TextCheck::of(*test))),
            TextStage::FlatMap(Expansion::Repeat(n)) => Some(TextStep::Repeat(*n)),
            TextStage::FlatMap(Expansion::Words) => Some(TextStep::Words),
            TextStage::Barrier(_) => None,
        }
    }

    fn is_map(&self) -> bool
        ensures { result ≡ is_map_step self.now }
    {
        matches!(self, TextStep::Itself)
    }

    // About how many texts come of one.
    fn growth(&self) -> u64 {
        match self {
            TextStep::Repeat(n) => *n,
            TextStep::Words => WORDS,
            _ => 1,
        }
    }
}

/// Stages over texts up to the first that looks at more than one item, as one stage: a text walks through them.
#[derive(Drop)]
pub struct TextSteps<'a> {
    steps: Vec<TextStep<'a>>,
}

impl<'a> TextSteps<'a> {
    /// No stage.
    pub fn new(alloc: Global) -> TextSteps<'a>
        ensures means { (l : List (List ℕ)) → flat_map (⟦<TextSteps<'static> as Stage>⟧.expand result) l ≡ l }
        ensures size { (size : Option ℕ) → ⟦<TextSteps<'static> as Stage>⟧.size_after result size ≡ size }
    {
        TextSteps {
            steps: Vec::new(alloc),
        }
    }

    /// Puts a stage behind the others. Says whether it did: it doesn't put a stage that looks at more than one item.
    pub fn put(&mut self, stage: &TextStage<'a>) -> Result<bool, NoMemory>
        ensures { IfOk result (λ is_put. MatchBool is_put (Follows stage.now self.old self.new)
            (IsTrue (is_barrier_stage stage.now) × (self.new ≡ self.old))) }
    {
        match TextStep::of(stage) {
            Some(step) => {
                self.steps.push(step)?;
                Ok(true)
            }
            None => Ok(false),
        }
    }

    // Whether each text is its own image, with no step.
    fn is_nothing(&self) -> bool
        ensures { result ≡ true → (l : List (List ℕ)) → flat_map (text_images self.now.steps.items) l ≡ l }
    {
        matches!(self.steps.as_slice(), [])
    }

    // Whether each text has one image.
    fn keeps_size(&self) -> bool
        ensures { result ≡ only_maps self.now.steps.items }
    {
        self.steps.iter().all(TextStep::is_map)
    }
}

/// A text that can be cut at its spaces. The cycle of calls below is over this trait, since none can be over a bound that names a lifetime.
trait Cut: Text + Copy {
    /// What stands before the first space, and what follows it.
    fn first_word(self) -> (Self, Option<Self>)
        ensures words { words_of (Self.content self) ≡ Self.content result.0 ∷ words_left Self.content result.1 }
        ensures shorter { letters_left Self.content result.1 ≤ length (Self.content self) };
}

impl Cut for &str {
    fn first_word(self) -> (Self, Option<Self>) {
        first_word(self)
    }
}

/// How far a text goes before it is dropped, copied or cut.
enum Walked<'s, 'a> {
    Passed,
    Dropped,
    /// So many copies of the text have these steps before them.
    Copied(u64, &'s [TextStep<'a>]),
    /// Its words have these steps before them.
    Cut(&'s [TextStep<'a>]),
}

// Walks a text through the steps up to the first that gives several.
#[inline(always)]
fn walk<'s, 'a, T: Cut>(steps: &'s [TextStep<'a>], text: &T) -> Walked<'s, 'a>
    ensures images { walked_images (T.content text.now) result ≡ text_images steps.now (T.content text.now) }
    ensures fewer { IsFewer result (length steps.now) }
{
    for (place, step) in steps.iter().enumerate() {
        match step {
            TextStep::Itself => {}
            TextStep::Filter(check) => {
                if !check.holds(text) {
                    return Walked::Dropped;
                }
            }
            TextStep::Repeat(n) => return Walked::Copied(*n, &steps[place + 1..]),
            TextStep::Words => return Walked::Cut(&steps[place + 1..]),
        }
    }
    Walked::Passed
}

// Walks a text through the steps, into a sink.
#[cycle(feeding_texts)]
fn feed_steps<T: Cut, K: Sink<T>>(
    steps: &[TextStep<'_>],
    text: T,
    sink: &mut K,
) -> Result<(), NoMemory>
    requires { K.ready sink.old }
    ensures taken { OnOk result (K.takes sink.old (text_images steps.now (T.content text)) sink.new) }
    ensures spoilt { OnErr result (K.spoils sink.old sink.new) }
{
    match walk(steps, &text) {
        Walked::Passed => sink.take(text),
        Walked::Dropped => Ok(()),
        Walked::Copied(n, rest) => feed_copies(n, rest, text, sink),
        Walked::Cut(rest) => feed_words(rest, text, sink),
    }
}

// The same of copies of a text, as long as they make a difference.
#[cycle(feeding_texts)]
fn feed_copies<T: Cut, K: Sink<T>>(
    n: u64,
    steps: &[TextStep<'_>],
    text: T,
    sink: &mut K,
) -> Result<(), NoMemory>
    requires { K.ready sink.old }
    ensures taken { OnOk result (K.takes sink.old (flat_map (text_images steps.now) (replicate n (T.content text))) sink.new) }
    ensures spoilt { OnErr result (K.spoils sink.old sink.new) }
{
    for _ in 0..n {
        if sink.is_full() {
            return Ok(());
        }
        feed_steps(steps, text, sink)?;
    }
    Ok(())
}

// The same of the words of a text.
#[cycle(feeding_texts)]
fn feed_words<T: Cut, K: Sink<T>>(
    steps: &[TextStep<'_>],
    text: T,
    sink: &mut K,
) -> Result<(), NoMemory>
    requires { K.ready sink.old }
    ensures taken { OnOk result (K.takes sink.old (flat_map (text_images steps.now) (words_of (T.content text))) sink.new) }
    ensures spoilt { OnErr result (K.spoils sink.old sink.new) }
{
    let mut left = Some(text);
    while let Some(text) = left {
        if sink.is_full() {
            return Ok(());
        }
        let (word, later) = text.first_word();
        feed_steps(steps, word, sink)?;
        left = later;
    }
    Ok(())
}

impl<'a> Stage for TextSteps<'a> {
    type In = &'a str;

    type Out = &'a str;

    ghost expand = { λ s. text_images s.steps.items };

    ghost operation = { λ s. row_of (only_maps s.steps.items) };

    ghost size_after = { λ s. size_of (only_maps s.steps.items) };

    ghost flag_law = { λ s. KeepsSound-text_steps (slice_cmp nat_cmp) s.steps.items };

    // The walk of a text that gives one at most makes no call, so that a loop over texts can hold it whole.
    fn feed<K: Sink<&'a str>>(&self, x: &'a str, sink: &mut K) -> Result<(), NoMemory> {
        match walk(&self.steps, &x) {
            Walked::Passed => sink.take(x),
            Walked::Dropped => Ok(()),
            Walked::Copied(n, rest) => feed_copies(n, rest, x, sink),
            Walked::Cut(rest) => feed_words(rest, x, sink),
        }
    }

    fn lent_block<'b>(&'b self, items: &'b [&'a str]) -> Option<&'b [&'a str]> {
        if self.is_nothing() { Some(items) } else { None }
    }

    fn growth(&self) -> u64 {
        let mut growth: u64 = 1;
        for step in self.steps.iter() {
            growth = growth.saturating_mul(step.growth());
        }
        growth.max(1)
    }

    fn operation(&self) -> Operation {
        if self.keeps_size() {
            Operation::Map
        } else {
            Operation::FlatMap
        }
    }

    fn size_after(&self, size: Option<u64>) -> Option<u64> {
        if self.keeps_size() { size } else { None }
    }
}
