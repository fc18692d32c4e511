//! Things of a line, for the items that come to it.

ghost use Rattle.std.specs.Prelude.{Option};
ghost use Rattle.pipeline_language.specs.Content.{number_base, number_function, number_inner, number_stage, number_summary, number_terminal, number_test, text_base, text_function, text_inner, text_merge, text_summary, text_terminal, text_test, text_value, Takes, number_line_content, text_line_content, value_takes, base_content, body_line_content, condition_content, inner_content, stage_content, summary_content, terminal_content};
ghost use Rattle.pipeline_language.specs.declared.grammar.Line.TheVariants as body_lines;
ghost use Rattle.pipeline_language.specs.Syntax.{NumberKind, TextKind, base_takes, body_takes, function_takes, inner_takes, merge_takes, own_takes, stage_takes, summary_takes, terminal_takes};

use crate::grammar::{
    Barrier, Base, Expansion, Function, Inner, Line, Merge, NumberTest, OfKind, Stage, Summary,
    Terminal,
};
use crate::pipeline::{
    Mapped, NumberBase, NumberFunction, NumberInner, NumberStage, NumberSummary, NumberTerminal,
    TextBase, TextFunction, TextInner, TextMerge, TextStage, TextSummary, TextTerminal, TextTest,
    TextValue,
};
use crate::syntax::{AnyBase, AnyCondition, AnyInner, AnyStage, AnySummary, AnyTerminal, BodyLine};

/// The most stage lines of a file.
pub const MOST_STAGES: usize = 32;

/// A line over numbers.
pub type NumberLine = Line<NumberStage, NumberTerminal>;

/// A line over texts.
#[derive(Clone, Copy)]
pub enum TextLine<'a> {
    Stage(TextStage<'a>),
    /// `map length`.
    Lengths,
    Terminal(TextTerminal<'a>),
}

/// A line over numbers.
pub(crate) fn number_line(line: BodyLine<'_>) -> Option<NumberLine>
    ensures { Takes number_line_content (body_takes NumberKind) (body_line_content line.entry) result }
{
    match line {
        Line::Stage(stage) => Some(Line::Stage(number_stage(stage)?)),
        Line::Terminal(terminal) => Some(Line::Terminal(number_terminal(terminal)?)),
    }
}

/// A line over texts.
pub(crate) fn text_line(line: BodyLine<'_>) -> Option<TextLine<'_>>
    ensures { Takes text_line_content (body_takes TextKind) (body_line_content line.entry) result }
{
    match line {
        Line::Stage(stage) => text_stage(stage),
        Line::Terminal(terminal) => Some(TextLine::Terminal(text_terminal(terminal)?)),
    }
}

/// A stage over numbers.
fn number_stage(stage: AnyStage<'_>) -> Option<NumberStage>
    ensures { Takes number_stage (stage_takes NumberKind) (stage_content stage.entry) result }
{
    match stage {
        Stage::Map(function) => Some(Stage::Map(number_function(function)?)),
        Stage::Filter(test) => Some(Stage::Filter(number_test(test)?)),
        Stage::FlatMap(Expansion::Repeat(count)) => Some(Stage::FlatMap(count)),
        Stage::FlatMap(Expansion::Words) => None,
        Stage::Barrier(barrier) => Some(Stage::Barrier(match barrier {
            Barrier::Distinct => Barrier::Distinct,
            Barrier::Counted(part, count) => Barrier::Counted(part, count),
            Barrier::While(part, test) => Barrier::While(part, number_test(test)?),
        })),
    }
}

/// A stage over texts.
fn text_stage(stage: AnyStage<'_>) -> Option<TextLine<'_>>
    ensures { Takes text_line_content (body_takes TextKind) (body_line_content (body_lines.Stage stage.entry)) result }
{
    let stage = match stage {
        Stage::Map(function) => match text_function(function)? {
            TextFunction::Length => return Some(TextLine::Lengths),
            TextFunction::Itself => Stage::Map(()),
        },
        Stage::Filter(test) => Stage::Filter(text_test(test)?),
        Stage::FlatMap(expansion) => Stage::FlatMap(expansion),
        Stage::Barrier(barrier) => Stage::Barrier(match barrier {
            Barrier::Distinct => Barrier::Distinct,
            Barrier::Counted(part, count) => Barrier::Counted(part, count),
            Barrier::While(part, test) => Barrier::While(part, text_test(test)?),
        }),
    };
    Some(TextLine::Stage(stage))
}

/// A terminal of numbers.
fn number_terminal(terminal: AnyTerminal<'_>) -> Option<NumberTerminal>
    ensures { Takes number_terminal (terminal_takes NumberKind) (terminal_content terminal.entry) result }
{
    match terminal {
        Terminal::Whole(made) => Some(Terminal::Whole(made)),
        Terminal::Match(of, test) => Some(Terminal::Match(of, number_test(test)?)),
        Terminal::GroupBy(key, collector) => {
            Some(Terminal::GroupBy(number_function(key)?, number_summary(collector)?))
        }
        Terminal::Partition(test, collector) => {
            Some(Terminal::Partition(number_test(test)?, number_summary(collector)?))
        }
        Terminal::ToMap(key, (value, merge)) => {
            Some(Terminal::ToMap(number_function(key)?, (number_function(value)?, merge)))
        }
        Terminal::ToMapStrict(key, value) => {
            Some(Terminal::ToMapStrict(number_function(key)?, number_function(value)?))
        }
        Terminal::Teeing(one, other) => {
            Some(Terminal::Teeing(number_summary(one)?, number_summary(other)?))
        }
        Terminal::Own(OfKind::OfNumbers(total)) => Some(Terminal::Own(total)),
        Terminal::Own(OfKind::OfTexts(_)) => None,
    }
}

/// A terminal of texts.
fn text_terminal(terminal: AnyTerminal<'_>) -> Option<TextTerminal<'_>>
    ensures { Takes text_terminal (terminal_takes TextKind) (terminal_content terminal.entry) result }
{
    match terminal {
        Terminal::Whole(made) => Some(Terminal::Whole(made)),
        Terminal::Match(of, test) => Some(Terminal::Match(of, text_test(test)?)),
        Terminal::GroupBy(key, collector) => {
            Some(Terminal::GroupBy(text_function(key)?, text_summary(collector)?))
        }
        Terminal::Partition(test, collector) => {
            Some(Terminal::Partition(text_test(test)?, text_summary(collector)?))
        }
        Terminal::ToMap(key, (value, merge)) => Some(Terminal::ToMap(
            text_function(key)?,
            text_value(value, merge)?,
        )),
        Terminal::ToMapStrict(key, value) => {
            Some(Terminal::ToMapStrict(text_function(key)?, text_function(value)?))
        }
        Terminal::Teeing(one, other) => {
            Some(Terminal::Teeing(text_summary(one)?, text_summary(other)?))
        }
        Terminal::Own(OfKind::OfNumbers(_)) => None,
        Terminal::Own(OfKind::OfTexts(joint)) => Some(Terminal::Own(joint)),
    }
}

fn number_function(function: Function) -> Option<NumberFunction>
    ensures { Takes number_function (function_takes NumberKind) function result }
{
    match function {
        Function::Change(change) => Some(NumberFunction::Change(change)),
        Function::Mod(n) => Some(NumberFunction::Mod(n)),
        Function::Length => None,
        Function::Itself => Some(NumberFunction::Itself),
    }
}

fn text_function(function: Function) -> Option<TextFunction>
    ensures { Takes text_function (function_takes TextKind) function result }
{
    match function {
        Function::Length => Some(TextFunction::Length),
        Function::Itself => Some(TextFunction::Itself),
        _ => None,
    }
}

fn number_test(test: AnyCondition<'_>) -> Option<NumberTest>
    ensures { Takes number_test (own_takes NumberKind) (condition_content test.entry) result }
{
    match test {
        OfKind::OfNumbers(test) => Some(test),
        OfKind::OfTexts(_) => None,
    }
}

fn text_test(test: AnyCondition<'_>) -> Option<TextTest<'_>>
    ensures { Takes text_test (own_takes TextKind) (condition_content test.entry) result }
{
    match test {
        OfKind::OfNumbers(_) => None,
        OfKind::OfTexts(test) => Some(test),
    }
}

fn number_base(base: AnyBase<'_>) -> Option<NumberBase>
    ensures { Takes number_base (base_takes NumberKind) (base_content base.entry) result }
{
    match base {
        Base::Count => Some(Base::Count),
        Base::First => Some(Base::First),
        Base::ToList => Some(Base::ToList),
        Base::Own(OfKind::OfNumbers(own)) => Some(Base::Own(own)),
        Base::Own(OfKind::OfTexts(_)) => None,
    }
}

fn number_inner(inner: AnyInner<'_>) -> Option<NumberInner>
    ensures { Takes number_inner (inner_takes NumberKind) (inner_content inner.entry) result }
{
    match inner {
        Inner::Base(base) => Some(Inner::Base(number_base(base)?)),
        Inner::Mapping((function, base)) => {
            Some(Inner::Mapping((number_function(function)?, number_base(base)?)))
        }
        Inner::Filtering(test, base) => {
            Some(Inner::Filtering(number_test(test)?, number_base(base)?))
        }
    }
}

fn number_summary(summary: AnySummary<'_>) -> Option<NumberSummary>
    ensures { Takes number_summary (summary_takes NumberKind) (summary_content summary.entry) result }
{
    match summary {
        Summary::Base(base) => Some(Summary::Base(number_base(base)?)),
        Summary::Mapping((function, inner)) => {
            Some(Summary::Mapping((number_function(function)?, number_inner(inner)?)))
        }
        Summary::Filtering(test, inner) => {
            Some(Summary::Filtering(number_test(test)?, number_inner(inner)?))
        }
        Summary::GroupBy(key, inner) => {
            Some(Summary::GroupBy(number_function(key)?, number_inner(inner)?))
        }
    }
}

fn text_base(base: AnyBase<'_>) -> Option<TextBase<'_>>
    ensures { Takes text_base (base_takes TextKind) (base_content base.entry) result }
{
    match base {
        Base::Count => Some(Base::Count),
        Base::First => Some(Base::First),
        Base::ToList => Some(Base::ToList),
        Base::Own(OfKind::OfTexts(own)) => Some(Base::Own(own)),
        Base::Own(OfKind::OfNumbers(_)) => None,
    }
}

fn text_inner(inner: AnyInner<'_>) -> Option<TextInner<'_>>
    ensures { Takes text_inner (inner_takes TextKind) (inner_content inner.entry) result }
{
    match inner {
        Inner::Base(base) => Some(Inner::Base(text_base(base)?)),
        Inner::Mapping((function, base)) => match text_function(function)? {
            TextFunction::Length => Some(Inner::Mapping(Mapped::Length(number_base(base)?))),
            TextFunction::Itself => Some(Inner::Mapping(Mapped::Itself(text_base(base)?))),
        },
        Inner::Filtering(test, base) => Some(Inner::Filtering(text_test(test)?, text_base(base)?)),
    }
}

fn text_summary(summary: AnySummary<'_>) -> Option<TextSummary<'_>>
    ensures { Takes text_summary (summary_takes TextKind) (summary_content summary.entry) result }
{
    match summary {
        Summary::Base(base) => Some(Summary::Base(text_base(base)?)),
        Summary::Mapping((function, inner)) => match text_function(function)? {
            TextFunction::Length => Some(Summary::Mapping(Mapped::Length(number_inner(inner)?))),
            TextFunction::Itself => Some(Summary::Mapping(Mapped::Itself(text_inner(inner)?))),
        },
        Summary::Filtering(test, inner) => {
            Some(Summary::Filtering(text_test(test)?, text_inner(inner)?))
        }
        Summary::GroupBy(key, inner) => {
            Some(Summary::GroupBy(text_function(key)?, text_inner(inner)?))
        }
    }
}

fn text_merge(merge: Merge) -> Option<TextMerge>
    ensures { Takes text_merge (merge_takes TextKind) merge result }
{
    match merge {
        Merge::First => Some(TextMerge::First),
        Merge::Last => Some(TextMerge::Last),
        _ => None,
    }
}

/// The value of a text, and the merge of two.
fn text_value(value: Function, merge: Merge) -> Option<TextValue>
    ensures { Takes text_value value_takes (value, merge) result }
{
    match text_function(value)? {
        TextFunction::Length => Some(Mapped::Length(merge)),
        TextFunction::Itself => Some(Mapped::Itself(text_merge(merge)?)),
    }
}
