//! What a line says, name by name, before the kind of the items is asked for.

ghost use Rattle.std.specs.Prelude.{Result};
ghost use Rattle.pipeline_language.specs.Content.{as_read, base_content, body_line_content, condition_content, count_content, inner_content, joint_content, summary_content, terminal_content};
ghost use Rattle.file_words.specs.WordReading.{GetsAs};
ghost use Rattle.pipeline_language.specs.Reading.{ReadAs, whole};
ghost use Rattle.pipeline_language.specs.Syntax.{any_natural, base_names, base_of, body_of, collecting_names, condition_of, expansion_of, function_of, inner_of, joint_of, merge_of, new_terminal_names, summary_of, terminal_names};
ghost use Rattle.file_words.specs.Words.{words_of};

use crate::grammar::{
    AllItems, Barrier, Base, Expansion, Function, Inner, Joint, Line, Merge, NumberChange,
    NumberOnly, NumberTest, NumberTotal, OfKind, Part, Quantifier, Stage, Summary, Terminal,
    TextCondition,
};
use crate::item_count::ItemCount;
use crate::version::Version;
use file_words::{FileError, Words};

pub(crate) type AnyCondition<'a> = OfKind<NumberTest, TextCondition<&'a str>>;

pub(crate) type AnyBase<'a> = Base<OfKind<NumberOnly, &'a str>>;

pub(crate) type AnyInner<'a> = Inner<(Function, AnyBase<'a>), AnyCondition<'a>, AnyBase<'a>>;

pub(crate) type AnySummary<'a> = Summary<
    Function,
    (Function, AnyInner<'a>),
    AnyCondition<'a>,
    AnyBase<'a>,
    AnyInner<'a>,
>;

pub(crate) type AnyStage<'a> = Stage<Function, AnyCondition<'a>, Expansion>;

pub(crate) type AnyTerminal<'a> = Terminal<
    Function,
    AnyCondition<'a>,
    AnySummary<'a>,
    (Function, Merge),
    OfKind<NumberTotal, Joint<&'a str>>,
>;

pub(crate) type BodyLine<'a> = Line<AnyStage<'a>, AnyTerminal<'a>>;

#[tactic(auto, unfolding(crate::specs::Syntax::function_of))]
fn read_function(words: &mut Words<'_>) -> Result<Function, FileError>
    ensures { GetsAs as_read (function_of words.old) result words.new }
{
    match words.any()? {
        "add" => Ok(Function::Change(NumberChange::Add(words.number(i64::MIN, i64::MAX)?))),
        "mul" => Ok(Function::Change(NumberChange::Mul(words.number(i64::MIN, i64::MAX)?))),
        "negate" => Ok(Function::Change(NumberChange::Negate)),
        "mod" => Ok(Function::Mod(words.number(1, i64::MAX)?)),
        "length" => Ok(Function::Length),
        "self" => Ok(Function::Itself),
        _ => Err(FileError::UnknownWord),
    }
}

#[tactic(auto, unfolding(crate::specs::Syntax::condition_of))]
fn read_condition<'a>(words: &mut Words<'a>) -> Result<AnyCondition<'a>, FileError>
    ensures { GetsAs condition_content (condition_of words.old) result words.new }
{
    match words.any()? {
        "less" => Ok(OfKind::OfNumbers(NumberTest::Less(words.number(i64::MIN, i64::MAX)?))),
        "greater" => Ok(OfKind::OfNumbers(NumberTest::Greater(words.number(i64::MIN, i64::MAX)?))),
        "equals" => Ok(OfKind::OfNumbers(NumberTest::Equals(words.number(i64::MIN, i64::MAX)?))),
        "divisible" => Ok(OfKind::OfNumbers(NumberTest::Divisible(words.number(1, i64::MAX)?))),
        "empty" => Ok(OfKind::OfTexts(TextCondition::Empty)),
        "starts" => Ok(OfKind::OfTexts(TextCondition::Starts(words.any()?))),
        "longer" => Ok(OfKind::OfTexts(TextCondition::Longer(words.natural(i64::MAX)?))),
        _ => Err(FileError::UnknownWord),
    }
}

#[tactic(auto, unfolding(crate::specs::Syntax::base_of))]
fn read_base<'a>(words: &mut Words<'a>) -> Result<AnyBase<'a>, FileError>
    ensures { GetsAs base_content (base_of words.old) result words.new }
{
    let name = words.any()?;
    base_named(name, words)
}

/// What is made at once, behind its name.
#[tactic(auto, unfolding(crate::specs::Syntax::base_names))]
fn base_named<'a>(name: &str, words: &mut Words<'a>) -> Result<AnyBase<'a>, FileError>
    ensures { GetsAs base_content (base_names name.now words.old) result words.new }
{
    match name {
        "count" | "counting" => Ok(Base::Count),
        "sum" => Ok(Base::Own(OfKind::OfNumbers(NumberOnly::Sum))),
        "max" => Ok(Base::Own(OfKind::OfNumbers(NumberOnly::Max))),
        "min" => Ok(Base::Own(OfKind::OfNumbers(NumberOnly::Min))),
        "first" => Ok(Base::First),
        "tolist" => Ok(Base::ToList),
        "joining" => Ok(Base::Own(OfKind::OfTexts(words.any()?))),
        _ => Err(FileError::UnknownWord),
    }
}

#[tactic(auto, unfolding(crate::specs::Syntax::inner_of))]
fn read_inner<'a>(words: &mut Words<'a>) -> Result<AnyInner<'a>, FileError>
    ensures { GetsAs inner_content (inner_of words.old) result words.new }
{
    match words.any()? {
        "mapping" => Ok(Inner::Mapping((read_function(words)?, read_base(words)?))),
        "filtering" => Ok(Inner::Filtering(read_condition(words)?, read_base(words)?)),
        name => Ok(Inner::Base(base_named(name, words)?)),
    }
}

#[tactic(auto, unfolding(crate::specs::Syntax::summary_of, crate::specs::Syntax::summary_names))]
fn read_summary<'a>(version: Version, words: &mut Words<'a>) -> Result<AnySummary<'a>, FileError>
    ensures { GetsAs summary_content (summary_of version words.old) result words.new }
{
    let name = words.any()?;
    Ok(match (version, name) {
        (Version::Two, "mapping") => Summary::Mapping((read_function(words)?, read_inner(words)?)),
        (Version::Two, "filtering") => Summary::Filtering(
            read_condition(words)?,
            read_inner(words)?,
        ),
        (Version::Two, "groupby") => Summary::GroupBy(read_function(words)?, read_inner(words)?),
        _ => Summary::Base(base_named(name, words)?),
    })
}

#[tactic(auto, unfolding(crate::specs::Syntax::merge_of))]
fn read_merge(words: &mut Words<'_>) -> Result<Merge, FileError>
    ensures { GetsAs as_read (merge_of words.old) result words.new }
{
    match words.any()? {
        "first" => Ok(Merge::First),
        "last" => Ok(Merge::Last),
        "sum" => Ok(Merge::Sum),
        "max" => Ok(Merge::Max),
        "min" => Ok(Merge::Min),
        _ => Err(FileError::UnknownWord),
    }
}

#[tactic(auto, unfolding(crate::specs::Syntax::expansion_of))]
fn read_expansion(words: &mut Words<'_>) -> Result<Expansion, FileError>
    ensures { GetsAs as_read (expansion_of words.old) result words.new }
{
    match words.any()? {
        "repeat" => Ok(Expansion::Repeat(words.natural(1000)?)),
        "words" => Ok(Expansion::Words),
        _ => Err(FileError::UnknownWord),
    }
}

/// A number of items.
fn read_count(words: &mut Words<'_>) -> Result<ItemCount, FileError>
    ensures { GetsAs count_content (any_natural words.old) result words.new }
{
    Ok(ItemCount {
        number: words.natural(i64::MAX)?,
    })
}

/// All the words of a line after the source.
#[tactic(auto, unfolding(crate::specs::Reading::whole))]
pub(crate) fn read_line<'a>(version: Version, line: &'a str) -> Result<BodyLine<'a>, FileError>
    ensures { ReadAs body_line_content (whole (body_of version) (words_of line.now)) result }
{
    let mut words = Words::new(line);
    let line = read_body(version, &mut words)?;
    words.end()?;
    Ok(line)
}

/// A line after the source: a stage, or the terminal.
#[tactic(auto, unfolding(crate::specs::Syntax::body_of))]
fn read_body<'a>(version: Version, words: &mut Words<'a>) -> Result<BodyLine<'a>, FileError>
    ensures { GetsAs body_line_content (body_of version words.old) result words.new }
{
    let name = words.any()?;
    Ok(Line::Stage(match name {
        "map" => Stage::Map(read_function(words)?),
        "filter" => Stage::Filter(read_condition(words)?),
        "flatmap" => Stage::FlatMap(read_expansion(words)?),
        "distinct" => Stage::Barrier(Barrier::Distinct),
        "limit" => Stage::Barrier(Barrier::Counted(Part::Front, read_count(words)?)),
        "skip" => Stage::Barrier(Barrier::Counted(Part::Rest, read_count(words)?)),
        "takewhile" => Stage::Barrier(Barrier::While(Part::Front, read_condition(words)?)),
        "dropwhile" => Stage::Barrier(Barrier::While(Part::Rest, read_condition(words)?)),
        _ => return Ok(Line::Terminal(read_terminal(version, name, words)?)),
    }))
}

/// A terminal, behind its name.
#[tactic(auto, unfolding(crate::specs::Syntax::terminal_names))]
fn read_terminal<'a>(
    version: Version,
    name: &str,
    words: &mut Words<'a>,
) -> Result<AnyTerminal<'a>, FileError>
    ensures { GetsAs terminal_content (terminal_names version name.now words.old) result words.new }
{
    Ok(match name {
        "sum" => Terminal::Own(OfKind::OfNumbers(NumberTotal::Sum)),
        "product" => Terminal::Own(OfKind::OfNumbers(NumberTotal::Product)),
        "max" => Terminal::Own(OfKind::OfNumbers(NumberTotal::Max)),
        "min" => Terminal::Own(OfKind::OfNumbers(NumberTotal::Min)),
        "count" => Terminal::Whole(AllItems::Count),
        "findfirst" => Terminal::Whole(AllItems::FindFirst),
        "tolist" => Terminal::Whole(AllItems::ToList),
        "allmatch" => Terminal::Match(Quantifier::AllMatch, read_condition(words)?),
        "anymatch" => Terminal::Match(Quantifier::AnyMatch, read_condition(words)?),
        "nonematch" => Terminal::Match(Quantifier::NoneMatch, read_condition(words)?),
        "joining" => Terminal::Own(OfKind::OfTexts(read_joint(words)?)),
        _ => return read_collecting_terminal(version, name, words),
    })
}

/// A terminal with a collector or a map, behind its name.
#[tactic(auto, unfolding(crate::specs::Syntax::collecting_names))]
fn read_collecting_terminal<'a>(
    version: Version,
    name: &str,
    words: &mut Words<'a>,
) -> Result<AnyTerminal<'a>, FileError>
    ensures { GetsAs terminal_content (collecting_names version name.now words.old) result words.new }
{
    Ok(match name {
        "groupby" => Terminal::GroupBy(read_function(words)?, read_summary(version, words)?),
        "partition" => Terminal::Partition(read_condition(words)?, read_summary(version, words)?),
        "tomap" => {
            Terminal::ToMap(
                read_function(words)?,
                (read_function(words)?, read_merge(words)?),
            )
        }
        "teeing" => Terminal::Teeing(read_summary(version, words)?, read_summary(version, words)?),
        _ => return read_new_terminal(version, name, words),
    })
}

/// A terminal that the first version has not, behind its name.
#[tactic(auto, unfolding(crate::specs::Syntax::new_terminal_names))]
fn read_new_terminal<'a>(
    version: Version,
    name: &str,
    words: &mut Words<'a>,
) -> Result<AnyTerminal<'a>, FileError>
    ensures { GetsAs terminal_content (new_terminal_names version name.now words.old) result words.new }
{
    match (version, name) {
        (Version::Two, "tomapstrict") => Ok(Terminal::ToMapStrict(
            read_function(words)?,
            read_function(words)?,
        )),
        _ => Err(FileError::UnknownWord),
    }
}

/// What follows the name `joining`: the text between, and a front and a back where anything is left.
#[tactic(auto, unfolding(crate::specs::Syntax::joint_of))]
fn read_joint<'a>(words: &mut Words<'a>) -> Result<Joint<&'a str>, FileError>
    ensures { GetsAs joint_content (joint_of words.old) result words.new }
{
    let between = words.any()?;
    if words.is_empty() {
        Ok(Joint::Plain(between))
    } else {
        Ok(Joint::Within(between, words.any()?, words.any()?))
    }
}
