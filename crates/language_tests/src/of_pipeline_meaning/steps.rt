//! Stages as steps, fed item by item and a block at once.
use pipeline_language::{
    Barrier, Expansion, ItemCount, NumberChange, NumberFunction, NumberStage, NumberTest, Part,
    TextStage, TextTest,
};
use pipeline_meaning::{NumberSteps, TextSteps};
use spliterator::NoMemory;
use stages::{Operation, Stage};
use std::alloc::Global;
use std::process::Abort;
use std::test::Fail;

/// What a front of stages makes of items, one by one.
fn made(alloc: Global, steps: &NumberSteps, items: &[i64]) -> Result<Vec<i64>, NoMemory> {
    let mut found = Vec::new(alloc);
    for item in items {
        steps.push(*item, &mut found)?;
    }
    Ok(found)
}

/// What a front of stages makes of a block of items.
fn made_at_once(alloc: Global, steps: &NumberSteps, items: &[i64]) -> Result<Vec<i64>, NoMemory> {
    let mut block = Vec::new(alloc);
    block.extend_from_slice(items)?;
    let mut found = Vec::new(alloc);
    steps.feed_all(&mut block, &mut found)?;
    Ok(found)
}

/// Stages, items, what becomes of these, and how many of the stages stand before the first barrier.
type NumberRow<'a> = (&'a [NumberStage], &'a [i64], &'a [i64], usize);

/// The stages up to the first barrier, and how many they are.
fn front_of(alloc: Global, stages: &[NumberStage]) -> Result<(NumberSteps, usize), NoMemory> {
    let mut steps = NumberSteps::new(alloc);
    for (place, stage) in stages.iter().enumerate() {
        if !steps.put(stage)? {
            return Ok((steps, place));
        }
    }
    Ok((steps, stages.len()))
}

fn check(rt: &(impl Abort + Alloc<A = Global>), rows: &[NumberRow<'_>]) -> Result<(), Fail> {
    for &(stages, items, wanted, taken) in rows {
        let (steps, number) = front_of(rt.alloc(), stages)?;
        let found = made(rt.alloc(), &steps, items)?;
        let at_once = made_at_once(rt.alloc(), &steps, items)?;
        assert!(rt;
            number == taken && found.as_slice() == wanted && at_once.as_slice() == wanted,
            "{number} stages make {found:?}, and at once {at_once:?}"
        );
    }
    Ok(())
}

const LEAST: i64 = i64::MIN;

const MOST: i64 = i64::MAX;

const THRICE: NumberStage = NumberStage::Map(NumberFunction::Change(NumberChange::Mul(3)));

const MORE: NumberStage = NumberStage::Map(NumberFunction::Change(NumberChange::Add(1)));

const FAR: NumberStage = NumberStage::Map(NumberFunction::Change(NumberChange::Add(MOST)));

const NEGATED: NumberStage = NumberStage::Map(NumberFunction::Change(NumberChange::Negate));

const SAME: NumberStage = NumberStage::Map(NumberFunction::Itself);

const REST: NumberStage = NumberStage::Map(NumberFunction::Mod(3));

const EVEN: NumberStage = NumberStage::Filter(NumberTest::Divisible(2));

const SEVENS: NumberStage = NumberStage::Filter(NumberTest::Divisible(7));

const SMALL: NumberStage = NumberStage::Filter(NumberTest::Less(10));

const LARGE: NumberStage = NumberStage::Filter(NumberTest::Greater(3));

const NONE_LESS: NumberStage = NumberStage::Filter(NumberTest::Less(LEAST));

const NONE_GREATER: NumberStage = NumberStage::Filter(NumberTest::Greater(MOST));

const ONLY_LEAST: NumberStage = NumberStage::Filter(NumberTest::Equals(LEAST));

const TWICE: NumberStage = NumberStage::FlatMap(2);

const LONG: TextStage<'_> = TextStage::Filter(TextTest::Longer(1));

const PIECES: TextStage<'_> = TextStage::FlatMap(Expansion::Words);

const DOUBLED: TextStage<'_> = TextStage::FlatMap(Expansion::Repeat(2));

#[test]
fn steps_follow_one_another(rt: HostRuntime) -> Result<(), Fail> {
    let rows: [NumberRow<'_>; 6] = [
        (&[], &[4, LEAST], &[4, LEAST], 0),
        (&[THRICE], &[1, -2], &[3, -6], 1),
        (&[THRICE, EVEN], &[1, 2, 3, 4], &[6, 12], 2),
        (&[EVEN, THRICE], &[1, 2, 3, 4], &[6, 12], 2),
        (&[THRICE, MORE, EVEN], &[1, 2, 3], &[4, 10], 3),
        (&[THRICE, MORE, EVEN, SMALL], &[1, 2, 3], &[4], 4),
    ];
    check(&rt, &rows)
}

#[test]
fn functions_wrap(rt: HostRuntime) -> Result<(), Fail> {
    let rows: [NumberRow<'_>; 5] = [
        (&[SAME, SAME], &[-7, LEAST], &[-7, LEAST], 2),
        (&[THRICE], &[MOST, LEAST, -1], &[MOST - 2, LEAST, -3], 1),
        (&[MORE, THRICE], &[MOST, 0], &[LEAST, 3], 2),
        (&[NEGATED], &[LEAST, MOST, 0], &[LEAST, -MOST, 0], 1),
        (&[FAR, FAR, THRICE], &[1], &[-3], 3),
    ];
    check(&rt, &rows)
}

#[test]
fn bounds_drop_numbers(rt: HostRuntime) -> Result<(), Fail> {
    let rows: [NumberRow<'_>; 8] = [
        (&[LARGE], &[3, 4, LEAST, MOST], &[4, MOST], 1),
        (&[SMALL], &[9, 10, LEAST, MOST], &[9, LEAST], 1),
        (&[SMALL, LARGE], &[3, 4, 9, 10], &[4, 9], 2),
        (&[THRICE, SMALL, MORE, LARGE], &[0, 2, 3, 4], &[7, 10], 4),
        (&[LARGE, NEGATED, SMALL], &[3, 4], &[-4], 3),
        (&[NONE_LESS], &[LEAST, 0], &[], 1),
        (&[NONE_GREATER], &[MOST, 0], &[], 1),
        (&[ONLY_LEAST], &[LEAST, 0], &[LEAST], 1),
    ];
    check(&rt, &rows)
}

#[test]
fn remainders_are_not_negative(rt: HostRuntime) -> Result<(), Fail> {
    let rows: [NumberRow<'_>; 5] = [
        (&[REST], &[-1, -3, LEAST, 7], &[2, 0, 1, 1], 1),
        (&[NEGATED, REST], &[-1, 1], &[1, 2], 2),
        (&[REST, REST], &[-4, 5], &[2, 2], 2),
        (&[SEVENS], &[-14, 13, 0, LEAST], &[-14, 0], 1),
        (&[EVEN], &[LEAST, MOST], &[LEAST], 1),
    ];
    check(&rt, &rows)
}

#[test]
fn a_number_is_repeated(rt: HostRuntime) -> Result<(), Fail> {
    let rows: [NumberRow<'_>; 5] = [
        (&[TWICE], &[7, 8], &[7, 7, 8, 8], 1),
        (&[NumberStage::FlatMap(0), NEGATED], &[7, 8], &[], 2),
        (&[NumberStage::FlatMap(1)], &[7, 8], &[7, 8], 1),
        (&[TWICE, NEGATED, TWICE], &[7], &[-7, -7, -7, -7], 3),
        (&[NEGATED, TWICE, SMALL], &[7, -10], &[-7, -7], 3),
    ];
    check(&rt, &rows)
}

#[test]
fn a_number_is_repeated_often(rt: HostRuntime) -> Result<(), Fail> {
    // more copies than a sink is given at once
    let rows: [(&[NumberStage], usize); 5] = [
        (&[NumberStage::FlatMap(1_024)], 1_024),
        (&[NumberStage::FlatMap(1_025)], 1_025),
        (&[NumberStage::FlatMap(3_000)], 3_000),
        (&[TWICE, NumberStage::FlatMap(700)], 1_400),
        (&[NumberStage::FlatMap(1_100), TWICE], 2_200),
    ];
    for &(stages, number) in &rows {
        let (steps, _) = front_of(rt.alloc(), stages)?;
        let found = made_at_once(rt.alloc(), &steps, &[7, 8])?;
        assert!(rt;
            (found.len(), found.iter().filter(|x| **x == 7).count()) == (2 * number, number)
        );
        assert!(rt; (found.first(), found.last()) == (Some(&7), Some(&8)));
    }
    Ok(())
}

const BARRIERS: [NumberStage; 5] = [
    NumberStage::Barrier(Barrier::Distinct),
    NumberStage::Barrier(Barrier::Counted(Part::Front, ItemCount { number: 1 })),
    NumberStage::Barrier(Barrier::Counted(Part::Rest, ItemCount { number: 1 })),
    NumberStage::Barrier(Barrier::While(Part::Front, NumberTest::Less(0))),
    NumberStage::Barrier(Barrier::While(Part::Rest, NumberTest::Less(9))),
];

#[test]
fn a_front_of_numbers_ends_at_a_barrier(rt: HostRuntime) -> Result<(), Fail> {
    for &barrier in &BARRIERS {
        let rows: [NumberRow<'_>; 2] = [
            (&[MORE, barrier, MORE], &[4, 4, 5], &[5, 5, 6], 1),
            (&[barrier, MORE], &[4, 4, 5], &[4, 4, 5], 0),
        ];
        check(&rt, &rows)?;
    }
    Ok(())
}

const KEPT: (Operation, Option<u64>) = (Operation::Map, Some(5));

const LOST: (Operation, Option<u64>) = (Operation::FlatMap, None);

/// The texts themselves keep the size.
const TEXT_SIZES: [(TextStage<'_>, (Operation, Option<u64>)); 2] = [
    (TextStage::Map(()), KEPT),
    (PIECES, LOST),
];

/// The same of stages over texts.
fn text_front_of<'a>(
    alloc: Global,
    stages: &[TextStage<'a>],
) -> Result<(TextSteps<'a>, usize), NoMemory> {
    let mut steps = TextSteps::new(alloc);
    for (place, stage) in stages.iter().enumerate() {
        if !steps.put(stage)? {
            return Ok((steps, place));
        }
    }
    Ok((steps, stages.len()))
}

#[test]
fn maps_alone_keep_the_size(rt: HostRuntime) -> Result<(), Fail> {
    // they stand in the flags' table as a map
    let rows: [(&[NumberStage], (Operation, Option<u64>)); 5] = [
        (&[], KEPT),
        (&[MORE, MORE], KEPT),
        (&[MORE, BARRIERS[1]], KEPT),
        (&[MORE, NumberStage::Filter(NumberTest::Divisible(1))], LOST),
        (&[NumberStage::FlatMap(1)], LOST),
    ];
    for &(stages, wanted) in &rows {
        let (steps, _) = front_of(rt.alloc(), stages)?;
        assert!(rt; (steps.operation(), steps.size_after(Some(5))) == wanted);
    }
    for &(stage, wanted) in &TEXT_SIZES {
        let (steps, _) = text_front_of(rt.alloc(), &[stage])?;
        assert!(rt; (steps.operation(), steps.size_after(Some(5))) == wanted);
    }
    Ok(())
}

/// No stage lends a list as it is.
#[test]
fn no_stage_lends_a_list(rt: HostRuntime) -> Result<(), Fail> {
    let (numbers, texts): (&[i64], &[&str]) = (&[7, 8], &["a b"]);
    let (nothing, _) = front_of(rt.alloc(), &[])?;
    let (repeated, _) = front_of(rt.alloc(), &[TWICE])?;
    let (changed, _) = front_of(rt.alloc(), &[MORE])?;
    assert!(rt; nothing.lent_block(numbers) == Some(numbers));
    assert!(rt; repeated.lent_block(numbers).is_none() && changed.lent_block(numbers).is_none());
    let (nothing, _) = text_front_of(rt.alloc(), &[])?;
    let (cut, _) = text_front_of(rt.alloc(), &[PIECES])?;
    assert!(rt; nothing.lent_block(texts) == Some(texts) && cut.lent_block(texts).is_none());
    Ok(())
}

#[test]
fn repeats_and_words_make_several_of_one(rt: HostRuntime) -> Result<(), Fail> {
    let rows: [(&[NumberStage], u64); 4] = [
        (&[], 1),
        (&[MORE, TWICE, TWICE], 4),
        (&[NumberStage::FlatMap(0)], 1),
        (&[NumberStage::FlatMap(u64::MAX), TWICE], u64::MAX),
    ];
    for &(stages, wanted) in &rows {
        let (steps, _) = front_of(rt.alloc(), stages)?;
        assert!(rt; steps.growth() == wanted);
    }
    let text_rows: [(&[TextStage<'_>], u64); 3] = [
        (&[TextStage::Map(())], 1),
        (&[PIECES], 16),
        (&[DOUBLED, PIECES], 32),
    ];
    for &(stages, wanted) in &text_rows {
        let (steps, _) = text_front_of(rt.alloc(), stages)?;
        assert!(rt; steps.growth() == wanted);
    }
    Ok(())
}

/// What a front of stages makes of texts, and how many of the stages it is.
fn made_of_texts<'a>(
    alloc: Global,
    stages: &[TextStage<'a>],
    items: &[&'a str],
) -> Result<(Vec<&'a str>, usize), NoMemory> {
    let (steps, number) = text_front_of(alloc, stages)?;
    let mut found = Vec::new(alloc);
    for item in items {
        steps.push(*item, &mut found)?;
    }
    Ok((found, number))
}

/// The same of texts.
type TextRow<'a> = (&'a [TextStage<'a>], &'a [&'a str], &'a [&'a str], usize);

fn check_texts(rt: &(impl Abort + Alloc<A = Global>), rows: &[TextRow<'_>]) -> Result<(), Fail> {
    for &(stages, items, wanted, taken) in rows {
        let (found, number) = made_of_texts(rt.alloc(), stages, items)?;
        assert!(rt; found.as_slice() == wanted && number == taken, "{found:?}");
    }
    Ok(())
}

const TEXT_BARRIERS: [TextStage<'_>; 5] = [
    TextStage::Barrier(Barrier::Distinct),
    TextStage::Barrier(Barrier::Counted(Part::Front, ItemCount { number: 1 })),
    TextStage::Barrier(Barrier::Counted(Part::Rest, ItemCount { number: 1 })),
    TextStage::Barrier(Barrier::While(Part::Front, TextTest::Empty)),
    TextStage::Barrier(Barrier::While(Part::Rest, TextTest::Empty)),
];

#[test]
fn a_front_of_texts_ends_at_a_barrier(rt: HostRuntime) -> Result<(), Fail> {
    for &barrier in &TEXT_BARRIERS {
        check_texts(
            &rt,
            &[(&[PIECES, barrier, PIECES], &["a b"], &["a", "b"], 1)],
        )?;
    }
    Ok(())
}

#[test]
fn a_text_is_cut_at_its_spaces(rt: HostRuntime) -> Result<(), Fail> {
    let rows: [TextRow<'_>; 5] = [
        (&[PIECES], &[""], &[""], 1),
        (&[PIECES], &[" "], &["", ""], 1),
        (&[PIECES], &["a b"], &["a", "b"], 1),
        (&[PIECES], &["a  b"], &["a", "", "b"], 1),
        (&[PIECES], &[" é\t", "c "], &["", "é\t", "c", ""], 1),
    ];
    check_texts(&rt, &rows)
}

#[test]
fn a_text_walks_through_its_steps(rt: HostRuntime) -> Result<(), Fail> {
    let rows: [TextRow<'_>; 6] = [
        (&[], &["a", ""], &["a", ""], 0),
        (&[TextStage::Map(()), LONG], &["a", "é"], &["é"], 2),
        (&[PIECES, DOUBLED], &["a b"], &["a", "a", "b", "b"], 2),
        (&[DOUBLED, PIECES], &["a b"], &["a", "b", "a", "b"], 2),
        (&[PIECES, LONG, PIECES], &["a bc d", "ef"], &["bc", "ef"], 3),
        (&[TextStage::FlatMap(Expansion::Repeat(0))], &["a"], &[], 1),
    ];
    check_texts(&rt, &rows)
}
