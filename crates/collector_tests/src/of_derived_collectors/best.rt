//! The first of the best items by a key.
use super::cuts::of_parts;
use derived_collectors::BestByKey;
use spliterator::NoMemory;
use stream_functions::Length;

/// Words, and of each list the first shortest word and the first longest.
static WORDS: [(&[&str], Option<&str>, Option<&str>); 4] = [
    (&[], None, None),
    (&["one"], Some("one"), Some("one")),
    (
        &["to", "be", "or", "not", "too", "a", "b"],
        Some("a"),
        Some("not"),
    ),
    (&["long", "wide", "far", "dim"], Some("far"), Some("long")),
];

#[test]
fn the_first_of_the_best(rt: HostRuntime) -> Result<(), NoMemory> {
    let shortest = BestByKey::<&str, _>::least(Length);
    let longest = BestByKey::<&str, _>::greatest(Length);
    for &(words, least, greatest) in &WORDS {
        for cut in 0..=words.len() {
            let (left, right) = words.split_at(cut);
            assert!(&rt; of_parts(&shortest, left, right)? == least);
            assert!(&rt; of_parts(&longest, left, right)? == greatest);
        }
    }
    Ok(())
}
