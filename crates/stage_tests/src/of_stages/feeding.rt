//! Stages, fed item by item, with ample memory and with a refusal.
ghost use Rattle.std.specs.Prelude.{pos, ◌+ℤ◌, ◌*ℤ◌, [], ◌∷◌, int_lt, replicate, unsigned_abs, ⊤};
ghost use Rattle.std.proofs.lemmas.List.Elements.{All-cons, All-nil, All-replicate};
ghost use Rattle.spliterator.specs.Values.{IsI64};
ghost use Rattle.stages.specs.Products.{wrapped_product};
ghost use Rattle.stages.specs.Wrapping.{wrapped_sum, wrapped-value};

use spliterator::NoMemory;
use stages::{
    Filter, FlatMap, Map, Mapping, Nothing, Operation, Operator, Sink, Stage, Test, Then, WrapAdd,
};
use std::alloc::Global;
use std::process::Abort;
use stream_functions::{Above, Times};

/// The number itself. That of 7 is refused, as if it wanted memory.
#[derive(Drop)]
struct RefusesSeven;

impl Mapping<i64> for RefusesSeven {
    type Out = i64;

    ghost image = { λ _ x. x };

    ghost images_are_values = { λ _ _ value. value };

    fn image(&self, x: &i64) -> Result<i64, NoMemory> {
        if *x == 7 {
            return Err(NoMemory);
        }
        Ok(*x)
    }
}

/// As many copies of a number as it says, whatever its sign.
#[derive(Drop)]
struct Copies {
    alloc: Global,
}

impl Mapping<i64> for Copies {
    type Out = Vec<i64>;

    ghost image = { λ _ x. replicate (unsigned_abs x) x };

    ghost images_are_values = { λ _ x. All-replicate IsI64 (unsigned_abs x) x };

    fn image(&self, x: &i64) -> Result<Vec<i64>, NoMemory> {
        let number = x.unsigned_abs() as usize;
        Ok(vec![in self.alloc; *x; number]?)
    }
}

/// A number and the next one.
#[derive(Drop)]
struct WithNext {
    alloc: Global,
}

impl Mapping<i64> for WithNext {
    type Out = Vec<i64>;

    ghost image = { λ _ x. x ∷ wrapped_sum x (pos 1) ∷ [] };

    ghost images_are_values = { λ _ x value. All-cons IsI64 x (wrapped_sum x (pos 1) ∷ []) value (All-cons IsI64 (wrapped_sum x (pos 1)) [] (wrapped-value (x +ℤ pos 1)) (All-nil IsI64)) };

    fn image(&self, x: &i64) -> Result<Vec<i64>, NoMemory> {
        let next = WrapAdd::new().join(x, &1)?;
        Ok(Vec::from_array(self.alloc, [*x, next])?)
    }
}

/// A sink of the tests' own: it keeps the first few items, counts all that come, and promises nothing.
#[derive(Drop)]
struct FirstFew {
    kept: Vec<i64>,
    most: usize,
    came: u64,
}

impl Sink<i64> for FirstFew {
    ghost takes = { λ _ _ _. ⊤ };

    ghost spoils = { λ _ _. ⊤ };

    ghost takes_none = { λ _. tt };

    ghost spoils_nothing = { λ _. tt };

    ghost takes_both = { λ _ _ _ _ _ _ _. tt };

    ghost spoils_later = { λ _ _ _ _ _ _. tt };

    ghost stays_ready = { λ _ _ _ _ _. tt };

    fn take(&mut self, x: i64) -> Result<(), NoMemory> {
        self.came = self.came.saturating_add(1);
        if self.kept.len() < self.most {
            self.kept.push(x)?;
        }
        Ok(())
    }

    fn is_full(&self) -> bool {
        self.most <= self.kept.len()
    }
}

/// Pushes the numbers onto a list, and each again where it was refused: the list is then as it was. Fed as a block they give the same.
fn pushed<S: Stage<In = i64, Out = i64>>(
    rt: &(impl Abort + Alloc<A = Global>),
    stage: &S,
    numbers: &[i64],
    mut out: Vec<i64>,
) -> Result<Vec<i64>, NoMemory>
    requires { S.ready stage.now }
{
    let mut block = out.clone()?;
    for number in numbers {
        let before = out.clone()?;
        if stage.push(*number, &mut out) == Err(NoMemory) {
            assert!(rt; out == before);
            stage.push(*number, &mut out)?;
        }
    }
    stage.feed_all(&mut Vec::from_slice(rt.alloc(), numbers)?, &mut block)?;
    assert!(rt; block == out);
    Ok(out)
}

/// Checks the list that the numbers pushed onto a list make.
fn check<S: Stage<In = i64, Out = i64>>(
    rt: &(impl Abort + Alloc<A = Global>),
    stage: &S,
    numbers: &[i64],
    before: &[i64],
    after: &[i64],
) -> Result<(), NoMemory>
    requires { S.ready stage.now }
{
    let items = pushed(rt, stage, numbers, Vec::from_slice(rt.alloc(), before)?)?;
    assert!(rt; items.as_slice() == after);
    Ok(())
}

#[test]
fn stages_are_fused(rt: HostRuntime) -> Result<(), NoMemory> {
    check_fused(&rt, Filter::new(Above(2)), Map::new(Times(10)))
}

// A stage that keeps what is above 2, and one that makes ten times as much: the one before the other, lent, and the other before the one; and
// these between nothing and a stage that negates.
fn check_fused<A: Stage<In = i64, Out = i64> + Drop, B: Stage<In = i64, Out = i64> + Drop>(
    rt: &(impl Abort + Alloc<A = Global>),
    above_two: A,
    tenfold: B,
) -> Result<(), NoMemory>
    requires above_two { A.ready above_two }
    requires tenfold { B.ready tenfold }
{
    let of_lent = check_then(rt, &above_two, &tenfold, &[1, 2, 3, 4], &[], &[30, 40]);
    let fused = Then::new(tenfold, above_two);
    let of_fused = check(rt, &fused, &[0, 1], &[30, 40], &[30, 40, 10]);
    let negated = Then::new(fused, Map::new(Times(-1)));
    let of_four = check_then(rt, Nothing::new(), negated, &[1, 0, 2], &[], &[-10, -20]);
    of_lent.and(of_fused).and(of_four)
}

/// Checks one stage behind another.
fn check_then<A: Stage<In = i64> + Drop, B: Stage<In = A::Out, Out = i64> + Drop>(
    rt: &(impl Abort + Alloc<A = Global>),
    first: A,
    second: B,
    numbers: &[i64],
    before: &[i64],
    after: &[i64],
) -> Result<(), NoMemory>
    requires first { A.ready first }
    requires second { B.ready second }
{
    check(rt, &Then::new(first, second), numbers, before, after)
}

#[test]
fn an_item_becomes_a_list(rt: HostRuntime) -> Result<(), NoMemory> {
    let copies = FlatMap::new(Copies { alloc: rt.alloc() });
    check(&rt, &copies, &[2, 0, 3], &[], &[2, 2, 3, 3, 3])?;
    let squares = Then::new(&copies, &copies);
    check(&rt, &squares, &[2], &[], &[2, 2, 2, 2])
}

/// Checks that a push is refused, and leaves a list.
fn check_refused<S: Stage<In = i64, Out = i64>>(
    rt: &impl Abort,
    stage: &S,
    number: i64,
    out: &mut Vec<i64>,
)
    requires { S.ready stage.now }
{
    let is_refused = stage.push(number, out) == Err(NoMemory);
    assert!(rt; is_refused && out.as_slice() == [2].as_slice());
}

/// What of an expansion came before the refusal is taken back.
#[test]
fn a_refused_push_leaves_the_list(rt: HostRuntime) -> Result<(), NoMemory> {
    let alloc = rt.alloc();
    let mut out = Vec::from_array(alloc, [2])?;
    let refusing = Map::new(RefusesSeven);
    check_refused(&rt, &refusing, 7, &mut out);
    let halfway = Then::new(FlatMap::new(WithNext { alloc }), refusing);
    check_refused(&rt, &halfway, 6, &mut out);
    check(&rt, &halfway, &[4], &out, &[2, 4, 5])
}

/// No memory holds 2^63 - 1 copies.
#[test]
fn a_list_that_finds_no_memory_is_refused(rt: HostRuntime) -> Result<(), NoMemory> {
    let alloc = rt.alloc();
    let mut out = Vec::from_array(alloc, [2])?;
    let copies = FlatMap::new(Copies { alloc });
    check_refused(&rt, &copies, i64::MAX, &mut out);
    check(&rt, &copies, &[3], &out, &[2, 3, 3, 3])
}

#[test]
fn nothing_is_fed_to_a_full_sink(rt: HostRuntime) -> Result<(), NoMemory> {
    let alloc = rt.alloc();
    let mut few = FirstFew {
        kept: Vec::new(alloc),
        most: 2,
        came: 0,
    };
    let copies = FlatMap::new(Copies { alloc });
    let fused = Then::new(&copies, Map::new(Times(2)));
    fused.feed(5, &mut few)?;
    assert!(rt; few.kept.as_slice() == [10, 10].as_slice() && few.came == 2);
    copies.feed(5, &mut few)?;
    fused.feed_all(&mut Vec::from_array(alloc, [5, 5])?, &mut few)?;
    assert!(rt; few.came == 2);
    Ok(())
}

/// Whether a stage tells this row, and how many items it makes of five. Of an unknown number it makes an unknown one.
fn tells<S: Stage>(stage: &S, operation: Operation, size: Option<u64>) -> bool {
    let after_none = stage.size_after(None);
    stage.operation() == operation && stage.size_after(Some(5)) == size && after_none.is_none()
}

#[test]
fn stages_tell_their_rows(rt: HostRuntime) {
    let map = Map::new(Times(2));
    let filter = Filter::new(Above(2));
    let flat_map = FlatMap::new(Copies { alloc: rt.alloc() });
    let told = [
        tells(&map, Operation::Map, Some(5)),
        tells(&filter, Operation::Filter, None),
        tells(&flat_map, Operation::FlatMap, None),
        tells(&Nothing::<i64>::new(), Operation::Map, Some(5)),
        tells(&Then::new(&map, &map), Operation::FlatMap, None),
    ];
    assert!(rt; told == [true; 5], "{told:?}");
}

#[test]
fn stages_that_do_nothing_lend_a_list_on(rt: HostRuntime) {
    let numbers: &[i64] = &[7, 8];
    let nothing = Then::new(Nothing::new(), Nothing::new());
    assert!(rt; nothing.lent_block(numbers) == Some(numbers));
    let doubled = Then::new(Nothing::new(), Map::new(Times(2)));
    assert!(rt; doubled.lent_block(numbers).is_none());
    let of_doubled = Then::new(Map::new(Times(2)), Nothing::new());
    assert!(rt; of_doubled.lent_block(numbers).is_none());
}

#[test]
fn stages_tell_about_how_many_come_of_one(rt: HostRuntime) {
    let doubled = Map::new(Times(2));
    let copies = FlatMap::new(Copies { alloc: rt.alloc() });
    assert!(rt; (doubled.growth(), copies.growth()) == (1, 16));
    let squares = Then::new(&copies, &copies);
    assert!(rt; (squares.growth(), Then::new(doubled, &copies).growth()) == (256, 16));
}
