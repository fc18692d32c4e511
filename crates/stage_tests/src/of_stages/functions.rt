//! Functions, and those that are kept as closures.
ghost use Rattle.std.specs.Prelude.{◌≡◌, pos, ◌+ℤ◌, ◌*ℤ◌, IfOk, int_lt};
ghost use Rattle.stages.specs.Products.{wrapped_product};
ghost use Rattle.stages.specs.Wrapping.{wrapped_sum, wrapped-value};

use spliterator::{NoMemory, Value};
use stages::{
    FirstOf, FromFn, LastOf, Mapping, MappingDefinition, Max, Min, Operator, OperatorDefinition,
    OperatorFn, Test, TestDefinition, TestFn, WrapAdd, WrapMul,
};
use std::process::Abort;

struct Tenfold;

impl MappingDefinition<i64, i64> for Tenfold {
    ghost image = { λ x. wrapped_product x (pos 10) };

    ghost images_are_values = { λ x _. wrapped-value (x *ℤ pos 10) };
}

struct Sum;

impl OperatorDefinition<i64> for Sum {
    ghost join = { wrapped_sum };

    ghost joins_are_values = { λ x y _ _. wrapped-value (x +ℤ y) };
}

struct BelowFive;

impl TestDefinition<i64> for BelowFive {
    ghost holds = { λ x. int_lt x (pos 5) };
}

fn image_of<M: Mapping<i64, Out = i64>>(mapping: &M, x: i64) -> Result<i64, NoMemory>
    requires { M.ready mapping.now }
    ensures { IfOk result (λ y. y ≡ M.image mapping.now x) }
{
    mapping.image(&x)
}

/// The closure's mapping is its definition's.
fn ten_times(x: i64) -> Result<i64, NoMemory>
    ensures { IfOk result (λ y. y ≡ wrapped_product x (pos 10)) }
{
    let tenfold: FromFn<i64, _, Tenfold> = FromFn::new(|x: &i64| -> Result<i64, NoMemory> {
        WrapMul::new().join(x, &10)
    });
    image_of(&tenfold, x)
}

fn joined<T: Value, O: Operator<T>>(operator: &O, a: &T, b: &T) -> Result<T, NoMemory>
    requires { O.ready operator.now }
    ensures { IfOk result (λ y. T.content y ≡ O.join operator.now (T.content a.now) (T.content b.now)) }
{
    operator.join(a, b)
}

fn added(a: i64, b: i64) -> Result<i64, NoMemory>
    ensures { IfOk result (λ y. y ≡ wrapped_sum a b) }
{
    let sum: OperatorFn<_, Sum> = OperatorFn::new(|a: &i64, b: &i64| -> Result<i64, NoMemory> {
        WrapAdd::new().join(a, b)
    });
    joined(&sum, &a, &b)
}

fn meets<P: Test<i64>>(test: &P, x: i64) -> bool
    requires { P.ready test.now }
    ensures { result ≡ P.holds test.now x }
{
    test.holds(&x)
}

fn is_below_five(x: i64) -> bool
    ensures { result ≡ int_lt x (pos 5) }
{
    let below_five: TestFn<_, BelowFive> = TestFn::new(|x: &i64| *x < 5);
    meets(&below_five, x)
}

#[test]
fn closures_answer_as_their_definitions(rt: HostRuntime) -> Result<(), NoMemory> {
    let numbers = [ten_times(4)?, added(2, 5)?];
    assert!(rt; numbers == [40, 7] && is_below_five(4) && !is_below_five(5));
    Ok(())
}

/// Checks that an operator joins the first two of each row to the third.
fn check_joins<T: Value + Eq + Drop, O: Operator<T>>(
    rt: &impl Abort,
    operator: &O,
    rows: &[(&T, &T, &T)],
) -> Result<(), NoMemory>
    requires { O.ready operator.now }
{
    for (a, b, wanted) in rows {
        assert!(rt; joined(operator, *a, *b)? == **wanted);
    }
    Ok(())
}

#[test]
fn operators_join_two_values(rt: HostRuntime) -> Result<(), NoMemory> {
    let (least, most) = (i64::MIN, i64::MAX);
    check_joins(&rt, &WrapAdd::new(), &[(&2, &5, &7), (&most, &1, &least)])
        .and(check_joins(
            &rt,
            &WrapMul::new(),
            &[(&-3, &5, &-15), (&least, &-1, &least)],
        ))
        .and(check_joins(&rt, &Max::new(), &[(&-3, &5, &5)]))
        .and(check_joins(&rt, &&Max::new(), &[(&5, &-3, &5)]))
        .and(check_joins(&rt, &Min::new(), &[(&-3, &5, &-3)]))
        .and(check_joins(&rt, &FirstOf::new(), &[(&-3, &5, &-3)]))
        .and(check_joins(&rt, &LastOf::new(), &[(&-3, &5, &5)]))
}

fn check_texts(rt: &impl Abort, first: &String, second: &String) -> Result<(), NoMemory> {
    check_joins(rt, &Max::new(), &[(first, second, second)])
        .and(check_joins(rt, &Min::new(), &[(first, second, first)]))
        .and(check_joins(rt, &FirstOf::new(), &[(second, first, second)]))
        .and(check_joins(rt, &LastOf::new(), &[(second, first, first)]))
}

#[test]
fn operators_join_two_texts(rt: HostRuntime) -> Result<(), NoMemory> {
    let first = String::from_str(rt.alloc(), "ab")?;
    let second = String::from_str(rt.alloc(), "b")?;
    check_texts(&rt, &first, &second)
}
