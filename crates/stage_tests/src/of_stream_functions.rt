//! Ready-made functions, at concrete types through their bounds.

ghost use Rattle.std.specs.Prelude.{◌*ℤ◌, int_lt};
ghost use Rattle.std.specs.String.{string_bytes};

use spliterator::{NoMemory, Row, Value};
use stages::{Mapping, Operator, Test};
use std::alloc::Global;
use std::test::Fail;
use stream_functions::{
    Above, And, AsLong, Below, Cloned, Composed, Contains, Copied, Divided, Divisible, Divisor,
    EndsWith, Equal, Even, Gives, Itself, Joins, Length, LowerCase, Modulo, Negated, Not, Number,
    NumberOr, OnFirst, OnSecond, Or, Piece, Pieces, Plus, StartsWith, Tells, Times, Trimmed,
    joined_by, made_by, such,
};

fn image<T: Value, M: Mapping<T>>(mapping: &M, x: &T) -> Result<M::Out, NoMemory>
    requires { M.ready mapping.now }
{
    mapping.image(x)
}

fn holds<T: Value, P: Test<T>>(test: &P, x: &T) -> bool
    requires { P.ready test.now }
{
    test.holds(x)
}

#[test]
fn functions_of_numbers(rt: HostRuntime) -> Result<(), Fail> {
    assert!(rt; image(&Plus(1), &i64::MAX)? == i64::MIN && image(&Times(-3), &5)? == -15);
    assert!(rt; image(&Negated, &i64::MIN)? == i64::MIN && image(&Itself, &-4)? == -4);
    assert!(rt; image(&Modulo::by(3), &-1)? == 2 && image(&Composed(Plus(1), Times(3)), &4)? == 15);
    let longs = [
        image(&AsLong, &i8::MIN)?,
        image(&AsLong, &i16::MIN)?,
        image(&AsLong, &i32::MIN)?,
        image(&AsLong, &u8::MAX)?,
        image(&AsLong, &u16::MAX)?,
        image(&AsLong, &u32::MAX)?,
    ];
    assert!(rt; longs == [-128, -32768, -2147483648, 255, 65535, 4294967295]);
    Ok(())
}

/// A number, and whether it is below 5, above 5, 5, even, a multiple of 3, not even, even and above 5, even or above 5.
static NUMBERS: [(i64, [bool; 8]); 8] = [
    (5, [false, false, true, false, false, true, false, false]),
    (4, [true, false, false, true, false, false, false, true]),
    (6, [false, true, false, true, true, false, true, true]),
    (7, [false, true, false, false, false, true, false, true]),
    (3, [true, false, false, false, true, true, false, false]),
    (0, [true, false, false, true, true, false, false, true]),
    (-9, [true, false, false, false, true, true, false, false]),
    (
        i64::MIN,
        [true, false, false, true, false, false, false, true],
    ),
];

#[test]
fn tests_of_numbers(rt: HostRuntime) -> Result<(), Fail> {
    for &(x, wanted) in &NUMBERS {
        let found = [
            holds(&Below(5), &x),
            holds(&Above(5), &x),
            holds(&Equal(5), &x),
            holds(&Even, &x),
            holds(&Divisible::by(3), &x),
            holds(&Not(Even), &x),
            holds(&And(Even, Above(5)), &x),
            holds(&Or(Even, Above(5)), &x),
        ];
        assert!(rt; found == wanted);
    }
    Ok(())
}

/// A text, what is trimmed of it, and what has small letters.
static TEXTS: [(&str, &str, &str); 7] = [
    (" \t\r\n\x0CA b ", "A b", " \t\r\n\x0Ca b "),
    ("", "", ""),
    (" \n", "", " \n"),
    ("\u{B}a\u{1F}", "\u{B}a\u{1F}", "\u{B}a\u{1F}"),
    ("\u{A0}É\u{A0}", "\u{A0}É\u{A0}", "\u{A0}É\u{A0}"),
    ("AZ[", "AZ[", "az["),
    ("@`az", "@`az", "@`az"),
];

#[test]
fn functions_of_texts(rt: HostRuntime) -> Result<(), Fail> {
    assert!(rt; image(&Length, &"é")? == 2 && image(&Length, &"")? == 0);
    assert!(rt; image(&Itself, &"ab")? == "ab" && holds(&Equal("ab"), &"ab"));
    let owned = String::from_str(rt.alloc(), "ab")?;
    let clone = image(&Cloned::new(), &owned)?;
    assert!(rt; holds(&StartsWith(""), &owned) && clone == owned);
    let pair = ("ab", 9);
    assert!(rt; image(&OnFirst(Length), &pair)? == 2 && image(&OnSecond(Plus(1)), &pair)? == 10);
    assert!(rt; holds(&OnFirst(StartsWith("a")), &pair) && !holds(&OnSecond(Above(9)), &pair));
    for &(text, trimmed, small) in &TEXTS {
        assert!(rt; image(&Trimmed, &text)? == trimmed, "{text:?}");
        let made = image(&LowerCase(rt.alloc()), &text)?;
        assert!(rt; made.as_str() == small, "{text:?}");
    }
    Ok(())
}

/// A text, a part, and whether it begins with it, ends with it, contains it.
static PARTS: [(&str, &str, [bool; 3]); 10] = [
    ("ab", "a", [true, false, true]),
    ("ab", "b", [false, true, true]),
    ("ab", "ab", [true, true, true]),
    ("ab", "abc", [false, false, false]),
    ("ab", "", [true, true, true]),
    ("", "", [true, true, true]),
    ("", "a", [false, false, false]),
    ("aaab", "aab", [false, true, true]),
    ("xaby", "ab", [false, false, true]),
    ("éa", "é", [true, false, true]),
];

#[test]
fn tests_of_texts(rt: HostRuntime) {
    for &(text, part, wanted) in &PARTS {
        let found = [
            holds(&StartsWith(part), &text),
            holds(&EndsWith(part), &text),
            holds(&Contains(part), &text),
        ];
        assert!(rt; found == wanted, "{part:?} of {text:?}");
    }
}

#[test]
fn tests_behind_mappings(rt: HostRuntime) {
    let found = [
        holds(&Composed(Length, Above(3)), &"abcd"),
        holds(&Composed(AsLong, Above(3)), &4u32),
        holds(&Composed(OnFirst(Length), Equal(1)), &("a", 2)),
        holds(
            &Composed(Composed(OnSecond(Itself), Plus(1)), Equal(3)),
            &("a", 2),
        ),
        holds(&Composed(Trimmed, Equal("a")), &" a "),
        holds(
            &Composed(Piece::word(1), Composed(Length, Equal(2))),
            &"a bc",
        ),
        holds(&Composed(Number, Equal(Some(7))), &"7"),
        holds(&Composed(NumberOr(-1), Below(0)), &"x"),
        holds(&Composed(Plus(1), Equal(6)), &5),
        holds(&Composed(Times(2), Equal(10)), &5),
        holds(&Composed(Negated, Equal(-5)), &5),
        holds(&Composed(Modulo::by(3), Equal(2)), &5),
        holds(&Composed(Divided::by(100), Equal(-2)), &-299),
        holds(&Composed(Divided::by(1), Equal(i64::MIN)), &i64::MIN),
        holds(&Composed(Copied, Above(4)), &&5),
        holds(
            &Composed(
                made_by(Squared, |x: &i64| -> i64 { x.wrapping_mul(*x) }),
                Equal(25),
            ),
            &5,
        ),
    ];
    assert!(rt; found == [true; 16]);
    assert!(rt; !holds(&Composed(Length, Above(3)), &"abc"));
}

fn are_pieces(alloc: Global, text: &str, wanted: &[&str]) -> Result<bool, NoMemory> {
    let pieces = image(&Pieces::new(alloc, ','), &text)?;
    Ok(pieces.as_slice() == wanted)
}

#[test]
fn pieces_and_numbers_of_texts(rt: HostRuntime) -> Result<(), Fail> {
    for (text, separator, at, wanted) in [
        ("ann;7;", ';', 0usize, "ann"),
        ("ann;7;", ';', 1, "7"),
        ("ann;7;", ';', 2, ""),
        ("ann;7;", ';', 3, ""),
        ("", ';', 0, ""),
        ("é é", ' ', 1, "é"),
    ] {
        let piece = Piece::new(separator, at);
        assert!(rt; image(&piece, &text)? == wanted, "{text} at {at}");
    }
    assert!(rt; image(&Piece::word(1), &"a bc d")? == "bc");
    let alloc = rt.alloc();
    assert!(rt; are_pieces(alloc, "to,,be", &["to", "", "be"])? && are_pieces(alloc, "", &[""])?);
    assert!(rt;
        are_pieces(alloc, "é,ü,", &["é", "ü", ""])? && are_pieces(alloc, "to be", &["to be"])?
    );
    for (text, wanted) in [
        ("7", Some(7)),
        ("-7", Some(-7)),
        ("+7", Some(7)),
        ("007", Some(7)),
        ("", None),
        ("-", None),
        ("7 ", None),
        ("9223372036854775807", Some(9223372036854775807)),
        ("9223372036854775808", None),
        ("-9223372036854775808", Some(-9223372036854775808)),
    ] {
        assert!(rt; image(&Number, &text)? == wanted, "{wanted:?}");
        assert!(rt;
            image(&NumberOr(-1), &text)? == wanted.unwrap_or(-1),
            "{wanted:?}"
        );
    }
    Ok(())
}

#[test]
fn a_test_is_there_or_not(rt: HostRuntime) -> Result<(), Fail> {
    let none: Option<Below> = None;
    assert!(rt; holds(&none, &9) && holds(&Some(Below(9)), &8) && !holds(&Some(Below(9)), &9));
    Ok(())
}

#[derive(Drop)]
struct Exceeds(i64);

impl Tells<i64> for Exceeds {
    ghost tells = { λ t x. int_lt t.0 x };
}

#[derive(Drop)]
struct Squared;

impl Gives<i64, i64> for Squared {
    ghost gives = { λ _ x. x *ℤ x };
}

#[derive(Drop)]
struct Later;

impl Joins<i64> for Later {
    ghost joins = { λ _ _ b. b };
}

#[test]
fn closures_beside_their_definitions(rt: HostRuntime) -> Result<(), Fail> {
    let least = 10;
    let exceeds = such(Exceeds(least), move |x: &i64| *x > least);
    assert!(rt; holds(&exceeds, &11) && !holds(&exceeds, &10));
    let squared = made_by(Squared, |x: &i64| -> i64 { x.wrapping_mul(*x) });
    assert!(rt; image(&squared, &-5)? == 25 && image(&squared, &i64::MIN)? == 0);
    let later = joined_by(Later, |_a: &i64, b: &i64| -> i64 { *b });
    assert!(rt; later.join(&4, &9)? == 9);
    Ok(())
}

/// A record of which nothing is asked.
#[derive(Drop)]
struct Order {
    customer: String,
    cents: i64,
}

#[derive(Drop)]
struct Customer;

impl<'a> Gives<Order, &'a str> for Customer {
    ghost gives = { λ _ o. string_bytes o.customer };
}

#[derive(Drop)]
struct Cents;

impl Gives<Order, i64> for Cents {
    ghost gives = { λ _ o. o.cents };
}

#[derive(Drop)]
struct Dearer(i64);

impl Tells<Order> for Dearer {
    ghost tells = { λ d o. int_lt d.0 o.cents };
}

#[test]
fn closures_of_rows(rt: HostRuntime) -> Result<(), Fail> {
    let customer = String::from_str(rt.alloc(), "ann")?;
    let order = Order {
        customer,
        cents: 1250,
    };
    let row = Row(&order);
    let name = made_by(Customer, |o: &Row<Order>| -> &str { o.0.customer.as_str() });
    let cents = made_by(Cents, |o: &Row<Order>| -> i64 { o.0.cents });
    assert!(rt; image(&name, &row)? == "ann" && image(&cents, &row)? == 1250);
    let dear = such(Dearer(1249), |o: &Row<Order>| o.0.cents > 1249);
    assert!(rt; holds(&dear, &row));
    Ok(())
}

/// The number, the divisor, and the least remainder that isn't negative. A divisor below 1 counts as 1.
static DIVIDED: [(i64, i64, i64); 29] = [
    (0, 7, 0),
    (6, 7, 6),
    (7, 7, 0),
    (-7, 7, 0),
    (-8, 7, 6),
    (999, 1000, 999),
    (-1000, 1000, 0),
    (-1001, 1000, 999),
    (1 << 32, (1 << 32) + 1, 1 << 32),
    (i64::MAX, 1000, 807),
    (i64::MAX, i64::MAX, 0),
    (i64::MAX - 1, i64::MAX, i64::MAX - 1),
    (i64::MIN, 1000, 192),
    (i64::MIN, i64::MAX, i64::MAX - 1),
    (i64::MIN + 1, i64::MAX, 0),
    (i64::MAX, 1 << 62, 4611686018427387903),
    (i64::MIN, 1 << 62, 0),
    (i64::MIN + 1, 1 << 62, 1),
    (i64::MIN, 0, 0),
    (5, -3, 0),
    (-3, 3, 0),
    (-9, 1, 0),
    (-9, 2, 1),
    (i64::MIN, 2, 0),
    (-1, 1 << 62, 4611686018427387903),
    (-1, i64::MAX, i64::MAX - 1),
    (36, 12, 0),
    (18, 12, 6),
    (-20, 12, 4),
];

#[test]
fn prepared_divisors_divide(rt: HostRuntime) -> Result<(), Fail> {
    for &(x, number, rest) in &DIVIDED {
        let divisor = Divisor::new(number);
        let is_divided = divisor.remainder(x) == rest && divisor.divides(x) == (rest == 0);
        assert!(rt; is_divided);
    }
    Ok(())
}
