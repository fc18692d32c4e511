//! What a line of the log says.
ghost use Rattle.std.specs.Prelude.{◌≡◌, ◌<◌, ◌==◌, ℕ, suc, MatchResult, option_map};
ghost use Rattle.std.specs.Result.{result_cmp, result_eq, result_map_both};
ghost use Rattle.spliterator.specs.Results.{result_cmp-ties, result_cmp-total, result_eq-decides};
ghost use Rattle.mohairjade.specs.Words.{both, both-decides, by_first, by_first-ties, by_first-total, bytes_cmp-ties, bytes_cmp-total, bytes_eq, bytes_eq-decides, int_cmp, int_cmp-ties, int_cmp-total, int_eq, int_eq-decides, nat_cmp, piece, slice_cmp, string_bytes, ⊤};
ghost use Rattle.weblog.specs.Log.{IsRequest, fault, figure, figure-value, name, parsed, parsed-value};
ghost use Rattle.weblog.specs.Log as spec;

use mohairjade::*;
use std::alloc::Global;
use std::collections::LinkedList;
use thiserror::Error;

/// What a line tells.
#[derive(Clone, Drop)]
pub struct Request {
    pub status: i64,
    pub hour: i64,
    pub bytes: i64,
    pub client: String,
    pub path: String,
}

/// What a line lacks.
#[derive(Clone, Copy, Debug, PartialEq, Eq, Error)]
pub enum Fault {
    #[error("no client")]
    NoClient,
    #[error("no time")]
    NoTime,
    #[error("no path")]
    NoPath,
    #[error("no status")]
    NoStatus,
    #[error("no bytes")]
    NoBytes,
}

/// A line's request, or its fault.
#[derive(Clone, Drop)]
pub struct Parsed(pub Result<Request, Fault>);

/// Makes of a line what it says.
#[derive(Drop)]
pub struct Requests(pub Global);

impl LineFunction for Requests {
    type Out = Parsed;

    ghost image = { λ _ line. parsed line };

    ghost images_are_values = { λ _ line. parsed-value line };

    fn read(&self, line: &str) -> Result<Parsed, NoMemory> {
        let (head, asked, tail) = pieces(line, '"');
        let client = client(head);
        let hour = number(hour(head));
        let path = path(asked);
        let status = number(piece_of(tail, ' ', 1));
        let bytes = number(sent(tail));
        if let Some(fault) = lack_of(client, hour, path, status, bytes) {
            return Ok(Parsed(Err(fault)));
        }
        let client = String::from_str(self.0, client)?;
        let path = String::from_str(self.0, path)?;
        Ok(Parsed(Ok(Request {
            status,
            hour,
            bytes,
            client,
            path,
        })))
    }
}

/// What stands before a separator, and what stands behind it; all and nothing where there is none.
fn cut(text: &str, separator: char) -> (&str, &str)
    requires { separator < 128 }
    ensures first { result.0.now ≡ piece (λ b. b == separator) 0 text.now }
    ensures behind { let between = piece (λ b. b == separator) in
        (at : ℕ) → between at result.1.now ≡ between (suc at) text.now }
{
    match text.split_once(separator) {
        Some((before, behind)) => (before, behind),
        None => (text, ""),
    }
}

/// The first three pieces between separators, in one way through the text.
fn pieces(text: &str, separator: char) -> (&str, &str, &str)
    requires { separator < 128 }
    ensures first { result.0.now ≡ piece (λ b. b == separator) 0 text.now }
    ensures second { result.1.now ≡ piece (λ b. b == separator) 1 text.now }
    ensures third { result.2.now ≡ piece (λ b. b == separator) 2 text.now }
{
    let (first, behind) = cut(text, separator);
    let (second, behind) = cut(behind, separator);
    (first, second, piece_of(behind, separator, 0))
}

/// The client, where ` - - [` stands behind it.
fn client(head: &str) -> &str
    ensures { result.now ≡ spec.client head.now }
{
    if EndsWith(" - - ").holds(&piece_of(head, '[', 0)) {
        piece_of(head, ' ', 0)
    } else {
        ""
    }
}

/// The hour, where the time ends with a bracket.
fn hour(head: &str) -> &str
    ensures { result.now ≡ spec.hour head.now }
{
    if EndsWith("] ").holds(&head) {
        piece_of(piece_of(head, '[', 1), ':', 1)
    } else {
        ""
    }
}

/// The path, where a protocol stands behind it.
fn path(asked: &str) -> &str
    ensures { result.now ≡ spec.path asked.now }
{
    let (_method, path, protocol) = pieces(asked, ' ');
    if protocol.is_empty() { "" } else { path }
}

/// The bytes that were sent; `-` stands for none.
fn sent(tail: &str) -> &str
    ensures { result.now ≡ spec.sent tail.now }
{
    let bytes = piece_of(tail, ' ', 2);
    if bytes == "-" { "0" } else { bytes }
}

/// The number that a text writes, or -1.
fn number(text: &str) -> i64
    ensures { result ≡ spec.number text.now }
{
    NumberOr(-1).image_of(&text)
}

/// What a request of these parts lacks.
fn lack_of(client: &str, hour: i64, path: &str, status: i64, bytes: i64) -> Option<Fault>
    ensures { option_map spec.fault result
        ≡ spec.lacks (status, (hour, (bytes, (client.now, path.now)))) }
{
    if client.is_empty() {
        Some(Fault::NoClient)
    } else if Or(Below(0), Above(23)).holds(&hour) {
        Some(Fault::NoTime)
    } else if path.is_empty() {
        Some(Fault::NoPath)
    } else if Or(Below(100), Above(599)).holds(&status) {
        Some(Fault::NoStatus)
    } else if Below(0).holds(&bytes) {
        Some(Fault::NoBytes)
    } else {
        None
    }
}

impl Value for Parsed {
    type Content = Result<(i64, (i64, (i64, (LinkedList<u8>, LinkedList<u8>)))), i64>;

    ghost content = { λ p. result_map_both (λ o. (o.status, (o.hour, (o.bytes, (string_bytes o.client, string_bytes o.path))))) fault p.0 };

    ghost same = { result_eq (both int_eq (both int_eq (both int_eq (both bytes_eq bytes_eq)))) int_eq };

    ghost is_value = { λ line. MatchResult line IsRequest (λ _. ⊤) };

    ghost same_decides = { result_eq-decides (both int_eq (both int_eq (both int_eq (both bytes_eq bytes_eq)))) int_eq (both-decides int_eq (both int_eq (both int_eq (both bytes_eq bytes_eq))) int_eq-decides (both-decides int_eq (both int_eq (both bytes_eq bytes_eq)) int_eq-decides (both-decides int_eq (both bytes_eq bytes_eq) int_eq-decides (both-decides bytes_eq bytes_eq bytes_eq-decides bytes_eq-decides)))) int_eq-decides };

    fn is_value(&self) -> bool {
        match &self.0 {
            Ok(it) => it.status.is_value() && it.hour.is_value() && it.bytes.is_value(),
            Err(_) => true,
        }
    }
}

impl OrderedValue for Parsed {
    ghost order = { result_cmp (by_first int_cmp (by_first int_cmp (by_first int_cmp (by_first (slice_cmp nat_cmp) (slice_cmp nat_cmp))))) int_cmp };

    ghost order_total = { result_cmp-total (by_first-total int_cmp-total (by_first-total int_cmp-total (by_first-total int_cmp-total (by_first-total bytes_cmp-total bytes_cmp-total)))) int_cmp-total };

    ghost order_ties = { result_cmp-ties (both int_eq (both int_eq (both int_eq (both bytes_eq bytes_eq)))) int_eq (by_first int_cmp (by_first int_cmp (by_first int_cmp (by_first (slice_cmp nat_cmp) (slice_cmp nat_cmp))))) int_cmp (by_first-ties int_eq (both int_eq (both int_eq (both bytes_eq bytes_eq))) int_cmp (by_first int_cmp (by_first int_cmp (by_first (slice_cmp nat_cmp) (slice_cmp nat_cmp)))) int_cmp-ties (by_first-ties int_eq (both int_eq (both bytes_eq bytes_eq)) int_cmp (by_first int_cmp (by_first (slice_cmp nat_cmp) (slice_cmp nat_cmp))) int_cmp-ties (by_first-ties int_eq (both bytes_eq bytes_eq) int_cmp (by_first (slice_cmp nat_cmp) (slice_cmp nat_cmp)) int_cmp-ties (by_first-ties bytes_eq bytes_eq (slice_cmp nat_cmp) (slice_cmp nat_cmp) bytes_cmp-ties bytes_cmp-ties)))) int_cmp-ties };
}

/// A number of a request, and 0 of a fault.
#[derive(Clone, Copy)]
pub enum Figure {
    Status,
    Hour,
    Bytes,
}

impl Mapping<Parsed> for Figure {
    type Out = i64;

    ghost image = { figure };

    ghost images_are_values = { figure-value };

    fn image(&self, x: &Parsed) -> Result<i64, NoMemory> {
        Ok(self.image_of(x))
    }
}

impl PlainMapping<Parsed> for Figure {
    fn image_of(&self, x: &Parsed) -> i64 {
        match (self, &x.0) {
            (_, Err(_)) => 0,
            (Figure::Status, Ok(request)) => request.status,
            (Figure::Hour, Ok(request)) => request.hour,
            (Figure::Bytes, Ok(request)) => request.bytes,
        }
    }
}

/// A text of a request as one of its own, and an empty one of a fault.
#[derive(Clone, Copy, Drop)]
pub enum Name {
    Client(Global),
    Path(Global),
}

impl Mapping<Parsed> for Name {
    type Out = String;

    ghost image = { name };

    ghost images_are_values = { λ _ _ _. tt };

    fn image(&self, x: &Parsed) -> Result<String, NoMemory> {
        match (self, &x.0) {
            (Name::Client(_), Ok(request)) => Ok(request.client.clone()?),
            (Name::Path(_), Ok(request)) => Ok(request.path.clone()?),
            (Name::Client(alloc) | Name::Path(alloc), Err(_)) => Ok(String::new(*alloc)),
        }
    }
}
