//! The line of a part: a JSON array of the format's name, its version, the job's name, the places, and the container.
ghost use Rattle.std.specs.Prelude.{◌≡◌, ◌≤◌, ◌++◌, ◌∷◌, [], ℕ, List, map, Some, IfOk, IfErr, IfSome, IsSome};
ghost use Rattle.serde_json.specs.Data.{Data, array};
ghost use Rattle.serde_json.specs.Errors.{IsMemory};
ghost use Rattle.serde_json.specs.Read.{read};
ghost use Rattle.serde_json.specs.View.{view, items_of};
ghost use Rattle.placed_containers.specs.Parts.{header_form, part_form};
ghost use Rattle.placed_containers.specs.declared.error.PartsError.{PartsError};

use crate::{PartsError, Places};
use serde_json::{Error, Value as Json};
use spliterator::NoMemory;
use std::alloc::Global;

const FORMAT: &str = "parts";

const VERSION: u64 = 1;

// What a line says of its part, before the container.
#[derive(Clone, Copy)]
struct Header<'a> {
    job: &'a str,
    places: Places,
}

/// The line of a part, as a value.
pub(crate) fn part_value(
    alloc: Global,
    job: &str,
    places: Places,
    container: Json,
) -> Result<Json, NoMemory>
    ensures { let form = part_form job.now places.from places.to places.of (view container) in
        IfOk result (λ value. view value ≡ form) }
{
    let mut members = Vec::with_capacity(alloc, 7)?;
    members.push(Json::try_from_str(alloc, FORMAT)?)?;
    members.push(Json::from(VERSION))?;
    members.push(Json::try_from_str(alloc, job)?)?;
    members.push(Json::from(places.from))?;
    members.push(Json::from(places.to))?;
    members.push(Json::from(places.of))?;
    members.push(container)?;
    Ok(Json::Array(members))
}

// The last member of an array, behind the others.
fn split_last(value: Json) -> Option<(Vec<Json>, Json)>
    ensures form { IfSome result (λ members. view value
        ≡ array (items_of (map view members.0.items ++ view members.1 ∷ []))) }
    ensures known { (before : List Data) (last : Data)
        → view value ≡ array (items_of (before ++ last ∷ [])) → IsSome result }
{
    let Json::Array(mut members) = value else {
        return None;
    };
    let last = members.pop()?;
    Some((members, last))
}

// What a line says before the container, where it is one of this format and version.
fn header_of(members: &[Json]) -> Option<Header<'_>>
    ensures form { IfSome result (λ header. map view members.now
        ≡ header_form header.job.now header.places.from header.places.to header.places.of) }
    ensures known { (job : List ℕ) (from to of : ℕ)
        → map view members.now ≡ header_form job from to of → IsSome result }
{
    let [format, version, job, from, to, of] = members else {
        return None;
    };
    if format.as_str()? != FORMAT || version.as_u64()? != VERSION {
        return None;
    }
    let places = Places {
        from: from.as_u64()?,
        to: to.as_u64()?,
        of: of.as_u64()?,
    };
    let job = job.as_str()?;
    Some(Header { job, places })
}

// Why a text is no value.
fn text_fault(error: &Error, line: usize) -> PartsError
    ensures { IsMemory error.now → result ≡ PartsError.NoMemory }
{
    if error.is_memory() {
        PartsError::NoMemory
    } else {
        PartsError::NoJson { line }
    }
}

/// The places and the container that a line of the job tells of.
pub(crate) fn told_by(
    alloc: Global,
    job: &str,
    line: usize,
    text: &str,
) -> Result<(Places, Json), PartsError>
    ensures form { IfOk result (λ told. read text.now
        ≡ Some (part_form job.now told.0.from told.0.to told.0.of (view told.1))) }
    ensures order { IfOk result (λ told. told.0.from ≤ told.0.to × told.0.to ≤ told.0.of) }
    ensures known { (from to of : ℕ) (container : Data) → from ≤ to → to ≤ of
        → read text.now ≡ Some (part_form job.now from to of container)
        → IfErr result (λ e. e ≡ PartsError.NoMemory) }
{
    let value = match Json::from_str(alloc, text) {
        Ok(value) => value,
        Err(error) => return Err(text_fault(&error, line)),
    };
    let Some((members, container)) = split_last(value) else {
        return Err(PartsError::OtherFormat { line });
    };
    let Some(header) = header_of(members.as_slice()) else {
        return Err(PartsError::OtherFormat { line });
    };
    if header.job != job {
        let job = String::from_str(alloc, header.job)?;
        return Err(PartsError::OtherJob { line, job });
    }
    if !header.places.are_in_order() {
        return Err(PartsError::OtherFormat { line });
    }
    Ok((header.places, container))
}
