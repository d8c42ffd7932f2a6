//! The buffers whose bytes follow a line.
ghost use Rattle.std.specs.Prelude.{◌≡◌, map, IfOk};
ghost use Rattle.serde_json.specs.View.{view};
ghost use Rattle.awk_expr.specs.Arguments.{all_of};
ghost use Rattle.awk_expr.specs.Told.{Reads};
ghost use Rattle.awk_query.specs.Line.{part_in, parts_in, keys_of};

use crate::reading::{RawPart, RawParts};
use awk_expr::{QueryFault, items};
use awk_types::{Name, Names, NoMemory};
use serde_json::Value;
use std::alloc::Global;

/// The buffers that a list names, no key twice.
pub fn parts(alloc: Global, value: &Value) -> Result<RawParts, QueryFault>
    ensures { Reads (λ made. made) result (parts_in (view value.now)) }
{
    let values = items(value)?;
    let parts = each_part(alloc, values)?;
    let keys = keys(alloc, &parts)?;
    if !keys.are_distinct(alloc)? {
        return Err(QueryFault::Query);
    }
    Ok(parts)
}

fn each_part(alloc: Global, values: &[Value]) -> Result<RawParts, QueryFault>
    ensures { Reads (λ made. made) result (all_of part_in (map view values.now)) }
{
    let mut made = RawParts::new(alloc);
    for value in values {
        let part = part(alloc, value)?;
        made.push(part)?;
    }
    Ok(made)
}

// A key and a number of bytes.
fn part(alloc: Global, value: &Value) -> Result<RawPart, QueryFault>
    ensures { Reads (λ part. part) result (part_in (view value.now)) }
{
    match items(value)? {
        [key, count] => {
            let key = key.as_str().ok_or(QueryFault::Query)?;
            let count = count.as_u64().ok_or(QueryFault::Query)?;
            let key = Name::new(alloc, key)?;
            Ok(RawPart { key, count })
        }
        _ => Err(QueryFault::Query),
    }
}

fn keys(alloc: Global, parts: &RawParts) -> Result<Names, NoMemory>
    ensures { IfOk result (λ names. names ≡ keys_of parts.now) }
{
    let mut names = Names::new(alloc);
    for i in 0..parts.len() {
        let key = parts.get(i).key.as_str();
        names.push(Name::new(alloc, key)?)?;
    }
    Ok(names)
}
