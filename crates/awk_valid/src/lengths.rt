//! The lanes of a node, judged by the rule of its class, and the lengths that its contents need.
ghost use Rattle.std.specs.Prelude.{◌≡◌, ℕ, ◌+◌, ◌-◌, ◌<◌, ◌≤◌, length, get_or, map, pos, None};
ghost use Rattle.std.specs.Prelude.{IfOk};
ghost use Rattle.std.specs.List.{range_with_len};
ghost use Rattle.awk_types.specs.Gives.{Gives, refused_or};
ghost use Rattle.awk_lanes.specs.Places.{size_of, at, IsIndexKind};
ghost use Rattle.awk_lanes.specs.declared.kind.Kind.TheVariants.{I8};
ghost use Rattle.awk_valid.specs.Broken.{rule_break, list_rule, index_rule, tag_rule};
ghost use Rattle.awk_valid.specs.Loading.{told};
ghost use Rattle.awk_valid.specs.Needs.{reach, behind, lists_length, index_length, tag_length};
ghost use Rattle.awk_valid.specs.Rules.{list_rules, tag_rules};

use crate::fault::LoadFault;
use crate::judge::{judge_indexes, judge_lists, judge_tags};
use awk_index::numbers_of;
use awk_kernels::Kernels;
use awk_lanes::{Lane, Steps};
use awk_types::NoMemory;
use std::alloc::Global;
use std::sync::ledger::Ledger;

/// Judges lists from their starts below their stops: how many items their content needs.
pub(crate) fn judged_lists<N: Kernels, L: Ledger>(
    alloc: Global,
    kernels: &N,
    node: u64,
    starts: &Lane<'_>,
    stops: &Lane<'_>,
    steps: &mut Steps<L>,
) -> Result<u64, LoadFault>
    requires starts { IsIndexKind starts.now.kind }
    requires stops { IsIndexKind stops.now.kind }
    requires same { size_of starts.now ≡ size_of stops.now }
    ensures answer { Gives (λ length. length) told result (refused_or
        (rule_break node (size_of starts.now) (λ i. list_rule (at starts.now i) (at stops.now i)))
        (lists_length (size_of starts.now) (at starts.now) (at stops.now))) }
    ensures cost { steps.new ≤ steps.old + size_of starts.now + size_of stops.now }
{
    let start_numbers = numbers_of(alloc, starts, steps)?;
    let stop_numbers = numbers_of(alloc, stops, steps)?;
    judged_spans(kernels, node, &start_numbers, &stop_numbers)
}

/// Judges lists from each offset below the next: how many items their content needs.
pub(crate) fn judged_offsets<N: Kernels, L: Ledger>(
    alloc: Global,
    kernels: &N,
    node: u64,
    offsets: &Lane<'_>,
    steps: &mut Steps<L>,
) -> Result<u64, LoadFault>
    requires offsets { IsIndexKind offsets.now.kind }
    requires some { 0 < size_of offsets.now }
    ensures answer { Gives (λ length. length) told result (refused_or
        (rule_break node (size_of offsets.now - 1)
        (λ i. list_rule (at offsets.now i) (at offsets.now (i + 1))))
        (lists_length (size_of offsets.now - 1) (at offsets.now) (λ i. at offsets.now (i + 1)))) }
    ensures cost { steps.new ≤ steps.old + size_of offsets.now }
{
    let numbers = numbers_of(alloc, offsets, steps)?;
    let count = numbers.len() - 1;
    judged_spans(kernels, node, &numbers[..count], &numbers[1..])
}

/// Judges indexes, none of which may be negative: how many items their content needs.
pub(crate) fn judged_index<N: Kernels, L: Ledger>(
    alloc: Global,
    kernels: &N,
    node: u64,
    index: &Lane<'_>,
    steps: &mut Steps<L>,
) -> Result<u64, LoadFault>
    requires index { IsIndexKind index.now.kind }
    ensures answer { Gives (λ length. length) told result (refused_or
        (rule_break node (size_of index.now) (λ i. index_rule (at index.now i)))
        (index_length (size_of index.now) (at index.now))) }
    ensures cost { steps.new ≤ steps.old + size_of index.now }
{
    let numbers = numbers_of(alloc, index, steps)?;
    judge_indexes(node, &numbers)?;
    Ok(places_length(kernels, &numbers))
}

/// How many items the content of an optional index needs; a negative one needs none.
pub(crate) fn optional_length<N: Kernels, L: Ledger>(
    alloc: Global,
    kernels: &N,
    index: &Lane<'_>,
    steps: &mut Steps<L>,
) -> Result<u64, NoMemory>
    requires index { IsIndexKind index.now.kind }
    ensures length { IfOk result (λ length. length ≡ index_length (size_of index.now) (at
        index.now)) }
    ensures cost { steps.new ≤ steps.old + size_of index.now }
{
    let numbers = numbers_of(alloc, index, steps)?;
    Ok(places_length(kernels, &numbers))
}

/// Judges tags, each with the index beside it: how many items each alternative needs.
pub(crate) fn judged_union<L: Ledger>(
    alloc: Global,
    node: u64,
    alternatives: u64,
    tags: &Lane<'_>,
    index: &Lane<'_>,
    steps: &mut Steps<L>,
) -> Result<Vec<u64>, LoadFault>
    requires few { alternatives ≤ 127 }
    requires tags { tags.now.kind ≡ I8 }
    requires index { IsIndexKind index.now.kind }
    requires same { size_of tags.now ≡ size_of index.now }
    ensures answer { Gives (λ lengths. lengths.items) told result (refused_or
        (rule_break node (size_of tags.now)
        (λ i. tag_rule alternatives (at tags.now i) (at index.now i)))
        (map (tag_length (size_of tags.now) (at tags.now) (at index.now))
        (range_with_len 0 alternatives))) }
    ensures cost { steps.new ≤ steps.old + size_of tags.now + size_of index.now }
{
    let tag_numbers = numbers_of(alloc, tags, steps)?;
    let index_numbers = numbers_of(alloc, index, steps)?;
    judged_tags(alloc, node, alternatives, &tag_numbers, &index_numbers)
}

/// Judges lists from each start below its stop: how many items their content needs.
fn judged_spans<N: Kernels>(
    kernels: &N,
    node: u64,
    starts: &[i64],
    stops: &[i64],
) -> Result<u64, LoadFault>
    requires { length starts.now ≡ length stops.now }
    ensures { Gives (λ length. length) told result (refused_or
        (rule_break node (length starts.now) (list_rules starts.now stops.now))
        (lists_length (length starts.now) (λ i. get_or starts.now i (pos 0))
        (λ i. get_or stops.now i (pos 0)))) }
{
    judge_lists(kernels, node, starts, stops)?;
    Ok(spans_length(starts, stops))
}

/// The greatest stop of the lists that are not empty, or 0.
fn spans_length(starts: &[i64], stops: &[i64]) -> u64
    requires { length starts.now ≡ length stops.now }
    ensures { result ≡ lists_length (length starts.now) (λ i. get_or starts.now i (pos 0)) (λ i.
        get_or stops.now i (pos 0)) }
{
    let mut most = 0;
    for place in 0..starts.len() {
        most = most.max(reach(starts[place], stops[place]));
    }
    most
}

/// The place behind the last item of a list; an empty one needs no item.
fn reach(start: i64, stop: i64) -> u64
    ensures { result ≡ reach start stop }
{
    if start == stop || stop < 0 {
        return 0;
    }
    stop as u64
}

/// The greatest of the indexes and one more; where none is 0 or more it is 0.
fn places_length<N: Kernels>(kernels: &N, index: &[i64]) -> u64
    ensures { result ≡ index_length (length index.now) (λ i. get_or index.now i (pos 0)) }
{
    match kernels.greatest(index) {
        Some(most) => behind(most),
        None => 0,
    }
}

/// The place behind an index; a negative one needs no item.
fn behind(index: i64) -> u64
    ensures { result ≡ behind index }
{
    if index < 0 {
        return 0;
    }
    index as u64 + 1
}

/// Judges tags, each with the index beside it: how many items each alternative needs.
fn judged_tags(
    alloc: Global,
    node: u64,
    alternatives: u64,
    tags: &[i64],
    index: &[i64],
) -> Result<Vec<u64>, LoadFault>
    requires same_length { length tags.now ≡ length index.now }
    requires few { alternatives ≤ 127 }
    ensures { Gives (λ lengths. lengths.items) told result (refused_or
        (rule_break node (length tags.now) (tag_rules alternatives tags.now index.now))
        (map
        (tag_length (length tags.now) (λ i. get_or tags.now i (pos 0))
        (λ i. get_or index.now i (pos 0)))
        (range_with_len 0 alternatives))) }
{
    judge_tags(node, alternatives, tags, index)?;
    Ok(tag_lengths(alloc, alternatives, tags, index)?)
}

/// How many items each alternative needs, in one pass over tags that keep their rule.
fn tag_lengths(
    alloc: Global,
    alternatives: u64,
    tags: &[i64],
    index: &[i64],
) -> Result<Vec<u64>, NoMemory>
    requires same_length { length tags.now ≡ length index.now }
    requires few { alternatives ≤ 127 }
    requires judged { (k : ℕ) → k < length tags.now → tag_rules alternatives tags.now index.now k ≡
        None }
    ensures { IfOk result (λ lengths. lengths.items ≡ map
        (tag_length (length tags.now) (λ i. get_or tags.now i (pos 0))
        (λ i. get_or index.now i (pos 0)))
        (range_with_len 0 alternatives)) }
{
    let mut lengths = vec![in alloc; 0; alternatives as usize]?;
    for place in 0..tags.len() {
        let tag = tags[place] as usize;
        lengths[tag] = lengths[tag].max(behind(index[place]));
    }
    Ok(lengths)
}
