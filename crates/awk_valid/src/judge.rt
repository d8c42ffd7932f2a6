//! The places of a node, judged by the rule of its class.
ghost use Rattle.std.specs.Prelude.{◌≡◌, ◌<◌, ◌≤◌, ◌≤ℤ◌, length, get_or, pos, int_lt, position};
ghost use Rattle.std.specs.Prelude.{if◌then◌else◌};
ghost use Rattle.awk_types.specs.Gives.{Gives};
ghost use Rattle.awk_lanes.specs.Numbers.{nat_of};
ghost use Rattle.awk_form.specs.Told.{unit};
ghost use Rattle.awk_valid.specs.Broken.{rule_break, tag_rule};
ghost use Rattle.awk_valid.specs.Loading.{told, judged};
ghost use Rattle.awk_valid.specs.Rules.{list_rules, index_rules, tag_rules};
ghost use Rattle.awk_valid.specs.declared.fault.Rule.TheVariants.{Order, Start};

use crate::fault::{LoadFault, Rule};
use awk_kernels::Kernels;

/// The rule that a list out of order breaks.
fn broken_rule(starts: &[i64], stops: &[i64], place: usize) -> Rule
    requires start { place < length starts.now }
    requires stop { place < length stops.now }
    ensures { result ≡ (if int_lt (get_or stops.now place (pos 0)) (get_or starts.now place (pos
        0)) then Order else Start) }
{
    if stops[place] < starts[place] {
        Rule::Order
    } else {
        Rule::Start
    }
}

/// Each list, from its start below its stop: the first that breaks its rule is the fault.
pub(crate) fn judge_lists<N: Kernels>(
    kernels: &N,
    node: u64,
    starts: &[i64],
    stops: &[i64],
) -> Result<(), LoadFault>
    requires { length starts.now ≡ length stops.now }
    ensures { Gives unit told result
        (judged (rule_break node (length starts.now) (list_rules starts.now stops.now))) }
{
    match kernels.first_out_of_order(starts, stops) {
        None => Ok(()),
        Some(place) => Err(LoadFault::Invalid {
            node,
            rule: broken_rule(starts, stops, place),
            place: place as u64,
        }),
    }
}

/// Each index: the first that is negative is the fault.
pub(crate) fn judge_indexes(node: u64, index: &[i64]) -> Result<(), LoadFault>
    ensures { Gives unit told result
        (judged (rule_break node (length index.now) (index_rules index.now))) }
{
    match first_negative(index) {
        None => Ok(()),
        Some(place) => Err(LoadFault::Invalid {
            node,
            rule: Rule::Negative,
            place: place as u64,
        }),
    }
}

/// The place of the first negative number.
fn first_negative(index: &[i64]) -> Option<usize>
    ensures { result ≡ position (λ x. int_lt x (pos 0)) index.now }
{
    index.iter().position(|&x| x < 0)
}

/// Each tag, and the index beside it: the first that breaks its rule is the fault.
pub(crate) fn judge_tags(
    node: u64,
    alternatives: u64,
    tags: &[i64],
    index: &[i64],
) -> Result<(), LoadFault>
    requires same_length { length tags.now ≡ length index.now }
    requires few { alternatives ≤ 127 }
    ensures { Gives unit told result
        (judged (rule_break node (length tags.now) (tag_rules alternatives tags.now index.now))) }
{
    for place in 0..tags.len() {
        if let Some(rule) = broken_at(alternatives, tags, index, place) {
            return Err(LoadFault::Invalid {
                node,
                rule,
                place: place as u64,
            });
        }
    }
    Ok(())
}

/// The rule that the tag at a place, or the index beside it, breaks.
fn broken_at(alternatives: u64, tags: &[i64], index: &[i64], place: usize) -> Option<Rule>
    requires tag { place < length tags.now }
    requires index { place < length index.now }
    requires few { alternatives ≤ 127 }
    ensures { result ≡ tag_rules alternatives tags.now index.now place }
{
    broken_tag(alternatives as i64, tags[place], index[place])
}

/// The rule that a tag, or the index beside it, breaks.
fn broken_tag(alternatives: i64, tag: i64, index: i64) -> Option<Rule>
    requires { pos 0 ≤ℤ alternatives }
    ensures { result ≡ tag_rule (nat_of alternatives) tag index }
{
    if tag < 0 || tag >= alternatives {
        return Some(Rule::Tag);
    }
    if index < 0 {
        return Some(Rule::Negative);
    }
    None
}
