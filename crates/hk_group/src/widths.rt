//! Which widths the diagrams of a problem may have.

ghost use Rattle.std.specs.Prelude.{◌≡◌, ◌*◌, ◌^◌, ◌≤◌, ◌↔◌, length, All, IsTrue};
ghost use Rattle.std.specs.List.{sum_by};
ghost use Rattle.hk_text.specs.Sets.{members};
ghost use Rattle.hk_group.specs.Groups.{PlainGroup};
ghost use Rattle.hk_group.specs.Limits.{most_variables, most_groups, most_rows, most_group_entries, most_entries, most_properties};
ghost use Rattle.hk_group.specs.Problems.{IsScope};
ghost use Rattle.hk_group.specs.Widths.{FitsWidth, group_values, group_properties};

use crate::group::Group;
use crate::limits::{ENTRIES, GROUP_ENTRIES, PROPERTIES, ROWS};
use crate::problem::Problem;

/// Whether the diagrams of the problem's groups may have this width: how many rows each of their
/// layers has at most. It is 1 to 256, and with so many rows in each layer the diagrams have at most
/// 1,000,000 entries each, 4,000,000 entries together and 8,000,000 properties together. A row has an
/// entry for each value that the layer's variable has, and the properties of its down state and its up
/// state. A problem without groups fits each width from 1 to 256.
pub fn fits(problem: &Problem, width: u16) -> bool
    ensures { IsTrue result ↔ FitsWidth problem.now width }
{
    if width == 0 {
        return false;
    }
    if width > ROWS {
        return false;
    }
    entries_fit(problem, u64::from(width)) && properties_fit(problem, u128::from(width))
}

/// Whether so many rows in each layer have no more entries than they may.
fn entries_fit(problem: &Problem, width: u64) -> bool
    requires { width ≤ most_rows }
    ensures { IsTrue result ↔ (All (λ (g : PlainGroup). width * group_values problem.now.domains g ≤ most_group_entries) problem.now.groups × (width * sum_by (group_values problem.now.domains) problem.now.groups ≤ most_entries)) }
{
    let groups = problem.groups();
    let domains = problem.domains();
    each_fits(domains, groups, width) && width * all_values(domains, groups) <= ENTRIES
}

/// Whether so many rows in each layer have no more properties than they may.
fn properties_fit(problem: &Problem, width: u128) -> bool
    requires { width ≤ most_rows }
    ensures { IsTrue result ↔ width * sum_by group_properties problem.now.groups ≤ most_properties }
{
    width * all_properties(problem.groups()) <= PROPERTIES
}

/// Whether so many rows in each layer have no more entries in each group than they may.
fn each_fits(domains: &[u128], groups: &[Group], width: u64) -> bool
    requires scopes { All (λ (g : PlainGroup). IsScope (length domains.now) g.vars) groups.now }
    requires few { length domains.now ≤ most_variables }
    requires width { width ≤ most_rows }
    ensures { IsTrue result ↔ All (λ (g : PlainGroup). width * group_values domains.now g ≤ most_group_entries) groups.now }
{
    for group in groups {
        if width * group_values(domains, group) > GROUP_ENTRIES {
            return false;
        }
    }
    true
}

/// How many values the variables of groups have, added up.
fn all_values(domains: &[u128], groups: &[Group]) -> u64
    requires scopes { All (λ (g : PlainGroup). IsScope (length domains.now) g.vars) groups.now }
    requires few { length domains.now ≤ most_variables }
    requires few_groups { length groups.now ≤ most_groups }
    ensures sum { result ≡ sum_by (group_values domains.now) groups.now }
    ensures room { result ≤ 2 ^ 20 }
{
    let mut sum = 0;
    for group in groups {
        sum += group_values(domains, group);
    }
    sum
}

/// How many values the variables of a group have, added up.
fn group_values(domains: &[u128], group: &Group) -> u64
    requires scope { IsScope (length domains.now) group.now.vars }
    requires few { length domains.now ≤ most_variables }
    ensures sum { result ≡ group_values domains.now group.now }
    ensures room { result ≤ 2 ^ 15 }
{
    let mut sum = 0;
    for variable in group.vars() {
        sum += value_count(domains[*variable as usize]);
    }
    sum
}

/// How many values a set has.
fn value_count(set: u128) -> u64
    ensures count { result ≡ length (members set) }
    ensures few { result ≤ 128 }
{
    u64::from(set.count_ones())
}

/// How many properties one row in each layer of groups has, added up.
fn all_properties(groups: &[Group]) -> u128
    requires few { length groups.now ≤ most_groups }
    requires short { All (λ (g : PlainGroup). length g.vars ≤ most_variables) groups.now }
    ensures sum { result ≡ sum_by group_properties groups.now }
    ensures room { result ≤ 2 ^ 79 }
{
    let mut sum = 0;
    for group in groups {
        sum += group_properties(group);
    }
    sum
}

/// How many properties one row in each layer of a group has, added up.
fn group_properties(group: &Group) -> u128
    requires { length group.now.vars ≤ most_variables }
    ensures product { result ≡ group_properties group.now }
    ensures room { result ≤ 2 ^ 74 }
{
    let (down, up) = group.shapes();
    (group.vars().len() as u128 + 1) * (down.as_slice().len() as u128 + up.as_slice().len() as u128)
}
