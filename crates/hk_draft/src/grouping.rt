//! The groups of items, each composed of the specifications of its constraints and of the objective.

ghost use Rattle.std.specs.Prelude.{◌≡◌, ◌++◌, ◌<◌, ◌≤◌, [], length, map, take, drop as skipped, All, IfOk, OnOk};
ghost use Rattle.hk_group.specs.Composed.{HaveLengths, parts_of};
ghost use Rattle.hk_group.specs.Groups.{IsGroup, PlainGroup};
ghost use Rattle.hk_draft.specs.Items.{gather};
ghost use Rattle.hk_draft.specs.inside.Items.{AreSmallItems, BeginsGroup, IsRun, item_parts};

use crate::items::Item;
use crate::specifying::push_rule;
use hk_base::List;
use hk_group::{Group, Groups, Scopes, compose};
use hk_spec::Bounds;
use std::alloc::{AllocError, Global};

/// The groups of items, in order.
pub fn groups_of(alloc: Global, items: &[Item]) -> Result<Groups, AllocError>
    requires { AreSmallItems items.now }
    ensures parts { IfOk result (λ groups. map (λ (group : PlainGroup). group.parts) groups ≡ gather [] items.now) }
    ensures composed { IfOk result (All IsGroup) }
{
    let mut groups = List::new(alloc);
    match push_groups(alloc, &mut groups, items) {
        Ok(()) => Ok(groups),
        Err(refused) => {
            drop(groups);
            Err(refused)
        }
    }
}

/// Puts the groups of items into an empty list.
fn push_groups(alloc: Global, groups: &mut Groups, items: &[Item]) -> Result<(), AllocError>
    requires none { groups.old ≡ [] }
    requires small { AreSmallItems items.now }
    ensures parts { OnOk result (map (λ (group : PlainGroup). group.parts) groups.new ≡ gather [] items.now) }
    ensures composed { OnOk result (All IsGroup groups.new) }
{
    let mut rest = items;
    'groups: while !rest.is_empty() {
        let (run, after) = first_run(rest);
        groups.push(composed(alloc, run)?)?;
        rest = after;
    }
    Ok(())
}

/// The items of the first group, and the items after it.
fn first_run(items: &[Item]) -> (&[Item], &[Item])
    requires { 0 < length items.now }
    ensures parts { items.now ≡ result.0.now ++ result.1.now }
    ensures run { IsRun result.0.now }
    ensures next { BeginsGroup result.1.now }
{
    items.split_at(run_len(items))
}

/// How many items the first group has.
fn run_len(items: &[Item]) -> usize
    requires { 0 < length items.now }
    ensures fits { result ≤ length items.now }
    ensures run { IsRun (take result items.now) }
    ensures next { BeginsGroup (skipped result items.now) }
{
    for place in 1..items.len() {
        if items[place].starts {
            return place;
        }
    }
    items.len()
}

/// The group of these items.
fn composed(alloc: Global, items: &[Item]) -> Result<Group, AllocError>
    requires some { 0 < length items.now }
    requires small { AreSmallItems items.now }
    ensures parts { IfOk result (λ group. group.parts ≡ item_parts items.now) }
    ensures rules { IfOk result IsGroup }
{
    let mut specs = List::new(alloc);
    let mut scopes = List::new(alloc);
    let answer = compose_into(alloc, &mut specs, &mut scopes, items);
    drop(specs);
    drop(scopes);
    answer
}

/// The group of these items, over lists that are empty before.
fn compose_into(
    alloc: Global,
    specs: &mut Bounds,
    scopes: &mut Scopes,
    items: &[Item],
) -> Result<Group, AllocError>
    requires nothing { specs.old ≡ [] }
    requires none { scopes.old ≡ [] }
    requires some { 0 < length items.now }
    requires small { AreSmallItems items.now }
    ensures parts { IfOk result (λ group. group.parts ≡ item_parts items.now) }
    ensures rules { IfOk result IsGroup }
{
    push_items(alloc, specs, scopes, items)?;
    match compose(alloc, specs, scopes) {
        Ok(group) => Ok(group),
        // the scopes rise, so it is the memory
        Err(_) => Err(AllocError),
    }
}

/// Puts the specifications of items, with their scopes, into lists that are empty before.
fn push_items(
    alloc: Global,
    specs: &mut Bounds,
    scopes: &mut Scopes,
    items: &[Item],
) -> Result<(), AllocError>
    requires nothing { specs.old ≡ [] }
    requires none { scopes.old ≡ [] }
    requires small { AreSmallItems items.now }
    ensures parts { OnOk result (parts_of specs.new scopes.new ≡ item_parts items.now) }
    ensures lengths { OnOk result (HaveLengths specs.new scopes.new) }
{
    for item in items {
        push_rule(alloc, specs, scopes, &item.rule)?;
    }
    Ok(())
}
