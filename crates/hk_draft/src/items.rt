//! What lines declare beside variables: constraints and the objective, in the order of their lines.

ghost use Rattle.std.specs.Prelude.{◌≡◌, ◌↔◌, ◌++◌, [], length, None, IfOk, IsSome, IsTrue, OnOk};
ghost use Rattle.hk_draft.specs.Items.{constraints_of, first_some, gather, objective_of, rule_constraints, rule_objective};

use hk_base::List;
use hk_group::{Constraint, Constraints, Linear};
use std::alloc::{AllocError, Global};

/// What a line declares: a constraint, or what is to be least.
#[derive(Drop)]
pub enum Rule {
    Constraint(Constraint),
    Objective(Linear),
}

/// A constraint or the objective, and whether it begins a new group. The first of all begins one
/// in any case.
#[derive(Drop)]
pub struct Item {
    pub starts: bool,
    pub rule: Rule,
}

/// How many constraints there are among items.
pub fn constraint_count(items: &[Item]) -> usize
    ensures { result ≡ length (constraints_of items.now) }
{
    let mut count = 0;
    for item in items {
        count += constraints_in(&item.rule);
    }
    count
}

/// 1 for a constraint, and 0 for the objective.
fn constraints_in(rule: &Rule) -> usize
    ensures { result ≡ length (rule_constraints rule.now) }
{
    match rule {
        Rule::Constraint(_) => 1,
        Rule::Objective(_) => 0,
    }
}

/// Whether the objective is among items.
pub fn has_objective(items: &[Item]) -> bool
    ensures { IsTrue result ↔ IsSome (objective_of items.now) }
{
    for item in items {
        if let Rule::Objective(_) = &item.rule {
            return true;
        }
    }
    false
}

/// How many groups items make.
pub fn group_count(items: &[Item]) -> usize
    ensures { result ≡ length (gather [] items.now) }
{
    let mut count = 0;
    for item in items {
        count = (count + usize::from(item.starts)).max(1);
    }
    count
}

/// The constraints of items in their order, and the objective, which is the first where there are
/// several.
pub fn rules_of(
    alloc: Global,
    items: List<Item>,
) -> Result<(Constraints, Option<Linear>), AllocError>
    ensures constraints { IfOk result (λ rules. rules.0 ≡ constraints_of items) }
    ensures objective { IfOk result (λ rules. rules.1 ≡ objective_of items) }
{
    let mut constraints = List::new(alloc);
    let mut objective = None;
    match sort_out(&mut constraints, &mut objective, items.into_vec()) {
        Ok(()) => Ok((constraints, objective)),
        Err(refused) => {
            drop(constraints);
            drop(objective);
            Err(refused)
        }
    }
}

/// Puts the constraints of items at the end of a list, and the first objective where none is there.
fn sort_out(
    constraints: &mut Constraints,
    objective: &mut Option<Linear>,
    items: Vec<Item>,
) -> Result<(), AllocError>
    requires none { constraints.old ≡ [] }
    requires nothing { objective.old ≡ None }
    ensures constraints { OnOk result (constraints.new ≡ constraints_of items.items) }
    ensures objective { OnOk result (objective.new ≡ objective_of items.items) }
{
    for item in items {
        sort(constraints, objective, item.rule)?;
    }
    Ok(())
}

/// Puts a constraint at the end of a list, or the objective where none is there.
fn sort(
    constraints: &mut Constraints,
    objective: &mut Option<Linear>,
    rule: Rule,
) -> Result<(), AllocError>
    ensures constraints { OnOk result (constraints.new ≡ constraints.old ++ rule_constraints rule) }
    ensures objective { OnOk result (objective.new ≡ first_some objective.old (rule_objective rule)) }
{
    match rule {
        Rule::Constraint(constraint) => constraints.push(constraint),
        Rule::Objective(linear) => {
            if objective.is_none() {
                drop(objective.replace(linear));
            } else {
                drop(linear);
            }
            Ok(())
        }
    }
}
