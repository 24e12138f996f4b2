//! A problem that grows line by line.

ghost use Rattle.std.specs.Prelude.{◌≡◌, ◌<◌, ◌↔◌, ◌∷◌, ◌++◌, [], false, true, length, All, None, Some, IsSome, IsTrue, OnErr, OnOk, IfOk, map};
ghost use Rattle.indexmap.specs.IndexMap.{keys, values};
ghost use Rattle.std.specs.List.Sorted.{IsStrictlyIncreasing};
ghost use Rattle.hk_draft.specs.Declares.{place_of};
ghost use Rattle.hk_draft.specs.Drafts.{HasGroup, IsOf, IsValidDraft, empty_draft, put};
ghost use Rattle.hk_draft.specs.inside.Items.{with_rule};
ghost use Rattle.hk_group.specs.Grouping.{constraint_parts, objective_part};
ghost use Rattle.hk_group.specs.Limits.{most_constraints, most_variables};
ghost use Rattle.hk_group.specs.Problems.{IsValid};

use crate::grouping::groups_of;
use crate::items::{Item, Rule, constraint_count, group_count, has_objective, rules_of};
use hk_base::{Bytes, List, pair};
use hk_group::limits::{CONSTRAINTS, GROUPS, VARIABLES};
use hk_group::{Constraint, Constraints, Groups, Linear, Names, Problem};
use indexmap::IndexMap;
use std::alloc::{AllocError, Global};
use std::marker::Model;

/// What the lines read so far declare: a problem that grows line by line, and whose variables are
/// found by name.
#[derive(Drop)]
pub struct Draft {
    variables: IndexMap<Vec<u8>, u128>,
    items: List<Item>,
    fresh: bool,
}

impl Model for Draft {
    ghost use Rattle.std.specs.Prelude.{◌≤◌, [], map};
    ghost use Rattle.std.specs.Coded.{codes};
    ghost use Rattle.hk_spec.specs.contracts.bindings.Bound as bound;
    ghost use Rattle.indexmap.specs.IndexMap.{keys, values, index_map_len};
    ghost use Rattle.hk_group.specs.Limits.{most_variables};
    ghost use Rattle.hk_draft.specs.Drafts.{PlainDraft};
    ghost use Rattle.hk_draft.specs.Items.{constraints_of, gather, objective_of};

    ghost Value = { PlainDraft };

    ghost coded = { Prim.hlevel (codes, bound.the_row.coded) };

    ghost view = { λ d. record {
      names = map (λ name. name.items) (keys d.variables);
      domains = values d.variables;
      constraints = constraints_of d.items;
      groups = gather [] d.items;
      objective = objective_of d.items;
      fresh = d.fresh;
    } };

    ghost invariant = { λ d. index_map_len d.variables ≤ most_variables };
}

impl Draft {
    /// The draft after the header.
    pub fn new(alloc: Global) -> Draft
        ensures { result ≡ empty_draft }
    {
        Draft {
            variables: IndexMap::new(alloc),
            items: List::new(alloc),
            fresh: true,
        }
    }

    /// How many variables are declared.
    pub fn variable_count(&self) -> usize
        ensures { result ≡ length self.now.names }
    {
        self.variables.len()
    }

    /// Whether there is room for one more constraint, and for the group that it begins.
    pub fn has_room(&self) -> bool
        ensures { IsTrue result ↔ (length self.now.constraints < most_constraints) × HasGroup self.now }
    {
        constraint_count(self.items.as_slice()) < CONSTRAINTS && self.has_group()
    }

    /// Whether there is room for the group that the next constraint or the objective begins, where
    /// it begins one.
    pub fn has_group(&self) -> bool
        ensures { IsTrue result ↔ HasGroup self.now }
    {
        !self.fresh || group_count(self.items.as_slice()) < GROUPS
    }

    /// Lets the next constraint or the objective begin a new group.
    pub fn begin_group(&mut self)
        ensures { self.new ≡ record self.old { fresh = true } }
    {
        self.fresh = true;
    }

    /// The place of the variable with this name, where there is one.
    pub fn place_of(&self, name: &[u8]) -> Option<u16>
        ensures { result ≡ place_of self.now.names name.now }
    {
        match self.variables.get_index_of(name) {
            None => None,
            Some(place) => Some(place as u16),
        }
    }

    /// How many variables are in a scope, of which each is declared.
    pub fn scope_len(&self, scope: &[u16]) -> u16
        requires rising { IsStrictlyIncreasing scope.now }
        requires declared { All (λ place. place < length self.now.names) scope.now }
        ensures { result ≡ length scope.now }
    {
        prove!(scope.len() <= self.variables.len());
        scope.len() as u16
    }

    /// Declares a variable under a name that no other has. Where there is no memory, the draft stays
    /// as it was.
    pub fn add_variable(
        &mut self,
        alloc: Global,
        name: &[u8],
        domain: u128,
    ) -> Result<(), AllocError>
        requires new { place_of self.old.names name.now ≡ None }
        requires room { length self.old.names < most_variables }
        ensures ok { OnOk result (self.new ≡ record self.old {
          names = self.old.names ++ name.now ∷ [];
          domains = self.old.domains ++ domain ∷ [];
        }) }
        ensures unchanged { OnErr result (self.new ≡ self.old) }
    {
        self.variables.insert(name.to_vec(alloc)?, domain)?;
        Ok(())
    }

    /// Declares a constraint. Where there is no memory, the draft stays as it was.
    pub fn add_constraint(&mut self, constraint: Constraint) -> Result<(), AllocError>
        ensures ok { OnOk result (self.new ≡ record self.old {
          constraints = self.old.constraints ++ constraint ∷ [];
          groups = put self.old.fresh self.old.groups (constraint_parts constraint);
          fresh = false;
        }) }
        ensures unchanged { OnErr result (self.new ≡ self.old) }
    {
        self.add(Rule::Constraint(constraint))
    }

    /// Whether the objective is declared.
    pub fn has_objective(&self) -> bool
        ensures { IsTrue result ↔ IsSome self.now.objective }
    {
        has_objective(self.items.as_slice())
    }

    /// Declares the objective, where there is none. Where there is no memory, the draft stays as it
    /// was.
    pub fn add_objective(&mut self, linear: Linear) -> Result<(), AllocError>
        requires { self.old.objective ≡ None }
        ensures ok { OnOk result (self.new ≡ record self.old {
          groups = put self.old.fresh self.old.groups (objective_part linear ∷ []);
          objective = Some linear;
          fresh = false;
        }) }
        ensures unchanged { OnErr result (self.new ≡ self.old) }
    {
        self.add(Rule::Objective(linear))
    }

    /// Declares a constraint or the objective. Where there is no memory, the draft stays as it was.
    fn add(&mut self, rule: Rule) -> Result<(), AllocError>
        ensures ok { OnOk result (self.new ≡ with_rule self.old rule) }
        ensures unchanged { OnErr result (self.new ≡ self.old) }
    {
        let starts = self.fresh;
        self.items.push(Item { starts, rule })?;
        self.fresh = false;
        Ok(())
    }

    /// The problem that is declared, where it is valid.
    pub fn finish(self, alloc: Global) -> Result<Problem, AllocError>
        requires { IsValidDraft self }
        ensures { IfOk result (IsOf self) }
    {
        let Draft {
            variables,
            items,
            fresh: _,
        } = self;
        let groups = groups_of(alloc, items.as_slice());
        let rest = pair(columns(alloc, variables), rules_of(alloc, items));
        match pair(groups, rest) {
            Ok(parts) => Ok(problem_of(parts)),
            Err(refused) => Err(refused),
        }
    }
}

/// The problem of groups, of names and sets of values beside them, and of constraints and the
/// objective.
fn problem_of(parts: (Groups, ((Names, List<u128>), (Constraints, Option<Linear>)))) -> Problem
    requires { IsValid (record { names = parts.1.0.0; domains = parts.1.0.1; constraints = parts.1.1.0; groups = parts.0; objective = parts.1.1.1 }) }
    ensures { result ≡ record { names = parts.1.0.0; domains = parts.1.0.1; constraints = parts.1.1.0; groups = parts.0; objective = parts.1.1.1 } }
{
    let (groups, (columns, rules)) = parts;
    let (names, domains) = columns;
    let (constraints, objective) = rules;
    Problem::new(names, domains, constraints, groups, objective)
}

/// The names of variables, and their sets of values beside them.
fn columns(
    alloc: Global,
    variables: IndexMap<Vec<u8>, u128>,
) -> Result<(Names, List<u128>), AllocError>
    ensures names { IfOk result (λ columns. columns.0 ≡ map (λ name. name.items) (keys variables)) }
    ensures domains { IfOk result (λ columns. columns.1 ≡ values variables) }
{
    let mut names: Names = List::new(alloc);
    let mut domains = List::new(alloc);
    for (name, domain) in variables {
        names.push(Bytes::from_vec(name))?;
        domains.push(domain)?;
    }
    Ok((names, domains))
}
