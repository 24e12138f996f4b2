//! The domains are brought down to what the tables of all groups allow.

ghost use Rattle.std.specs.Prelude.{◌≡◌, ◌↔◌, ℕ, ◌<◌, ◌≤◌, ◌^◌, true, length, slice_index, slice_index_or, slice_set, All, IfOk, OnOk};
ghost use Rattle.hk_base.specs.Sets.{Has};
ghost use Rattle.hk_group.specs.Groups.{PlainGroup};
ghost use Rattle.hk_sweep.specs.Loose.{group_shape};
ghost use Rattle.hk_table.specs.Keeps.{Supports};
ghost use Rattle.hk_prop.specs.Passes.{pruned};
ghost use Rattle.hk_prop.specs.Supports.{allows};
ghost use Rattle.hk_prop.specs.Works.{WorkView, tables_of};
ghost use Rattle.hk_prop.specs.inside.Narrowed.{AreMet};
ghost use Rattle.hk_prop.specs.inside.Revised.{HaveShapes, IsTellable};

use crate::work::Work;
use hk_arena::Diagram;
use hk_domains::Domains;
use hk_group::{Group, Problem};
use hk_table::{split_least, value_count};
use std::alloc::{AllocError, Global};

/// Leaves of the sets of variables the values that stand in the supported sets of their layers.
fn meet(sets: &mut [u128], vars: &[u16], supported: &[u128])
    requires declared { All (λ variable. variable < length sets.old) vars.now }
    requires places { length supported.now ≡ length vars.now }
    ensures long { length sets.new ≡ length sets.old }
    ensures small { All (λ set. set < 2 ^ 128) sets.new }
    ensures met { AreMet vars.now supported.now (length vars.now) sets.old sets.new }
{
    'layers: for layer in 0..vars.len() {
        let variable = usize::from(vars[layer]);
        sets[variable] = sets[variable] & supported[layer];
    }
}

/// So many empty sets.
fn empty_sets(alloc: Global, count: usize) -> Result<Vec<u128>, AllocError>
    ensures { IfOk result (λ sets. length sets.items ≡ count) }
{
    vec![in alloc; 0u128; count]
}

/// Writes the supported values of each layer of a diagram but the last.
fn read_support(diagram: &Diagram, out: &mut Vec<u128>)
    requires places { length out.old.items ≡ length diagram.now.shape.domains }
    requires tellable { IsTellable diagram.now.table }
    ensures places { length out.new.items ≡ length diagram.now.shape.domains }
    ensures supported { (level value : ℕ) → level < length diagram.now.shape.domains → Has (slice_index out.new.items level) value ↔ Supports diagram.now.shape diagram.now.table level value }
{
    diagram.fits();
    diagram.support_into(out.as_mut_slice());
}

/// Leaves of the sets of all variables what the table of a group allows.
fn meet_group(
    alloc: Global,
    sets: &mut [u128],
    diagram: &Diagram,
    group: &Group,
    model: &[u128],
) -> Result<(), AllocError>
    requires declared { All (λ variable. variable < length sets.old) group.now.vars }
    requires shape { diagram.now.shape ≡ group_shape group.now model.now }
    requires tellable { IsTellable diagram.now.table }
    ensures long { length sets.new ≡ length sets.old }
    ensures small { All (λ set. set < 2 ^ 128) sets.new }
    ensures met { OnOk result ((variable value : ℕ) → variable < length sets.old → Has (slice_index sets.new variable) value ↔ (Has (slice_index sets.old variable) value × (allows model.now group.now diagram.now.table variable value ≡ true))) }
{
    let vars = group.vars();
    let mut supported = empty_sets(alloc, vars.len())?;
    read_support(diagram, &mut supported);
    meet(sets, vars, supported.as_slice());
    Ok(())
}

/// Leaves of the sets of all variables what the tables of all groups allow.
pub(crate) fn narrow(
    alloc: Global,
    sets: &mut [u128],
    problem: &Problem,
    work: &[Work],
) -> Result<(), AllocError>
    requires long { length sets.old ≡ length problem.now.domains }
    requires one_each { length work.now ≡ length problem.now.groups }
    requires shapes { HaveShapes problem.now work.now }
    requires tellable { (k : ℕ) (w : WorkView) → k < length work.now → IsTellable (slice_index_or work.now k w).diagram.table }
    ensures long { length sets.new ≡ length sets.old }
    ensures small { All (λ set. set < 2 ^ 128) sets.new }
    ensures narrow { OnOk result (sets.new ≡ pruned problem.now.domains problem.now.groups (tables_of work.now) sets.old) }
{
    let model = problem.domains();
    let groups = problem.groups();
    'groups: for at in 0..work.len() {
        let work = &work[at];
        meet_group(alloc, sets, &work.diagram, &groups[at], model)?;
    }
    Ok(())
}

/// Removes the values of a set from the domain of a variable.
fn remove_all(domains: &mut Domains, variable: u16, gone: u128) -> Result<(), AllocError>
    requires variable { variable < length domains.old.sets }
    ensures others { OnOk result (domains.new.sets ≡ slice_set domains.old.sets variable (slice_index domains.new.sets variable)) }
    ensures removed { OnOk result ((value : ℕ) → value < 128 → Has (slice_index domains.new.sets variable) value ↔ (Has (slice_index domains.old.sets variable) value × (Has gone value → ⊥))) }
    ensures stack { domains.new.stack ≡ domains.old.stack }
    ensures long { length domains.new.sets ≡ length domains.old.sets }
{
    let mut left = gone;
    'values: while value_count(left) != 0 {
        let (value, rest) = split_least(left);
        domains.remove(variable, value)?;
        left = rest;
    }
    Ok(())
}

/// Brings the domain of a variable down to a set that lies in it.
fn reduce(domains: &mut Domains, variable: u16, set: u128) -> Result<(), AllocError>
    requires variable { variable < length domains.old.sets }
    requires inside { (value : ℕ) → Has set value → Has (slice_index domains.old.sets variable) value }
    ensures sets { OnOk result (domains.new.sets ≡ slice_set domains.old.sets variable set) }
    ensures stack { domains.new.stack ≡ domains.old.stack }
    ensures long { length domains.new.sets ≡ length domains.old.sets }
{
    let had = domains.values(variable);
    remove_all(domains, variable, had & !set)?;
    // What is left has values from 0 to 127 alone, so that it is the set where it has the same values.
    let _left = domains.values(variable);
    Ok(())
}

/// Brings all domains down to sets that lie in them.
pub(crate) fn reduce_all(domains: &mut Domains, sets: &[u128]) -> Result<(), AllocError>
    requires long { length sets.now ≡ length domains.old.sets }
    requires few { length sets.now ≤ 256 }
    requires inside { (variable value : ℕ) → variable < length sets.now → Has (slice_index sets.now variable) value → Has (slice_index domains.old.sets variable) value }
    ensures sets { OnOk result (domains.new.sets ≡ sets.now) }
    ensures stack { domains.new.stack ≡ domains.old.stack }
{
    'variables: for variable in 0..sets.len() {
        reduce(domains, variable as u16, sets[variable])?;
    }
    Ok(())
}

/// Brings all domains, and a list of their sets, down to what the tables of all groups allow.
pub(crate) fn narrow_domains(
    alloc: Global,
    domains: &mut Domains,
    sets: &mut [u128],
    problem: &Problem,
    work: &[Work],
) -> Result<(), AllocError>
    requires sets { sets.old ≡ domains.old.sets }
    requires long { length sets.old ≡ length problem.now.domains }
    requires one_each { length work.now ≡ length problem.now.groups }
    requires shapes { HaveShapes problem.now work.now }
    requires tellable { (k : ℕ) (w : WorkView) → k < length work.now → IsTellable (slice_index_or work.now k w).diagram.table }
    ensures domains { OnOk result (domains.new.sets ≡ pruned problem.now.domains problem.now.groups (tables_of work.now) domains.old.sets) }
    ensures sets { OnOk result (sets.new ≡ domains.new.sets) }
    ensures stack { domains.new.stack ≡ domains.old.stack }
{
    let _model = problem.domains();
    narrow(alloc, sets, problem, work)?;
    reduce_all(domains, sets)?;
    Ok(())
}
