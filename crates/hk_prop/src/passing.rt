//! What is asked around a pass: whether all revisions had memory, the sets of the domains, and whether another pass
//! follows.

ghost use Rattle.std.specs.Prelude.{◌≡◌, ◌==◌, ◌||◌, ℕ, ◌<◌, ◌≤◌, length, not, slice_index_or, IfOk, OnOk, IsFalse};
ghost use Rattle.hk_prop.specs.Contents.{has_empty, values_left};
ghost use Rattle.hk_prop.specs.Passes.{tight_tables};
ghost use Rattle.hk_prop.specs.Works.{AreWorksFor, OnlyTablesChange, WorkView, tables_of};
ghost use Rattle.hk_prop.specs.inside.Revised.{IsTellable};

use crate::counting::{count_values, is_some_empty};
use crate::revising::revise_all;
use crate::rounds::Round;
use crate::work::Work;
use hk_base::Gate;
use hk_domains::Domains;
use std::alloc::{AllocError, Global};

/// The sets of all domains, of which there are so many.
pub(crate) fn sets_of(alloc: Global, domains: &Domains, count: u16) -> Result<Vec<u128>, AllocError>
    requires { count ≡ length domains.now.sets }
    ensures { IfOk result (λ sets. sets.items ≡ domains.now.sets) }
{
    let mut sets = Vec::new(alloc);
    'domains: for variable in 0..count {
        sets.push(domains.values(variable))?;
    }
    Ok(sets)
}

/// Refuses where the last revision of some diagram was refused.
pub(crate) fn none_refused(work: &[Work]) -> Result<(), AllocError>
    ensures { OnOk result ((k : ℕ) (w : WorkView) → k < length work.now → IsFalse (slice_index_or work.now k w).refused) }
{
    'diagrams: for at in 0..work.len() {
        let work = &work[at];
        if work.refused {
            return Err(AllocError);
        }
    }
    Ok(())
}

/// Revises the diagrams of all groups, and refuses where memory was refused to the revision of one.
pub(crate) fn make_tight<G: Gate>(
    alloc: Global,
    work: &mut [Work],
    round: &Round<'_>,
    workers: u16,
    gate: &G,
) -> Result<(), AllocError>
    requires workers { 0 < workers }
    requires works { AreWorksFor round.now.problem round.now.width work.old }
    requires domains { length round.now.domains ≡ length round.now.problem.domains }
    ensures works { AreWorksFor round.now.problem round.now.width work.new }
    ensures tables_only { OnlyTablesChange work.old work.new }
    ensures long { length work.new ≡ length work.old }
    ensures tellable { OnOk result ((k : ℕ) (w : WorkView) → k < length work.new → IsTellable (slice_index_or work.new k w).diagram.table) }
    ensures tables { OnOk result (tables_of work.new ≡ tight_tables round.now.problem.groups round.now.problem.domains round.now.domains round.now.best round.now.width (tables_of work.old)) }
{
    revise_all(alloc, work, round, workers, gate);
    none_refused(work)
}

/// Whether another pass follows the one that left at most 256 sets, which had so many values before it.
pub(crate) fn goes_on(before: u32, sets: &[u128]) -> bool
    requires { length sets.now ≤ 256 }
    ensures { result ≡ not (has_empty sets.now || values_left sets.now == before) }
{
    if is_some_empty(sets) {
        return false;
    }
    count_values(sets) != before
}
