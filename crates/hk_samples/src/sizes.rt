//! Sizes of groups: how many variables they have, and how many properties their states have on each
//! side; also of as many parts and variables as a problem may have.

ghost use Rattle.std.specs.Prelude.{◌≡◌, length, IfOk, OnOk};
ghost use Rattle.hk_group.specs.Composed.{HaveLengths};

use hk_base::List;
use hk_group::{Group, Scopes, compose};
use hk_lib::{alldifferent, among, sequence};
use hk_spec::{Bound, Bounds};
use std::alloc::{AllocError, Global};

/// The specifications that groups are composed of here.
#[derive(Clone, Copy)]
enum Sample {
    /// Two properties on each side.
    AllDifferent,
    /// One on each side.
    Among,
    /// `sequence` of three in a row: three properties down, and none up.
    Sequence,
}

/// How many variables a group has, and how many properties its states have down and up.
type Sizes = (usize, usize, usize);

/// The specification for so many values.
fn bound_of(alloc: Global, sample: Sample, count: u16) -> Result<Bound, AllocError> {
    match sample {
        Sample::AllDifferent => alldifferent(alloc, count),
        Sample::Among => among(alloc, count, 0b010, 1, 2),
        Sample::Sequence => sequence(alloc, count, 3, 0b010, 1, 2),
    }
}

/// The variables from 0 on, so many.
fn first_variables(alloc: Global, count: u16) -> Result<List<u16>, AllocError>
    ensures { IfOk result (λ scope. length scope ≡ count) }
{
    let mut scope = List::new(alloc);
    for variable in 0..count {
        scope.push(variable)?;
    }
    Ok(scope)
}

/// Puts a specification and its scope at the end of the lists.
fn push_both(
    bounds: &mut Bounds,
    scopes: &mut Scopes,
    bound: Bound,
    scope: List<u16>,
) -> Result<(), AllocError>
    requires one_each { bound.len ≡ length scope }
    requires lengths { HaveLengths bounds.old scopes.old }
    ensures { OnOk result (HaveLengths bounds.new scopes.new) }
{
    if let Err(refused) = bounds.push(bound) {
        drop(scope);
        return Err(refused);
    }
    scopes.push(scope)?;
    Ok(())
}

/// Puts a specification at the end of a list, and the first variables as its scope at the end of
/// the other.
fn push_part(
    alloc: Global,
    bounds: &mut Bounds,
    scopes: &mut Scopes,
    bound: Bound,
) -> Result<(), AllocError>
    requires { HaveLengths bounds.old scopes.old }
    ensures { OnOk result (HaveLengths bounds.new scopes.new) }
{
    match first_variables(alloc, bound.len) {
        Ok(scope) => push_both(bounds, scopes, bound, scope),
        Err(refused) => {
            drop(bound);
            Err(refused)
        }
    }
}

/// Puts these specifications, each for the first variables, so many, at the ends of the lists.
fn push_parts(
    alloc: Global,
    bounds: &mut Bounds,
    scopes: &mut Scopes,
    samples: &[Sample],
    count: u16,
) -> Result<(), AllocError>
    requires { HaveLengths bounds.old scopes.old }
    ensures { OnOk result (HaveLengths bounds.new scopes.new) }
{
    for sample in samples {
        let bound = bound_of(alloc, *sample, count)?;
        push_part(alloc, bounds, scopes, bound)?;
    }
    Ok(())
}

/// The sizes of a group.
fn sizes_of(group: &Group) -> Sizes {
    let (down, up) = group.shapes();
    (
        group.vars().len(),
        down.as_slice().len(),
        up.as_slice().len(),
    )
}

/// The sizes of the group that is composed of these.
fn composed_sizes(alloc: Global, bounds: &Bounds, scopes: &Scopes) -> Option<Sizes>
    requires { HaveLengths bounds.now scopes.now }
{
    if bounds.as_slice().is_empty() {
        return None;
    }
    match compose(alloc, bounds, scopes) {
        Ok(group) => {
            let sizes = sizes_of(&group);
            drop(group);
            Some(sizes)
        }
        Err(_) => None,
    }
}

/// The sizes of the group of these specifications, which are put into lists that are empty.
fn sizes_in(
    alloc: Global,
    bounds: &mut Bounds,
    scopes: &mut Scopes,
    samples: &[Sample],
    count: u16,
) -> Option<Sizes>
    requires { HaveLengths bounds.old scopes.old }
{
    push_parts(alloc, bounds, scopes, samples, count).ok()?;
    composed_sizes(alloc, bounds, scopes)
}

/// The sizes of the group of these specifications, each for the first variables, so many.
fn sizes(alloc: Global, samples: &[Sample], count: u16) -> Option<Sizes> {
    let mut bounds = List::new(alloc);
    let mut scopes = List::new(alloc);
    let told = sizes_in(alloc, &mut bounds, &mut scopes, samples, count);
    drop(bounds);
    drop(scopes);
    told
}

#[test]
fn groups_have_the_sizes_of_their_parts(rt: HostRuntime) {
    let rows: [(&[Sample], u16, Sizes); 4] = [
        (&[Sample::AllDifferent], 4, (4, 2, 2)),
        (&[Sample::Sequence], 5, (5, 3, 0)),
        (
            &[Sample::Among, Sample::Sequence, Sample::AllDifferent],
            4,
            (4, 6, 3),
        ),
        (&[Sample::Among; 64], 256, (256, 64, 64)),
    ];
    for (samples, count, told) in rows {
        assert_eq!(rt; sizes(rt.alloc(), samples, count), Some(told), "{told:?}");
    }
}
