//! Domains: of no variable, of two and of the most.

ghost use Rattle.std.specs.Prelude.{◌≡◌, ◌∷◌, [], length};

use hk_domains::Domains;
use std::alloc::{AllocError, Global};
use std::test::Fail;

/// Whether two variables have these sets, are fixed to these values, and this is the first that isn't fixed.
fn is_told(
    domains: &Domains,
    sets: (u128, u128),
    fixed: (Option<u8>, Option<u8>),
    unfixed: Option<u16>,
) -> bool
    requires { length domains.now.sets ≡ 2 }
{
    let has_sets = domains.values(0) == sets.0 && domains.values(1) == sets.1;
    let is_fixed = domains.fixed(0) == fixed.0 && domains.fixed(1) == fixed.1;
    has_sets && is_fixed && domains.first_unfixed() == unfixed
}

/// Whether two variables that have both values are told so.
fn is_unfixed(domains: &Domains) -> bool
    requires { length domains.now.sets ≡ 2 }
{
    is_told(domains, (3, 3), (None, None), Some(0))
}

/// Whether two variables are told rightly before a level in which the first is fixed to 0 and the second loses
/// 0, in that level, and after it.
fn told_in_a_level(domains: &mut Domains) -> Result<[bool; 3], AllocError>
    requires sets { domains.old.sets ≡ 3 ∷ 3 ∷ [] }
    requires stack { domains.old.stack ≡ [] }
{
    let before = is_unfixed(domains);
    domains.push()?;
    domains.fix(0, 0)?;
    domains.remove(1, 0)?;
    let within = is_told(domains, (1, 2), (Some(0), Some(1)), None);
    domains.pop();
    Ok([before, within, is_unfixed(domains)])
}

/// The same of two variables with the values 0 and 1.
fn told_of_two(alloc: Global) -> Result<[bool; 3], AllocError> {
    let mut domains = Domains::make(alloc, &[3, 3])?;
    told_in_a_level(&mut domains)
}

/// The first variable with several values where there is no variable.
fn first_of_none(alloc: Global) -> Result<Option<u16>, AllocError> {
    let none = Domains::make(alloc, &[])?;
    Ok(none.first_unfixed())
}

/// What the last of 256 variables has in a level in which its last value is taken twice, and the first
/// variable with several values after that level.
fn last_in_a_level(domains: &mut Domains) -> Result<(u128, Option<u16>), AllocError>
    requires sets { length domains.old.sets ≡ 256 }
    requires stack { domains.old.stack ≡ [] }
{
    domains.push()?;
    domains.remove(255, 127)?;
    domains.remove(255, 127)?;
    let last = domains.values(255);
    domains.pop();
    Ok((last, domains.first_unfixed()))
}

/// The same of the most variables, which have all values.
fn last_of_the_most(alloc: Global) -> Result<(u128, Option<u16>), AllocError> {
    let mut most = Domains::make(alloc, &[u128::MAX; 256])?;
    last_in_a_level(&mut most)
}

/// What is told of two variables around a level, of no variable, and of the most around a level.
type Told = ([bool; 3], Option<u16>, (u128, Option<u16>));

/// What is told of domains of two variables, of none and of the most.
fn told(alloc: Global) -> Result<Told, AllocError> {
    let two = told_of_two(alloc)?;
    let none = first_of_none(alloc)?;
    let most = last_of_the_most(alloc)?;
    Ok((two, none, most))
}

#[test]
fn a_pop_gives_back_all_sets(rt: HostRuntime) -> Result<(), Fail> {
    let most = (u128::MAX >> 1, Some(0));
    assert_eq!(rt; told(rt.alloc())?, ([true; 3], None, most));
    Ok(())
}
