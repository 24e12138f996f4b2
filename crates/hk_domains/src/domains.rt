//! The sets of values of all variables, with levels.

ghost use Rattle.std.specs.Prelude.{◌≡◌, ℕ, ◌+◌, ◌<◌, ◌≤◌, ◌^◌, ◌∷◌, [], length, slice_index, slice_set, IfOk, IfSome, IfNone, IsOk, OnOk, OnErr, Some};
ghost use Rattle.hk_base.specs.Sets.{Has};
ghost use Rattle.hk_domains.specs.Values.{HasSeveral, IsOnlyValue, IsWithout};

use crate::counted;
use crate::values::{has_several, only, only_value, without};
use hk_trail::Store;
use std::alloc::{AllocError, Global};
use std::marker::Model;

/// A set of values for each of at most 256 variables, and a stack of levels.
///
/// Contracts see the list of the sets and the stack of the lists at the open pushes. A set is a number
/// whose bit v, from 0 to 127, stands for the value v.
#[derive(Drop)]
pub struct Domains {
    store: Store,
    count: u16,
}

impl Model for Domains {
    ghost use Rattle.std.specs.Prelude.{map};
    ghost use Rattle.hk_domains.specs.Domains.{DomainLevels, HoldsSets};

    ghost Value = { DomainLevels };

    ghost view = { λ d. record { sets = d.store.content.bits; stack = map (λ content. content.bits) d.store.stack } };

    ghost invariant = { λ d. HoldsSets d.count d.store };
}

impl Domains {
    /// The domains that a list gives, the first for variable 0.
    pub fn make(alloc: Global, sets: &[u128]) -> Result<Domains, AllocError>
        requires { length sets.now ≤ 256 }
        ensures sets { IfOk result (λ domains. domains.sets ≡ sets.now) }
        ensures stack { IfOk result (λ domains. domains.stack ≡ []) }
    {
        let mut store = Store::new(alloc);
        for set in sets {
            store.grow_bits(1, *set)?;
        }
        Ok(Domains {
            store,
            count: sets.len() as u16,
        })
    }

    /// The set of a variable, which has values from 0 to 127 alone.
    #[inline]
    pub fn values(&self, var: u16) -> u128
        requires { var < length self.now.sets }
        ensures set { result ≡ slice_index self.now.sets var }
        ensures within { result < 2 ^ 128 }
    {
        self.store.get_bits(self.store.bits_id(var as u32))
    }

    /// The one value that a variable has left, or `None` where it has none or several.
    pub fn fixed(&self, var: u16) -> Option<u8>
        requires { var < length self.now.sets }
        ensures some { IfSome result (IsOnlyValue (slice_index self.now.sets var)) }
        ensures all { (value : ℕ) → IsOnlyValue (slice_index self.now.sets var) value → result ≡ Some value }
    {
        only_value(self.values(var))
    }

    /// The first variable that has two values or more, or `None` where each has one at most.
    pub fn first_unfixed(&self) -> Option<u16>
        ensures within { IfSome result (λ var. var < length self.now.sets) }
        ensures several { IfSome result (λ var. HasSeveral (slice_index self.now.sets var)) }
        ensures first { IfSome result (λ var. (earlier : ℕ) → earlier < var → ¬ HasSeveral (slice_index self.now.sets earlier)) }
        ensures none { IfNone result ((var : ℕ) → var < length self.now.sets → ¬ HasSeveral (slice_index self.now.sets var)) }
    {
        for var in 0..self.count {
            if has_several(self.store.get_bits(self.store.bits_id(var as u32))) {
                return Some(var);
            }
        }
        None
    }

    /// Takes a value from a variable's set, and nothing else. Where the set doesn't have the value the
    /// call changes nothing, and where memory is refused nothing changes either.
    pub fn remove(&mut self, var: u16, value: u8) -> Result<(), AllocError>
        requires var { var < length self.old.sets }
        requires value { value < 128 }
        ensures removed { OnOk result (IsWithout (slice_index self.old.sets var) value (slice_index self.new.sets var)) }
        ensures others { OnOk result (self.new.sets ≡ slice_set self.old.sets var (slice_index self.new.sets var)) }
        ensures absent { ¬ Has (slice_index self.old.sets var) value → IsOk result × (self.new ≡ self.old) }
        ensures stack { self.new.stack ≡ self.old.stack }
        ensures refused { OnErr result (self.new ≡ self.old) }
    {
        let rest = without(self.values(var), value);
        self.set(var, rest)
    }

    /// Keeps one value alone of a variable's set. Where the set has no other the call changes nothing,
    /// and where memory is refused nothing changes either.
    pub fn fix(&mut self, var: u16, value: u8) -> Result<(), AllocError>
        requires var { var < length self.old.sets }
        requires value { value < 128 }
        requires there { Has (slice_index self.old.sets var) value }
        ensures fixed { OnOk result (IsOnlyValue (slice_index self.new.sets var) value) }
        ensures exact { OnOk result (slice_index self.new.sets var ≡ 2 ^ value) }
        ensures others { OnOk result (self.new.sets ≡ slice_set self.old.sets var (slice_index self.new.sets var)) }
        ensures already { slice_index self.old.sets var ≡ 2 ^ value → IsOk result × (self.new ≡ self.old) }
        ensures stack { self.new.stack ≡ self.old.stack }
        ensures refused { OnErr result (self.new ≡ self.old) }
    {
        self.set(var, only(value))
    }

    /// Opens a level: saves all sets, and copies none. Where memory is refused nothing changes.
    pub fn push(&mut self) -> Result<(), AllocError>
        requires { length self.old.stack + 1 < 2 ^ 32 }
        ensures sets { self.new.sets ≡ self.old.sets }
        ensures stack { OnOk result (self.new.stack ≡ self.old.sets ∷ self.old.stack) }
        ensures refused { OnErr result (self.new ≡ self.old) }
    {
        self.store.push()?;
        Ok(())
    }

    /// Closes the highest level: all sets are those at its push. It takes no memory.
    pub fn pop(&mut self)
        requires { 0 < length self.old.stack }
        ensures stack { self.old.stack ≡ self.new.sets ∷ self.new.stack }
        ensures count { length self.new.sets ≡ length self.old.sets }
    {
        counted::pop(&mut self.store);
    }

    fn set(&mut self, var: u16, set: u128) -> Result<(), AllocError>
        requires { var < length self.old.sets }
        ensures sets { OnOk result (self.new.sets ≡ slice_set self.old.sets var set) }
        ensures equal { slice_index self.old.sets var ≡ set → IsOk result × (self.new ≡ self.old) }
        ensures stack { self.new.stack ≡ self.old.stack }
        ensures refused { OnErr result (self.new ≡ self.old) }
    {
        let id = self.store.bits_id(var as u32);
        counted::set_bits(&mut self.store, id, set)?;
        Ok(())
    }
}
