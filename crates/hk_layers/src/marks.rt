//! What becomes of the values of a layer's rows, on the way down.
ghost use Rattle.std.specs.Prelude.{◌≡◌, ◌+◌, ◌<◌, ◌≤◌, ◌^◌, ◌∷◌, ◌++◌, if◌then◌else◌, [], ℕ, length, IfOk, IfSome, IfNone, OnOk};
ghost use Rattle.hk_base.specs.Sets.{Has};
ghost use Rattle.hk_group.specs.Groups.{group_down_shape, group_down};
ghost use Rattle.hk_kinds.specs.Shapes.{HasShape};
ghost use Rattle.hk_text.specs.Sets.{members_below};
ghost use Rattle.hk_layers.specs.Layers.{is_gone, is_cut, goes_on};
ghost use Rattle.hk_layers.specs.Spots.{IsSpot};
ghost use Rattle.hk_layers.specs.inside.Marked.{AreMarked, IsAt, IsNumberOf, marks_of};

use crate::spots::Spot;
use hk_kinds::{Shape1, State, StateView, States};
use hk_table::RowSet;
use std::alloc::{AllocError, Global};
use std::cmp::Ordering;
use std::marker::Model;

/// Among how many of a row's last candidates a step is looked for.
const LOOKED_BACK: usize = 4;

/// What becomes of a value of a row: no path has it, or it was taken away; its test fails whatever comes
/// after it; or it goes on to a step, which is the candidate of this number.
#[derive(Clone, Copy, Debug, PartialEq, Eq)]
pub(crate) enum Fate {
    Gone,
    Cut,
    On(u32),
}

/// What becomes of the values of a layer's rows, row by row: their fates, the candidates for steps, and for
/// each value the set of old rows that it leads to.
#[derive(Drop)]
pub(crate) struct Marks {
    // A step is written here before it is looked for, so that no state is made for each value.
    step: State,
    pub(crate) candidates: States,
    pub(crate) fates: Vec<Fate>,
    pub(crate) sets: Vec<RowSet>,
}

impl Model for Marks {
    ghost use Rattle.std.specs.Prelude.{◌≡◌, length};
    ghost use Rattle.hk_layers.specs.Views.{MarksView};

    ghost Value = { MarksView };

    ghost view = { λ m. record { width = m.candidates.width; candidates = m.candidates.rows; fates = m.fates.items; sets = m.sets.items } };

    ghost invariant = { λ m. length m.step ≡ m.candidates.width };
}

impl Marks {
    /// No marks; the candidates of those to come have this shape.
    pub(crate) fn new(alloc: Global, shape: &Shape1) -> Result<Marks, AllocError>
        ensures { IfOk result (λ marks. marks ≡ record { width = length shape.now; candidates = []; fates = []; sets = [] }) }
    {
        Ok(Marks {
            step: State::top(alloc, shape)?,
            candidates: States::new(alloc, shape.as_slice().len()),
            fates: Vec::new(alloc),
            sets: Vec::new(alloc),
        })
    }

    /// Takes all marks out, and keeps the memory for others.
    pub(crate) fn clear(&mut self)
        ensures { self.new ≡ record self.old { candidates = []; fates = []; sets = [] } }
    {
        self.candidates.clear();
        self.fates.clear();
        self.sets.clear();
    }

    /// How many candidates there are.
    #[inline]
    pub(crate) fn count(&self) -> usize
        ensures { result ≡ length self.now.candidates }
    {
        self.candidates.len()
    }

    /// Adds the mark of a value that is gone, or that is cut.
    #[inline]
    pub(crate) fn stop(
        &mut self,
        spot: &Spot<'_>,
        old_rows: u16,
        cut: bool,
        set: &RowSet,
    ) -> Result<(), AllocError>
        requires marked { AreMarked spot.now old_rows self.old }
        requires within { (c : ℕ) → Has set.now c → c < old_rows }
        ensures marks { OnOk result (marks_of self.new ≡ marks_of self.old ++ (if cut then is_cut else is_gone) ∷ []) }
        ensures marked { OnOk result (AreMarked spot.now old_rows self.new) }
        ensures candidates { self.new.candidates ≡ self.old.candidates }
        ensures width { self.new.width ≡ self.old.width }
        ensures long { OnOk result (length self.new.fates ≡ length self.old.fates + 1) }
    {
        let fate = if cut { Fate::Cut } else { Fate::Gone };
        self.add(fate, set)?;
        Ok(())
    }

    /// Adds the mark of a value that goes on from a down state. Its step is a candidate; no new one where it
    /// is one of the last few candidates from `first` on.
    pub(crate) fn go_on(
        &mut self,
        spot: &Spot<'_>,
        old_rows: u16,
        value: u8,
        from: &StateView<'_>,
        first: usize,
        set: &RowSet,
    ) -> Result<(), AllocError>
        requires spot { IsSpot spot.now }
        requires value { value < 128 }
        requires from { HasShape (group_down_shape spot.now.group) from.now }
        requires few { length self.old.candidates + 1 < 2 ^ 32 }
        requires marked { AreMarked spot.now old_rows self.old }
        requires within { (c : ℕ) → Has set.now c → c < old_rows }
        ensures marks { OnOk result (marks_of self.new ≡ marks_of self.old ++ goes_on (group_down spot.now.group spot.now.layer value from.now) (members_below set.now 256) ∷ []) }
        ensures marked { OnOk result (AreMarked spot.now old_rows self.new) }
        ensures candidates { length self.new.candidates ≤ length self.old.candidates + 1 }
        ensures width { self.new.width ≡ self.old.width }
        ensures long { OnOk result (length self.new.fates ≡ length self.old.fates + 1) }
    {
        spot.group
            .write_down(spot.layer as usize, value, from, &mut self.step);
        // A row with many values would be looked through in the square of their number. What is missed here is a
        // candidate twice, and the same step in the end.
        let recent = first.max(self.candidates.len().saturating_sub(LOOKED_BACK));
        let number = number_of(&mut self.candidates, recent, &self.step.view())?;
        self.add(Fate::On(number), set)?;
        Ok(())
    }

    /// Adds the mark that has this fate, and leads to this set of old rows.
    #[inline]
    fn add(&mut self, fate: Fate, set: &RowSet) -> Result<(), AllocError>
        ensures ok { OnOk result (self.new ≡ record self.old { fates = self.old.fates ++ fate ∷ []; sets = self.old.sets ++ set.now ∷ [] }) }
        ensures candidates { self.new.candidates ≡ self.old.candidates }
        ensures width { self.new.width ≡ self.old.width }
    {
        self.fates.push(fate)?;
        self.sets.push(set.copy())?;
        Ok(())
    }
}

/// The number of a step among the candidates: that of an equal one from `first` on, or of a new one at
/// the end.
fn number_of(candidates: &mut States, first: usize, step: &StateView<'_>) -> Result<u32, AllocError>
    requires width { length step.now ≡ candidates.old.width }
    requires few { length candidates.old.rows + 1 < 2 ^ 32 }
    ensures number { IfOk result (λ number. IsNumberOf step.now first candidates.old.rows number candidates.new.rows) }
    ensures width { candidates.new.width ≡ candidates.old.width }
    ensures few { length candidates.new.rows ≤ length candidates.old.rows + 1 }
{
    match find(candidates, first, step) {
        Some(number) => Ok(number as u32),
        None => {
            let number = candidates.len() as u32;
            candidates.push(step)?;
            Ok(number)
        }
    }
}

/// The number of the first candidate from `first` on that is this step.
fn find(candidates: &States, first: usize, step: &StateView<'_>) -> Option<usize>
    ensures found { IfSome result (λ number. IsAt candidates.now.rows step.now number) }
    ensures alone { IfNone result ((number : ℕ) → first ≤ number → IsAt candidates.now.rows step.now number → ⊥) }
{
    for number in first..candidates.len() {
        if candidates.at(number).compare(step) == Ordering::Equal {
            return Some(number);
        }
    }
    None
}
