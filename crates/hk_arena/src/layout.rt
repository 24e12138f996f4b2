//! Where the cells of a diagram lie.
ghost use Rattle.std.specs.Prelude.{◌≡◌, ◌+◌, ◌<◌, ◌^◌, length, slice_index, IfOk};
ghost use Rattle.hk_arena.specs.Diagrams.{values_of};
ghost use Rattle.hk_text.specs.Sets.{members};
ghost use Rattle.hk_arena.specs.Making.{IsMakeable};
ghost use Rattle.hk_arena.specs.Forms.{layer_count, nums_in, sets_in, row_nums, row_bits, row_words, nums_at, bits_at, words_at, num_count, bits_count, word_count};
ghost use Rattle.hk_arena.specs.Kept.{IsSmall};
ghost use Rattle.hk_arena.specs.inside.OneRow.{IsPlace};

use crate::ids::EntryId;
use crate::sizes::{copied, state_nums, state_sets, value_counts, word_starts};
use hk_base::pair;
use hk_kinds::Kind;
use hk_table::Shape;
use std::alloc::{AllocError, Global};
use std::marker::Model;

/// What a diagram was made for, and where the cells of its rows lie in the pools of a store.
///
/// All that can be computed from the shape and the width is computed once.
#[derive(Drop)]
pub struct Layout {
    shape: Shape,
    width: u16,
    row_nums: u32,
    row_bits: u32,
    up_num: u32,
    up_set: u32,
    values: Vec<u32>,
    words: Vec<u32>,
}

impl Model for Layout {
    ghost use Rattle.hk_arena.specs.Forms.{Form};
    ghost use Rattle.hk_arena.specs.Layouts.{IsLayout};

    ghost Value = { Form };

    ghost view = { λ l. record { shape = l.shape; width = l.width } };

    ghost invariant = { λ l. IsLayout (record { shape = l.shape; width = l.width }) l.row_nums l.row_bits l.up_num l.up_set l.values.items l.words.items };
}

impl Layout {
    /// The layout of a shape, of which it keeps a copy.
    pub fn make(alloc: Global, shape: &Shape, width: u16) -> Result<Layout, AllocError>
        requires { IsMakeable shape.now width }
        ensures { IfOk result (λ layout. layout ≡ record { shape = shape.now; width = width }) }
    {
        let up_num = state_nums(shape.down.as_slice());
        let up_set = 2 + state_sets(shape.down.as_slice());
        let row_nums = up_num + state_nums(shape.up.as_slice());
        let row_bits = up_set + state_sets(shape.up.as_slice());
        let (shape, (values, words)) = pair(
            copied(alloc, shape),
            pair(value_counts(alloc, shape), word_starts(alloc, shape, width)),
        )?;
        Ok(Layout {
            shape,
            width,
            row_nums,
            row_bits,
            up_num,
            up_set,
            values,
            words,
        })
    }

    /// What callers may rely on: the form takes fewer cells than the pools of a store can have.
    #[inline]
    pub fn know(&self)
        ensures { IsSmall self.now }
    {
        let _width = self.width;
    }

    /// The first of a row's cells of `i64`.
    #[inline]
    pub fn first_num(&self, layer: u16, at: u16) -> u32
        requires { IsPlace self.now layer at }
        ensures place { result ≡ nums_at self.now layer at }
        ensures fits { result + row_nums self.now < 2 ^ 32 }
    {
        (layer as u32 * self.width as u32 + at as u32) * self.row_nums
    }

    /// The first of a row's cells of `u128`.
    #[inline]
    pub fn first_bits(&self, layer: u16, at: u16) -> u32
        requires { IsPlace self.now layer at }
        ensures place { result ≡ bits_at self.now layer at }
        ensures fits { result + row_bits self.now < 2 ^ 32 }
    {
        (layer as u32 * self.width as u32 + at as u32) * self.row_bits
    }

    /// The first of a row's words.
    #[inline]
    pub fn first_word(&self, layer: u16, at: u16) -> u32
        requires { IsPlace self.now layer at }
        ensures place { result ≡ words_at self.now layer at }
        ensures fits { result + row_words self.now layer < 2 ^ 32 }
    {
        self.words[layer as usize] + at as u32 * (1 + self.value_count(layer))
    }

    /// The word of an entry.
    #[inline]
    pub fn entry_word(&self, id: EntryId) -> u32
        requires row { IsPlace self.now id.row.layer id.row.at }
        requires place { id.at < length (values_of self.now.shape id.row.layer) }
        ensures { result ≡ words_at self.now id.row.layer id.row.at + (1 + id.at) }
    {
        self.first_word(id.row.layer, id.row.at) + (1 + id.at as u32)
    }

    /// How many values a layer has.
    #[inline]
    pub fn value_count(&self, layer: u16) -> u32
        requires { layer < layer_count self.now }
        ensures { result ≡ length (values_of self.now.shape layer) }
    {
        self.values[layer as usize]
    }

    /// How many values a layer has, which are at most 128.
    #[inline]
    pub fn values(&self, layer: u16) -> u16
        requires { layer < layer_count self.now }
        ensures { result ≡ length (values_of self.now.shape layer) }
    {
        self.value_count(layer) as u16
    }

    /// The set of each layer's values, but of the last.
    #[inline]
    pub fn domains(&self) -> &[u128]
        ensures { result.now ≡ self.now.shape.domains }
    {
        self.shape.domains.as_slice()
    }

    /// The set of a layer's values.
    #[inline]
    pub fn domain(&self, layer: u16) -> u128
        requires { layer < length self.now.shape.domains }
        ensures set { result ≡ slice_index self.now.shape.domains layer }
        ensures values { members result ≡ values_of self.now.shape layer }
    {
        self.domains()[layer as usize]
    }

    /// How many layers there are, with the last.
    pub fn layers(&self) -> u16
        ensures { result ≡ layer_count self.now }
    {
        self.values.len() as u16
    }

    /// How many cells of `i64` there are.
    pub fn num_count(&self) -> u32
        ensures { result ≡ num_count self.now }
    {
        self.layers() as u32 * self.width as u32 * self.row_nums
    }

    /// How many cells of `u128` there are.
    pub fn bits_count(&self) -> u32
        ensures { result ≡ bits_count self.now }
    {
        self.layers() as u32 * self.width as u32 * self.row_bits
    }

    /// How many words there are: the last layer's rows have one each.
    pub fn word_count(&self) -> u32
        ensures { result ≡ word_count self.now }
    {
        self.words[self.layers() as usize - 1] + self.width as u32
    }

    /// The kinds of down states.
    #[inline]
    pub fn down(&self) -> &[Kind]
        ensures { result.now ≡ self.now.shape.down }
    {
        self.shape.down.as_slice()
    }

    /// The kinds of up states.
    #[inline]
    pub fn up(&self) -> &[Kind]
        ensures { result.now ≡ self.now.shape.up }
    {
        self.shape.up.as_slice()
    }

    /// How many of a row's cells of `i64` stand before those of its up state.
    #[inline]
    pub fn up_num(&self) -> u32
        ensures { result ≡ nums_in self.now.shape.down }
    {
        self.up_num
    }

    /// How many of a row's cells of `u128` stand before those of its up state.
    #[inline]
    pub fn up_set(&self) -> u32
        ensures { result ≡ 2 + sets_in self.now.shape.down }
    {
        self.up_set
    }
}
