//! Frames and leaves that are free.
ghost use Rattle.std.specs.Prelude.{◌≡◌, ◌≢◌, ℕ, ◌+◌, ◌-◌, ◌<◌, ◌≤◌, ◌^◌, ◌++◌, length, replicate, IsOk, OnOk, OnErr, slice_set, vec_len, vec_capacity};
ghost use Rattle.model_numbers.specs.Numbers.{page_bytes};
ghost use Rattle.sharers.specs.Shares.{AreTallied};
ghost use Rattle.page_tables.specs.Frame.{zero_frame, frame_of};
ghost use Rattle.page_tables.specs.Leaf.{no_leaf};
ghost use Rattle.cow_pages.specs.Store.{shown, bytes_of, spare_of, frame_sharers, leaf_sharers, IsStore};
ghost use Rattle.cow_pages.specs.Steps.{HoldsFrame, HasSpace, AddsRoom};

use crate::store::Store;
use page_tables::{Frame, Leaf, clear, copy_bytes};
use std::alloc::AllocError;

impl Store {
    /// How many frames and leaves are free, the lesser of both.
    pub fn spare(&self) -> usize
        ensures { result ≡ spare_of self.now }
    {
        self.frame_counts.spare().min(self.leaf_counts.spare())
    }

    /// Makes so many frames and so many leaves free, as far as there are fewer.
    pub fn reserve(&mut self, count: usize) -> Result<(), AllocError>
        requires { IsStore self.old }
        ensures store { IsStore self.new }
        ensures made { OnOk result (AddsRoom self.old self.new (count - self.old.frame_counts.spare) (count - self.old.leaf_counts.spare)) }
        ensures enough { count ≤ spare_of self.old → IsOk result × (shown self.new ≡ shown self.old) }
        ensures err { OnErr result (shown self.new ≡ shown self.old) }
    {
        let frames = count.saturating_sub(self.frame_counts.spare());
        let leaves = count.saturating_sub(self.leaf_counts.spare());
        if frames == 0 && leaves == 0 {
            return Ok(());
        }
        self.make_space(frames, leaves)?;
        self.add_frames(frames);
        self.add_leaves(leaves);
        Ok(())
    }

    /// Takes memory for so many frames and leaves more, before any of them is added.
    fn make_space(&mut self, frames: usize, leaves: usize) -> Result<(), AllocError>
        requires { IsStore self.old }
        ensures store { IsStore self.new }
        ensures space { OnOk result (HasSpace self.new frames leaves) }
        ensures same { shown self.new ≡ shown self.old }
        ensures spare { (self.new.frame_counts.spare ≡ self.old.frame_counts.spare) × (self.new.leaf_counts.spare ≡ self.old.leaf_counts.spare) }
    {
        self.frame_counts.make_room(frames)?;
        self.leaf_counts.make_room(leaves)?;
        self.frames.reserve(frames)?;
        self.leaves.reserve(leaves)
    }

    fn add_frames(&mut self, count: usize)
        requires room { vec_len self.old.frames + count ≤ vec_capacity self.old.frames }
        requires counts { length self.old.frame_counts.counts + count ≤ self.old.frame_counts.room }
        requires few { length self.old.frame_counts.counts + count < 2 ^ 32 }
        ensures frames { self.new.frames.items ≡ self.old.frames.items ++ replicate count zero_frame }
        ensures counts { self.new.frame_counts.counts ≡ self.old.frame_counts.counts ++ replicate count 0 }
        ensures spare { self.new.frame_counts.spare ≡ self.old.frame_counts.spare + count }
        ensures tallied { AreTallied self.new.frame_counts }
        ensures rest { self.new ≡ record self.old { frames = self.new.frames; frame_counts = self.new.frame_counts } }
    {
        self.frame_counts.add(count);
        for _i in 0..count {
            self.frames.push_reserved(Frame::zeros());
        }
    }

    fn add_leaves(&mut self, count: usize)
        requires room { vec_len self.old.leaves + count ≤ vec_capacity self.old.leaves }
        requires counts { length self.old.leaf_counts.counts + count ≤ self.old.leaf_counts.room }
        requires few { length self.old.leaf_counts.counts + count < 2 ^ 32 }
        ensures leaves { self.new.leaves.items ≡ self.old.leaves.items ++ replicate count no_leaf }
        ensures counts { self.new.leaf_counts.counts ≡ self.old.leaf_counts.counts ++ replicate count 0 }
        ensures spare { self.new.leaf_counts.spare ≡ self.old.leaf_counts.spare + count }
        ensures tallied { AreTallied self.new.leaf_counts }
        ensures rest { self.new ≡ record self.old { leaves = self.new.leaves; leaf_counts = self.new.leaf_counts } }
    {
        self.leaf_counts.add(count);
        for _i in 0..count {
            self.leaves.push_reserved(Leaf::empty());
        }
    }

    /// Takes a free frame for one slot, with zeros.
    pub fn take_zeros(&mut self) -> usize
        requires spare { 0 < self.old.frame_counts.spare }
        requires counts { length self.old.frame_counts.counts ≡ length self.old.frames.items }
        requires whole { (f : ℕ) → f < length self.old.frames.items → length (bytes_of self.old f) ≡ page_bytes }
        ensures holds { HoldsFrame self.old self.new result }
        ensures frames { self.new.frames.items ≡ slice_set self.old.frames.items result zero_frame }
        ensures rest { self.new ≡ record self.old { frames = self.new.frames; frame_counts = self.new.frame_counts } }
    {
        let number = self.frame_counts.take();
        clear(&mut self.frames[number].bytes);
        number
    }

    /// Takes a free frame for one of the slots of this one, with the same bytes.
    pub fn take_copy(&mut self, from: usize) -> usize
        requires spare { 0 < self.old.frame_counts.spare }
        requires counts { length self.old.frame_counts.counts ≡ length self.old.frames.items }
        requires shared { 1 < frame_sharers self.old from }
        requires within { from < length self.old.frames.items }
        ensures number { (result < length self.old.frames.items) × (result < 2 ^ 32) × (frame_sharers self.old result ≡ 0) }
        ensures counts { self.new.frame_counts.counts ≡ slice_set (slice_set self.old.frame_counts.counts result 1) from (frame_sharers self.old from - 1) }
        ensures spare { self.new.frame_counts.spare + 1 ≡ self.old.frame_counts.spare }
        ensures tallied { AreTallied self.new.frame_counts }
        ensures frames { self.new.frames.items ≡ slice_set self.old.frames.items result (frame_of self.old.frames.items from) }
        ensures rest { self.new ≡ record self.old { frames = self.new.frames; frame_counts = self.new.frame_counts } }
    {
        let number = self.frame_counts.take();
        copy_bytes(self.frames.as_mut_slice(), from, number);
        self.frame_counts.unshare(from);
        number
    }
}
