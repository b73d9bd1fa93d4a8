//! The region space, and the pages that hold its objects.
ghost use Rattle.std.specs.Prelude.{◌≡◌, ◌+◌, ◌*◌, ◌<◌, ◌≤◌, ◌∷◌, if◌then◌else◌, [], length, IsTrue, IsOk, IfOk, OnOk, OnErr, is_some, option_map};
ghost use Rattle.model_numbers.specs.Numbers.{most_regions, region_count};
ghost use Rattle.cow_pages.specs.Memory.{is_live, IsSound};
ghost use Rattle.cow_pages.specs.Only.{OnlyTable};
ghost use Rattle.cow_pages.specs.View.{view_of, OthersSeen};
ghost use Rattle.page_runs.specs.Runs.{MapsRun, SeesRun};
ghost use Rattle.region_lists.specs.Rows.{IsLists, first_of, last_of, row_behind, row_of};
ghost use Rattle.image_space.specs.Space.{pages_up_to};
ghost use Rattle.region_space.specs.Pages.{IsObjectIn, LosesRows, ReleasesRows, next_in, page_sum};
ghost use Rattle.region_space.specs.Space.{AreAlone, HasPages, IsSize, IsSpace, Places, base_of, fill_if, filled, further_from, further_pages, has_room, lists_of, spot_in, with_object, would_open};

use cow_pages::{Addr, Frames, PageNo, TableNo};
use model_numbers::{PAGE_BYTES, REGION_BASE, REGION_BYTES};
use page_runs::{map_reserved, release_run};
use region_lists::{RegionLists, RegionRow};
use std::alloc::{AllocError, Global};
use std::marker::Model;

/// The regions of a process, from address 0x40000000 on: twice as many as it may use, so that a collection finds room for
/// all survivors. A region has 262,144 bytes. Objects stand one directly behind the other in the region that was opened
/// last; one that does not fit there opens the next free region.
#[derive(Drop)]
pub struct Regions {
    lists: RegionLists,
    /// How many pages are mapped.
    pages: u32,
    /// How many objects stand in the regions in use, and in the from regions.
    objects: u32,
    from_objects: u32,
}

impl Model for Regions {
    ghost use Rattle.region_space.specs.Pages.{page_sum};
    ghost use Rattle.region_space.specs.Space.{HasBytesFor, IsSpace, Space, filled, space_of};
    ghost use Rattle.std.specs.Prelude.{◌≡◌};

    ghost Value = { Space };

    ghost view = { λ s. space_of s.lists s.objects s.from_objects };

    ghost invariant = { λ s. IsSpace s.lists × (s.pages ≡ page_sum (filled s.lists)) × HasBytesFor s.lists.in_use s.objects };
}

impl Regions {
    /// A space for a process that may use `regions` regions, from 1 to 512. All regions are free.
    pub fn new(alloc: Global, regions: u32) -> Result<Regions, AllocError>
        requires some { 1 ≤ regions }
        requires few { regions ≤ most_regions }
        ensures in_use { IfOk result (λ s. s.in_use ≡ []) }
        ensures from { IfOk result (λ s. s.from ≡ []) }
        ensures count { IfOk result (λ s. s.count ≡ 2 * regions) }
        ensures objects { IfOk result (λ s. (s.objects ≡ 0) × (s.from_objects ≡ 0)) }
        ensures space { IfOk result (λ s. IsSpace (lists_of s)) }
    {
        Ok(Regions {
            lists: RegionLists::new(alloc, 2 * regions)?,
            pages: 0,
            objects: 0,
            from_objects: 0,
        })
    }

    /// How many regions are in use.
    pub fn used(&self) -> u32
        ensures used { result ≡ length self.now.in_use }
        ensures space { IsSpace (lists_of self.now) }
    {
        self.lists.used()
    }

    /// How many objects stand in the regions in use.
    pub fn objects(&self) -> u32
        ensures { result ≡ self.now.objects }
    {
        self.objects
    }

    /// How many objects stand in the from regions.
    pub fn from_objects(&self) -> u32
        ensures { result ≡ self.now.from_objects }
    {
        self.from_objects
    }

    /// How many regions an object of `size` bytes opens: 0 or 1.
    pub fn would_open(&self, size: u32) -> u32
        requires { IsSize size }
        ensures { result ≡ would_open self.now.in_use size }
    {
        match self.lists.last() {
            Some(row) => (row.fill + size > REGION_BYTES) as u32,
            None => 1,
        }
    }

    /// Places an object of `size` bytes behind the others, maps the further pages that hold its bytes, all zeros, and
    /// answers its address.
    ///
    /// `size` is a multiple of 8 from 8 to 262,144. There are no from regions, and with the object at most half of the
    /// regions are in use. Of the region window exactly the pages that hold bytes of objects are mapped in `t`, before and
    /// after. After an error nothing has changed.
    pub fn place(&mut self, frames: &mut Frames, t: TableNo, size: u32) -> Result<Addr, AllocError>
        requires size { IsSize size }
        requires no_from { self.old.from ≡ [] }
        requires room { 2 * (length self.old.in_use + would_open self.old.in_use size) ≤ self.old.count }
        requires live { IsTrue (is_live frames.old t.0) }
        requires pages { HasPages frames.old t.0 (filled (lists_of self.old)) }
        ensures places { IfOk result (λ at. Places (lists_of self.old) (lists_of self.new) at.0 size) }
        ensures objects { OnOk result ((self.new.objects ≡ self.old.objects + 1) × (self.new.from_objects ≡ self.old.from_objects)) }
        ensures maps { IfOk result (λ at. MapsRun frames.old frames.new t.0 (further_from self.old.in_use at.0 size) (further_pages self.old.in_use size)) }
        ensures view { IfOk result (λ at. SeesRun (view_of frames.old t.0) (view_of frames.new t.0) (further_from self.old.in_use at.0 size) (further_pages self.old.in_use size)) }
        ensures others_seen { OnOk result (OthersSeen frames.old frames.new t.0) }
        ensures only { OnlyTable frames.old frames.new t.0 }
        ensures enough { further_pages self.old.in_use size ≤ frames.old.spare → IsOk result }
        ensures err { OnErr result ((self.new ≡ self.old) × (frames.new ≡ frames.old)) }
        ensures pages { HasPages frames.new t.0 (filled (lists_of self.new)) }
        ensures space { IsSpace (lists_of self.new) }
        ensures sound { IsSound frames.old → IsSound frames.new }
    {
        frames.reserve(self.further_pages(size) as usize)?;
        Ok(self.place_copy(frames, t, size))
    }

    /// Places an object of `size` bytes as `place` does, where as many frames are free as it maps pages, and where there may
    /// be from regions.
    pub fn place_copy(&mut self, frames: &mut Frames, t: TableNo, size: u32) -> Addr
        requires size { IsSize size }
        requires room { length self.old.in_use + would_open self.old.in_use size + length self.old.from ≤ self.old.count }
        requires spare { further_pages self.old.in_use size ≤ frames.old.spare }
        requires live { IsTrue (is_live frames.old t.0) }
        requires pages { HasPages frames.old t.0 (filled (lists_of self.old)) }
        ensures places { Places (lists_of self.old) (lists_of self.new) result.0 size }
        ensures objects { (self.new.objects ≡ self.old.objects + 1) × (self.new.from_objects ≡ self.old.from_objects) }
        ensures maps { MapsRun frames.old frames.new t.0 (further_from self.old.in_use result.0 size) (further_pages self.old.in_use size) }
        ensures view { SeesRun (view_of frames.old t.0) (view_of frames.new t.0) (further_from self.old.in_use result.0 size) (further_pages self.old.in_use size) }
        ensures others_seen { OthersSeen frames.old frames.new t.0 }
        ensures only { OnlyTable frames.old frames.new t.0 }
        ensures pages { HasPages frames.new t.0 (filled (lists_of self.new)) }
        ensures space { IsSpace (lists_of self.new) }
        ensures sound { IsSound frames.new }
    {
        let row = next_row(&mut self.lists, size);
        let mapped = pages_up_to(row.fill);
        let count = pages_up_to(row.fill + size) - mapped;
        let base = base_of(row.region);
        // says that the memory is sound
        let spare = frames.spare();
        prove!(count as usize <= spare);
        map_reserved(frames, t, PageNo(base / PAGE_BYTES + mapped), count);
        self.pages += count;
        self.objects += 1;
        Addr(base + row.fill)
    }

    /// Makes all regions in use from regions. There are no from regions before.
    pub fn flip(&mut self)
        requires { self.old.from ≡ [] }
        ensures flips { self.new ≡ record self.old { in_use = []; from = self.old.in_use; objects = 0; from_objects = self.old.objects } }
        ensures space { IsSpace (lists_of self.new) }
    {
        self.lists.flip();
        self.from_objects = self.objects;
        self.objects = 0;
    }

    /// Unmaps the pages of the from regions, each of which has its frame alone, and frees them and their regions.
    pub fn drop_from(&mut self, frames: &mut Frames, t: TableNo)
        requires live { IsTrue (is_live frames.old t.0) }
        requires pages { HasPages frames.old t.0 (filled (lists_of self.old)) }
        requires alone { AreAlone frames.old t.0 self.old.from }
        ensures no_from { (self.new.from ≡ []) × (self.new.from_objects ≡ 0) }
        ensures rest { (self.new.in_use ≡ self.old.in_use) × (self.new.count ≡ self.old.count) × (self.new.objects ≡ self.old.objects) }
        ensures releases { ReleasesRows frames.old frames.new t.0 self.old.from }
        ensures view { LosesRows (view_of frames.old t.0) (view_of frames.new t.0) self.old.from }
        ensures others_seen { OthersSeen frames.old frames.new t.0 }
        ensures only { OnlyTable frames.old frames.new t.0 }
        ensures pages { HasPages frames.new t.0 (filled (lists_of self.new)) }
        ensures space { IsSpace (lists_of self.new) }
        ensures sound { IsSound frames.old → IsSound frames.new }
    {
        while let Some(row) = self.lists.first_from() {
            let count = pages_up_to(row.fill);
            release_run(frames, t, PageNo(base_of(row.region) / PAGE_BYTES), count);
            self.lists.free_first();
            self.pages -= count;
        }
        self.from_objects = 0;
    }

    /// How many pages hold bytes of objects, in the regions in use and from.
    pub fn pages(&self) -> u32
        ensures pages { result ≡ page_sum (filled (lists_of self.now)) }
        ensures space { IsSpace (lists_of self.now) }
    {
        self.pages
    }

    /// Where the first object in the regions in use stands. `None` comes exactly where there is none.
    pub fn first(&self) -> Option<Addr>
        ensures { option_map (λ at. at.0) result ≡ option_map (λ row. base_of row.region) (first_of self.now.in_use) }
    {
        let row = self.lists.first()?;
        Some(Addr(base_of(row.region)))
    }

    /// Where the object stands that follows one of `size` bytes at `at`, in the regions in use. `None` comes exactly where
    /// that is the last one.
    pub fn next(&self, at: Addr, size: u32) -> Option<Addr>
        requires { IsObjectIn self.now.in_use at.0 size }
        ensures { option_map (λ it. it.0) result ≡ next_in self.now.in_use at.0 size }
    {
        let lists = &self.lists;
        let region = (at.0 - REGION_BASE) / REGION_BYTES;
        let end = at.0 + size;
        if end < base_of(region) + lists.fill(region) {
            return Some(Addr(end));
        }
        let row = lists.behind(region)?;
        Some(Addr(base_of(row.region)))
    }

    /// The region in use that was opened first, by its number.
    pub fn first_region(&self) -> Option<u32>
        ensures { result ≡ option_map (λ row. row.region) (first_of self.now.in_use) }
    {
        Some(self.lists.first()?.region)
    }

    /// The region in use that was opened directly after this one, which is in use, by its number.
    pub fn region_behind(&self, region: u32) -> Option<u32>
        requires { IsTrue (is_some (row_of self.now.in_use region)) }
        ensures { result ≡ option_map (λ row. row.region) (row_behind self.now.in_use region) }
    {
        Some(self.lists.behind(region)?.region)
    }

    /// An equal space.
    pub fn copied(&self) -> Result<Regions, AllocError>
        ensures { IfOk result (λ copy. copy ≡ self.now) }
    {
        Ok(Regions {
            lists: self.lists.copied()?,
            pages: self.pages,
            objects: self.objects,
            from_objects: self.from_objects,
        })
    }

    /// How many pages an object of `size` bytes needs besides those that are mapped.
    fn further_pages(&self, size: u32) -> u32
        requires { IsSize size }
        ensures pages { result ≡ further_pages self.now.in_use size }
        ensures space { IsSpace (lists_of self.now) }
    {
        let fill = match self.lists.last() {
            Some(row) if row.fill + size <= REGION_BYTES => row.fill,
            _ => 0,
        };
        pages_up_to(fill + size) - pages_up_to(fill)
    }
}

/// Makes room for `size` bytes more, and answers the region with its fill before.
fn next_row(lists: &mut RegionLists, size: u32) -> RegionRow
    requires size { IsSize size }
    requires space { IsSpace lists.old }
    requires room { length lists.old.in_use + would_open lists.old.in_use size + length lists.old.from ≤ lists.old.count }
    ensures free { lists.old.free ≡ (if has_room (last_of lists.old.in_use) size then lists.new.free else result.region ∷ lists.new.free) }
    ensures in_use { lists.new.in_use ≡ with_object lists.old.in_use result.region size }
    ensures spot { base_of result.region + result.fill ≡ spot_in lists.old.in_use result.region size }
    ensures fill { result.fill ≡ fill_if (has_room (last_of lists.old.in_use) size) (last_of lists.old.in_use) }
    ensures rest { (lists.new.from ≡ lists.old.from) × (lists.new.count ≡ lists.old.count) }
    ensures lists { IsLists lists.new }
{
    match lists.last() {
        Some(row) if row.fill + size <= REGION_BYTES => {
            lists.extend(row.fill + size);
            row
        }
        _ => RegionRow {
            region: lists.open(size),
            fill: 0,
        },
    }
}

/// The address of a region's first byte.
fn base_of(region: u32) -> u32
    requires { region < region_count }
    ensures { result ≡ base_of region }
{
    REGION_BASE + region * REGION_BYTES
}

/// How many pages hold so many bytes.
fn pages_up_to(fill: u32) -> u32
    ensures { result ≡ pages_up_to fill }
{
    fill.div_ceil(PAGE_BYTES)
}
