//! The zygote space, and the pages that hold its objects.
ghost use Rattle.std.specs.Prelude.{◌≡◌, ◌⊎◌, ℕ, ◌+◌, ◌-◌, ◌%◌, ◌<◌, ◌≤◌, IsTrue, IsFalse, IfOk, OnOk, OnErr, IfErr, Err, None, option_map};
ghost use Rattle.model_numbers.specs.Numbers.{zygote_length};
ghost use Rattle.page_tables.specs.declared.address.Window.TheVariants.{Zygote};
ghost use Rattle.page_tables.specs.Address.{first_page};
ghost use Rattle.cow_pages.specs.Memory.{is_live, IsSound};
ghost use Rattle.cow_pages.specs.Only.{OnlyTable};
ghost use Rattle.cow_pages.specs.View.{view_of, OthersSeen};
ghost use Rattle.image_space.specs.Space.{pages_up_to, KeepsPages};
ghost use Rattle.mark_bitmap.specs.Marks.{is_marked};
ghost use Rattle.page_runs.specs.Runs.{MapsRun, SeesRun};
ghost use Rattle.zygote_space.specs.declared.space.ZygoteError.{ZygoteError};
ghost use Rattle.zygote_space.specs.Space.{to_page, end_of, HasPagesUpTo, HasRest, IsSpace, Opens, Places};

use cow_pages::{Addr, Frames, PageNo, TableNo};
use mark_bitmap::Bitmap;
use model_numbers::{PAGE_BYTES, ZYGOTE_BASE, ZYGOTE_LENGTH};
use page_runs::map_reserved;
use std::alloc::{AllocError, Global};
use std::marker::Model;

const FIRST_PAGE: u32 = ZYGOTE_BASE / PAGE_BYTES;

/// Why a segment can't be opened.
#[derive(Clone, Copy, Debug, PartialEq, Eq)]
pub enum ZygoteError {
    /// The bytes that stand, rounded up to a whole page, and those of the segment pass 268,435,456 together. `fill` is
    /// the rounded number.
    Full { fill: u32, total: u32 },
    /// There is no memory for the segment's pages or its starts.
    OutOfMemory,
}

impl From<AllocError> for ZygoteError {
    ghost use Rattle.zygote_space.specs.declared.space.ZygoteError.TheVariants.{OutOfMemory};

    ghost from_gives = { λ _ e. e ≡ OutOfMemory };

    fn from(_e: AllocError) -> ZygoteError {
        ZygoteError::OutOfMemory
    }
}

/// A segment that is open: where its next object stands, from the window's start, and how many bytes are still to be placed.
#[derive(Clone, Copy)]
struct Segment {
    next: u32,
    rest: u32,
}

/// The promoted objects, from address 0x30000000 on, at most 268,435,456 bytes. Each fork adds a segment, which begins at
/// a whole page, with its objects one directly behind the other.
#[derive(Drop)]
pub struct ZygoteSpace {
    starts: Bitmap,
    fill: u32,
    segment: Option<Segment>,
}

impl Model for ZygoteSpace {
    ghost use Rattle.std.specs.Prelude.{option_map};
    ghost use Rattle.zygote_space.specs.Shown.{shown_segment};
    ghost use Rattle.zygote_space.specs.Space.{Space, IsSpace};

    ghost Value = { Space };

    ghost view = { λ s. record { fill = s.fill; segment = option_map shown_segment s.segment; starts = s.starts } };

    ghost invariant = { λ s. IsSpace (record { fill = s.fill; segment = option_map shown_segment s.segment; starts = s.starts }) };
}

impl ZygoteSpace {
    /// A space without objects.
    pub fn new(alloc: Global) -> Result<ZygoteSpace, AllocError>
        ensures fill { IfOk result (λ s. s.fill ≡ 0) }
        ensures closed { IfOk result (λ s. s.segment ≡ None) }
        ensures starts { IfOk result (λ s. (q : ℕ) → IsFalse (is_marked s.starts q)) }
    {
        Ok(ZygoteSpace {
            starts: Bitmap::new(alloc, Addr(ZYGOTE_BASE), 0)?,
            fill: 0,
            segment: None,
        })
    }

    /// Opens a segment for objects of `total` bytes together, which begins at the next whole page, and maps its pages, all
    /// zeros.
    ///
    /// No segment is open, and `total` is a multiple of 8. Of the zygote window exactly the pages that hold bytes of the
    /// space are mapped in `t`, before and after. `Full` comes exactly where the bytes that stand, rounded up to a whole
    /// page, and `total` pass 268,435,456. After an error nothing has changed but that frames may have become free.
    pub fn open_segment(
        &mut self,
        frames: &mut Frames,
        t: TableNo,
        total: u32,
    ) -> Result<(), ZygoteError>
        requires closed { self.old.segment ≡ None }
        requires multiple { total % 8 ≡ 0 }
        requires live { IsTrue (is_live frames.old t.0) }
        requires pages { HasPagesUpTo frames.old t.0 self.old.fill }
        ensures opens { OnOk result (Opens self.old self.new total) }
        ensures maps { OnOk result (MapsRun frames.old frames.new t.0 (first_page Zygote + pages_up_to self.old.fill) (pages_up_to total)) }
        ensures view { OnOk result (SeesRun (view_of frames.old t.0) (view_of frames.new t.0) (first_page Zygote + pages_up_to self.old.fill) (pages_up_to total)) }
        ensures others_seen { OnOk result (OthersSeen frames.old frames.new t.0) }
        ensures only { OnlyTable frames.old frames.new t.0 }
        ensures pages { HasPagesUpTo frames.new t.0 (end_of self.new) }
        ensures full { zygote_length < to_page self.old.fill + total → (result ≡ Err (ZygoteError.Full (to_page self.old.fill) total)) × (frames.new ≡ frames.old) }
        ensures err { IfErr result (λ e. (zygote_length < to_page self.old.fill + total) ⊎ (e ≡ ZygoteError.OutOfMemory)) }
        ensures same { IfErr result (λ _. (self.new ≡ self.old) × KeepsPages frames.old frames.new (pages_up_to total)) }
        ensures space { IsSpace self.new }
        ensures sound { IsSound frames.old → IsSound frames.new }
    {
        let pages = self.fill.div_ceil(PAGE_BYTES);
        let fill = pages * PAGE_BYTES;
        if total > ZYGOTE_LENGTH - fill {
            return Err(ZygoteError::Full { fill, total });
        }
        let count = total.div_ceil(PAGE_BYTES);
        frames.reserve(count as usize)?;
        self.starts.grow(fill + total)?;
        map_reserved(frames, t, PageNo(FIRST_PAGE + pages), count);
        self.segment = Some(Segment {
            next: fill,
            rest: total,
        });
        Ok(())
    }

    /// Places an object of `size` bytes at the next spot of the open segment, and answers its address.
    ///
    /// `size` is a multiple of 8, at least 8, and not more than the bytes of the segment that are still to be placed.
    pub fn place(&mut self, size: u32) -> Addr
        requires multiple { size % 8 ≡ 0 }
        requires least { 8 ≤ size }
        requires rest { HasRest self.old size }
        ensures places { Places self.old self.new result.0 size }
        ensures end { end_of self.new ≡ end_of self.old }
        ensures space { IsSpace self.new }
    {
        let Some(segment) = self.segment else {
            unreachable!()
        };
        let at = Addr(ZYGOTE_BASE + segment.next);
        self.starts.set(at);
        self.fill = segment.next + size;
        self.segment = Some(Segment {
            next: segment.next + size,
            rest: segment.rest - size,
        });
        at
    }

    /// Ends the open segment, of which all bytes are placed. Exactly the pages that hold bytes of the space are mapped then.
    pub fn close_segment(&mut self)
        requires { option_map (λ it. it.rest) self.old.segment ≡ Some 0 }
        ensures closes { self.new ≡ record self.old { segment = None } }
        ensures pages { pages_up_to (end_of self.new) ≡ pages_up_to (end_of self.old) }
        ensures space { IsSpace self.new }
    {
        self.segment = None;
    }

    /// The addresses that `place` gave.
    pub fn starts(&self) -> &Bitmap
        ensures starts { result.now ≡ self.now.starts }
        ensures space { IsSpace self.now }
    {
        &self.starts
    }

    /// How many bytes there are up to the end of the last object: a multiple of 8, at most 268,435,456.
    pub fn fill(&self) -> u32
        ensures fill { result ≡ self.now.fill }
        ensures space { IsSpace self.now }
    {
        self.fill
    }

    /// An equal space.
    pub fn copied(&self) -> Result<ZygoteSpace, AllocError>
        ensures { IfOk result (λ copy. copy ≡ self.now) }
    {
        Ok(ZygoteSpace {
            starts: self.starts.copied()?,
            fill: self.fill,
            segment: self.segment,
        })
    }
}
