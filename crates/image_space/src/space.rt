ghost use Rattle.std.specs.Prelude.{◌≡◌, ◌⊎◌, ℕ, ◌+◌, ◌-◌, ◌<◌, IsTrue, IsFalse, IfOk, IfErr, Err};
ghost use Rattle.model_numbers.specs.Numbers.{image_length};
ghost use Rattle.cow_pages.specs.Memory.{is_live, IsSound};
ghost use Rattle.cow_pages.specs.Only.{OnlyTable};
ghost use Rattle.cow_pages.specs.View.{view_of, OthersSeen};
ghost use Rattle.mark_bitmap.specs.Marks.{is_marked};
ghost use Rattle.image_space.specs.declared.space.ImageError.{ImageError};
ghost use Rattle.image_space.specs.Space.{pages_up_to, end_page, further_pages, IsSize, IsSpace, HasPagesUpTo, Places, KeepsPages};
ghost use Rattle.page_runs.specs.Runs.{MapsRun, SeesRun};

use cow_pages::{Addr, Frames, PageNo, TableNo};
use mark_bitmap::Bitmap;
use model_numbers::{IMAGE_BASE, IMAGE_LENGTH, PAGE_BYTES};
use page_runs::map_reserved;
use std::alloc::{AllocError, Global};
use std::marker::Model;

const FIRST_PAGE: u32 = IMAGE_BASE / PAGE_BYTES;

/// Why an object can't be placed.
#[derive(Clone, Copy, Debug, PartialEq, Eq)]
pub enum ImageError {
    /// The bytes that stand and those of the object pass 67,108,864 together.
    Full { fill: u32, size: u32 },
    /// There is no memory for the object's pages or its start.
    OutOfMemory,
}

impl From<AllocError> for ImageError {
    ghost use Rattle.image_space.specs.declared.space.ImageError.TheVariants.{OutOfMemory};

    ghost from_gives = { λ _ e. e ≡ OutOfMemory };

    fn from(_e: AllocError) -> ImageError {
        ImageError::OutOfMemory
    }
}

/// The boot objects, each directly behind the one before, from address 0x20000000 on. At most 67,108,864 bytes.
#[derive(Drop)]
pub struct ImageSpace {
    starts: Bitmap,
    fill: u32,
}

impl Model for ImageSpace {
    ghost use Rattle.image_space.specs.Space.{Space, IsSpace};

    ghost Value = { Space };

    ghost view = { λ s. record { fill = s.fill; starts = s.starts } };

    ghost invariant = { λ s. IsSpace (record { fill = s.fill; starts = s.starts }) };
}

impl ImageSpace {
    /// A space without objects.
    pub fn new(alloc: Global) -> Result<ImageSpace, AllocError>
        ensures fill { IfOk result (λ s. s.fill ≡ 0) }
        ensures starts { IfOk result (λ s. (q : ℕ) → IsFalse (is_marked s.starts q)) }
    {
        Ok(ImageSpace {
            starts: Bitmap::new(alloc, Addr(IMAGE_BASE), 0)?,
            fill: 0,
        })
    }

    /// Places an object of `size` bytes behind the others, maps the further pages that hold its bytes, all zeros,
    /// and answers its address.
    ///
    /// `size` is a multiple of 8 from 8 to 1,048,576. Of the image window exactly the pages that hold bytes of the
    /// space are mapped in `t`, before and after. `Full` comes exactly where the bytes that stand and `size` pass
    /// 67,108,864. After an error nothing has changed but that frames may have become free.
    pub fn place(&mut self, frames: &mut Frames, t: TableNo, size: u32) -> Result<Addr, ImageError>
        requires size { IsSize size }
        requires live { IsTrue (is_live frames.old t.0) }
        requires pages { HasPagesUpTo frames.old t.0 self.old.fill }
        ensures places { IfOk result (λ at. Places self.old self.new at.0 size) }
        ensures maps { IfOk result (λ _. MapsRun frames.old frames.new t.0 (end_page self.old.fill) (further_pages self.old.fill (self.old.fill + size))) }
        ensures view { IfOk result (λ _. SeesRun (view_of frames.old t.0) (view_of frames.new t.0) (end_page self.old.fill) (further_pages self.old.fill (self.old.fill + size))) }
        ensures others_seen { IfOk result (λ _. OthersSeen frames.old frames.new t.0) }
        ensures only { OnlyTable frames.old frames.new t.0 }
        ensures live { IsTrue (is_live frames.new t.0) }
        ensures pages { HasPagesUpTo frames.new t.0 self.new.fill }
        ensures full { image_length < self.old.fill + size → (result ≡ Err (ImageError.Full self.old.fill size)) × (frames.new ≡ frames.old) }
        ensures err { IfErr result (λ e. (image_length < self.old.fill + size) ⊎ (e ≡ ImageError.OutOfMemory)) }
        ensures same { IfErr result (λ _. (self.new ≡ self.old) × KeepsPages frames.old frames.new (further_pages self.old.fill (self.old.fill + size))) }
        ensures space { IsSpace self.new }
        ensures sound { IsSound frames.old → IsSound frames.new }
    {
        if size > IMAGE_LENGTH - self.fill {
            return Err(ImageError::Full {
                fill: self.fill,
                size,
            });
        }
        let fill = self.fill + size;
        let mapped = pages_up_to(self.fill);
        let count = pages_up_to(fill) - mapped;
        // says that the memory is sound before, so that no more is made than is lacking
        frames.reserve(count as usize)?;
        self.starts.grow(fill)?;
        map_reserved(frames, t, PageNo(FIRST_PAGE + mapped), count);
        let at = Addr(IMAGE_BASE + self.fill);
        self.starts.set(at);
        self.fill = fill;
        Ok(at)
    }

    /// The addresses that `place` gave.
    pub fn starts(&self) -> &Bitmap
        ensures starts { result.now ≡ self.now.starts }
        ensures space { IsSpace self.now }
    {
        &self.starts
    }

    /// How many bytes the objects have together: a multiple of 8, at most 67,108,864.
    pub fn fill(&self) -> u32
        ensures fill { result ≡ self.now.fill }
        ensures space { IsSpace self.now }
    {
        self.fill
    }

    /// An equal space.
    pub fn copied(&self) -> Result<ImageSpace, AllocError>
        ensures { IfOk result (λ copy. copy ≡ self.now) }
    {
        Ok(ImageSpace {
            starts: self.starts.copied()?,
            fill: self.fill,
        })
    }
}

/// How many pages hold so many bytes.
fn pages_up_to(fill: u32) -> u32
    ensures { result ≡ pages_up_to fill }
{
    fill.div_ceil(PAGE_BYTES)
}
