//! Pages beside the objects.
ghost use Rattle.std.specs.Prelude.{◌≡◌, ℕ, Bool, None, IsTrue, OnOk, OnErr, List};
ghost use Rattle.class_layout.specs.ClassList.{Class};
ghost use Rattle.page_tables.specs.Address.{is_in_window};
ghost use Rattle.cow_pages.specs.Memory.{is_live, is_mapped, page_at, HasOneSharer, IsSound};
ghost use Rattle.cow_pages.specs.Change.{ChangesPage};
ghost use Rattle.cow_pages.specs.View.{view_of, MapsPage, UnmapsPage};
ghost use Rattle.raw_objects.specs.Raws.{among, HoldsRaws, IsOffPage, Raws};

use cow_pages::{Frames, PageNo, TableNo};
use std::alloc::AllocError;

/// Maps a page for objects to come. The others are held as before.
pub fn map_page(frames: &mut Frames, t: TableNo, page: PageNo) -> Result<(), AllocError>
    requires live { IsTrue (is_live frames.old t.0) }
    requires window { IsTrue (is_in_window page.0) }
    requires unmapped { page_at frames.old t.0 page.0 ≡ None }
    ensures held { OnOk result ((cs : List Class) (raws : Raws) → HoldsRaws cs (view_of frames.old t.0) raws → HoldsRaws cs (view_of frames.new t.0) raws) }
    ensures view { OnOk result (MapsPage (view_of frames.old t.0) (view_of frames.new t.0) page.0) }
    ensures alone { OnOk result (HasOneSharer frames.new t.0 page.0) }
    ensures rest { OnOk result (ChangesPage frames.old frames.new t.0 page.0) }
    ensures err { OnErr result (frames.new ≡ frames.old) }
    ensures sound { IsSound frames.new }
{
    frames.map_zero(t, page)
}

/// Releases a page, and forgets the objects that don't pass a test, those of the page among them.
pub fn drop_page(frames: &mut Frames, t: TableNo, page: PageNo)
    requires mapped { IsTrue (is_mapped frames.old t.0 page.0) }
    requires alone { HasOneSharer frames.old t.0 page.0 }
    ensures held { (cs : List Class) (raws : Raws) (test : ℕ → Bool) → HoldsRaws cs (view_of frames.old t.0) raws → IsOffPage cs (among raws test) page.0
        → HoldsRaws cs (view_of frames.new t.0) (among raws test) }
    ensures view { UnmapsPage (view_of frames.old t.0) (view_of frames.new t.0) page.0 }
    ensures rest { ChangesPage frames.old frames.new t.0 page.0 }
    ensures sound { IsSound frames.new }
{
    frames.release(t, page);
}
