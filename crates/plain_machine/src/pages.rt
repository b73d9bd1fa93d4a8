//! Pages that processes may share, by name.
ghost use Rattle.std.specs.Prelude.{◌≡◌, ◌<◌, ◌+◌, ◌-◌, ◌/◌, ◌^◌, map, count_by, IfOk};
ghost use Rattle.model_numbers.specs.Numbers.{page_bytes};
ghost use Rattle.heap_world.specs.Pages.{same_page, is_touched, count_from, is_image_page, is_zygote_page, is_large_page, page_in};
ghost use Rattle.heap_world.specs.declared.names.PageName.TheVariants as page;

use heap_graph::Place;
use heap_world::PageName;
use model_numbers::{IMAGE_BASE, PAGE_BYTES, ZYGOTE_BASE};
use plain_graph::Object;
use std::alloc::{AllocError, Global};

/// Whether two names are of one page.
pub(crate) fn same_page(a: &PageName, b: &PageName) -> bool
    ensures { result ≡ same_page a.now b.now }
{
    match (a, b) {
        (PageName::Image(j), PageName::Image(k)) => j == k,
        (PageName::Zygote(j), PageName::Zygote(k)) => j == k,
        (PageName::Large(m, j), PageName::Large(n, k)) => m == n && j == k,
        _ => false,
    }
}

/// Whether a page is among those that were touched.
pub(crate) fn is_touched(pages: &[PageName], page: &PageName) -> bool
    ensures { result ≡ is_touched pages.now page.now }
{
    pages.iter().any(|other| same_page(page, other))
}

/// So many pages of the image, from one on.
#[tactic(auto, using(crate::proofs::PageLists::row_more))]
pub(crate) fn image_pages(
    alloc: Global,
    start: u32,
    count: u32,
) -> Result<Vec<PageName>, AllocError>
    requires { start + count < 2 ^ 32 }
    ensures { IfOk result (λ pages. pages.items ≡ map page.Image (count_from start count)) }
{
    let mut pages = Vec::new(alloc);
    for k in start..start + count {
        pages.push(PageName::Image(k))?;
    }
    Ok(pages)
}

/// So many pages of the zygote window, from one on.
#[tactic(auto, using(crate::proofs::PageLists::row_more))]
pub(crate) fn zygote_pages(
    alloc: Global,
    start: u32,
    count: u32,
) -> Result<Vec<PageName>, AllocError>
    requires { start + count < 2 ^ 32 }
    ensures { IfOk result (λ pages. pages.items ≡ map page.Zygote (count_from start count)) }
{
    let mut pages = Vec::new(alloc);
    for k in start..start + count {
        pages.push(PageName::Zygote(k))?;
    }
    Ok(pages)
}

/// The first so many pages of the large object of a number.
#[tactic(auto, using(crate::proofs::PageLists::row_more_from_0))]
pub(crate) fn large_pages(
    alloc: Global,
    number: u32,
    count: u32,
) -> Result<Vec<PageName>, AllocError>
    ensures { IfOk result (λ pages. pages.items ≡ map (page.Large number) (count_from 0 count)) }
{
    let mut pages = Vec::new(alloc);
    for k in 0..count {
        pages.push(PageName::Large(number, k))?;
    }
    Ok(pages)
}

fn is_image_page(page: &PageName) -> bool
    ensures { result ≡ is_image_page page.now }
{
    matches!(page, PageName::Image(_))
}

fn is_zygote_page(page: &PageName) -> bool
    ensures { result ≡ is_zygote_page page.now }
{
    matches!(page, PageName::Zygote(_))
}

fn is_large_page(page: &PageName) -> bool
    ensures { result ≡ is_large_page page.now }
{
    matches!(page, PageName::Large(_, _))
}

pub(crate) fn count_image(pages: &[PageName]) -> usize
    ensures { result ≡ count_by is_image_page pages.now }
{
    pages.iter().filter(|page| is_image_page(page)).count()
}

pub(crate) fn count_zygote(pages: &[PageName]) -> usize
    ensures { result ≡ count_by is_zygote_page pages.now }
{
    pages.iter().filter(|page| is_zygote_page(page)).count()
}

pub(crate) fn count_large(pages: &[PageName]) -> usize
    ensures { result ≡ count_by is_large_page pages.now }
{
    pages.iter().filter(|page| is_large_page(page)).count()
}

/// The page of an offset in an object, where others may share it.
pub(crate) fn page_in(o: &Object, offset: u32) -> Option<PageName>
    ensures { result ≡ page_in o.now o.now.place offset }
{
    match o.place() {
        Place::Image(spot) => Some(PageName::Image(page_of(spot, offset, IMAGE_BASE))),
        Place::Zygote(spot) => Some(PageName::Zygote(page_of(spot, offset, ZYGOTE_BASE))),
        Place::Large | Place::Promoted => Some(PageName::Large(o.number(), offset / PAGE_BYTES)),
        Place::Young => None,
    }
}

fn page_of(spot: u32, offset: u32, base: u32) -> u32
    ensures { result ≡ (spot + offset - base) / page_bytes }
{
    ((u64::from(spot) + u64::from(offset)).saturating_sub(u64::from(base))
        / u64::from(PAGE_BYTES)) as u32
}
