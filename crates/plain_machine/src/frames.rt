//! The count of frames: one for each page and label of the pages that stand, and one for each page of a process's own.
ghost use Rattle.std.specs.Prelude.{◌≡◌, [], ◌∷◌, ◌++◌, ◌+◌, ◌*◌, ◌^◌, ◌≤◌, length, map, nat_eq, sum, IfOk, OnOk};
ghost use Rattle.std.specs.List.{flat_map, list_any};
ghost use Rattle.std.specs.Option.{option_copied};
ghost use Rattle.heap_graph.specs.Formed.{IsFormed};
ghost use Rattle.heap_world.specs.Pages.{distinct, large_page_count, own_page_count, standing_pages, young_page_count};
ghost use Rattle.heap_world.specs.Sound.{IsSound};
ghost use Rattle.heap_world.specs.World.{distinct_labels, frame_count, label_of, live, same_label, some_labels, standing_labels};
ghost use Rattle.plain_graph.specs.Shapes.{HasClass};
ghost use Rattle.plain_machine.specs.Worlds.{AreSound};

use crate::lives::promoted_pages;
use crate::makes::pages_for;
use crate::pages::{image_pages, same_page, zygote_pages};
use crate::process::Process;
use heap_graph::Place;
use heap_world::{Label, PageName, sizes_are_bounded};
use plain_graph::{Graph, Object, unrounded};
use std::alloc::{AllocError, Global};

fn same_label(a: &Label, b: &Label) -> bool
    ensures { result ≡ same_label a.now b.now }
{
    same_page(&a.page, &b.page) && a.line == b.line
}

fn is_label_among(labels: &[Label], label: &Label) -> bool
    ensures { result ≡ list_any (same_label label.now) labels.now }
{
    labels.iter().any(|other| same_label(label, other))
}

/// 1 for a label that doesn't come again, else 0.
#[tactic(auto, using(crate::proofs::Live::label_new))]
fn new_label(label: &Label, more: &[Label]) -> usize
    ensures value { result + length (distinct_labels more.now) ≡ length (distinct_labels (label.now ∷ more.now)) }
    ensures small { result ≤ 1 }
{
    if is_label_among(more, label) { 0 } else { 1 }
}

/// How many different labels there are.
fn count_labels(labels: &[Label]) -> usize
    ensures { result ≡ length (distinct_labels labels.now) }
{
    let mut count = 0;
    let mut rest = labels;
    while let Some((label, more)) = rest.split_first() {
        count += new_label(label, more);
        rest = more;
    }
    count
}

fn is_number_among(numbers: &[u64], number: u64) -> bool
    ensures { result ≡ list_any (nat_eq number) numbers.now }
{
    numbers.iter().any(|other| number == *other)
}

/// 1 for a number that doesn't come again, else 0.
#[tactic(auto, using(crate::proofs::Live::number_new))]
fn new_number(number: u64, more: &[u64]) -> usize
    ensures value { result + length (distinct more.now) ≡ length (distinct (number ∷ more.now)) }
    ensures small { result ≤ 1 }
{
    if is_number_among(more, number) { 0 } else { 1 }
}

/// How many different numbers there are.
fn count_numbers(numbers: &[u64]) -> usize
    ensures { result ≡ length (distinct numbers.now) }
{
    let mut count = 0;
    let mut rest = numbers;
    while let Some((number, more)) = rest.split_first() {
        count += new_number(*number, more);
        rest = more;
    }
    count
}

/// A page's label: the newest one.
fn label_of<'a>(labels: &'a [Label], page: &PageName) -> Option<&'a Label>
    ensures { option_copied result ≡ label_of labels.now page.now }
{
    labels.iter().find(|label| same_page(&label.page, page))
}

/// The pages that stand: those of the image, the zygote window and promoted large objects.
fn standing_pages(alloc: Global, graph: &Graph) -> Result<Vec<PageName>, AllocError>
    requires formed { IsFormed graph.now }
    ensures { IfOk result (λ pages. pages.items ≡ standing_pages graph.now) }
{
    sizes_are_bounded();
    let mut pages = image_pages(alloc, 0, pages_for(graph.image_fill()))?;
    pages.extend_from_slice(&zygote_pages(alloc, 0, pages_for(graph.zygote_fill()))?)?;
    pages.extend_from_slice(&promoted_pages(alloc, graph)?)?;
    Ok(pages)
}

/// Adds the label of a page, if it has one.
fn push_label(labels: &mut Vec<Label>, known: &[Label], page: &PageName) -> Result<(), AllocError>
    ensures { OnOk result (labels.new.items ≡ labels.old.items ++ some_labels (label_of known.now page.now)) }
{
    if let Some(label) = label_of(known, page) {
        labels.push(*label)?;
    }
    Ok(())
}

/// Adds the labels of pages.
fn push_labels(
    labels: &mut Vec<Label>,
    known: &[Label],
    pages: &[PageName],
) -> Result<(), AllocError>
    ensures { OnOk result (labels.new.items ≡ labels.old.items ++ flat_map (λ page. some_labels (label_of known.now page)) pages.now) }
{
    let mut rest = pages;
    while let Some((page, more)) = rest.split_first() {
        push_label(labels, known, page)?;
        rest = more;
    }
    Ok(())
}

/// Adds the labels of the pages that stand in a process.
fn push_standing(alloc: Global, labels: &mut Vec<Label>, q: &Process) -> Result<(), AllocError>
    requires sound { IsSound q.now.part }
    ensures { OnOk result (labels.new.items ≡ labels.old.items ++ standing_labels q.now) }
{
    let pages = standing_pages(alloc, &q.part.graph)?;
    push_labels(labels, &q.labels, &pages)
}

/// Adds the labels of the pages that stand in a process, if it lives.
fn push_live(alloc: Global, labels: &mut Vec<Label>, q: &Process) -> Result<(), AllocError>
    requires sound { IsSound q.now.part }
    ensures { OnOk result (labels.new.items ≡ labels.old.items ++ flat_map standing_labels (live (q.now ∷ []))) }
{
    if q.part.exited {
        return Ok(());
    }
    push_standing(alloc, labels, q)
}

/// The labels of the pages that stand in live processes.
#[tactic(auto, using(crate::proofs::Live::living))]
fn live_labels(alloc: Global, processes: &[Process]) -> Result<Vec<Label>, AllocError>
    requires sound { AreSound processes.now }
    ensures { IfOk result (λ labels. labels.items ≡ flat_map standing_labels (live processes.now)) }
{
    let mut labels = Vec::new(alloc);
    for q in processes {
        push_live(alloc, &mut labels, q)?;
    }
    Ok(labels)
}

/// The pages of an object, where it is large and not promoted.
fn large_page_count(graph: &Graph, o: &Object) -> u64
    requires class { HasClass graph.now.classes o.now.shape }
    ensures value { result ≡ large_page_count graph.now.classes o.now o.now.place }
    ensures small { result ≤ 2 ^ 28 }
{
    if o.place() == Place::Large {
        u64::from(pages_for(unrounded(graph.classes(), o.shape())))
    } else {
        0
    }
}

/// The pages of large objects that aren't promoted.
#[tactic(auto, using(plain_graph::proofs::FormedObjects::small_objects))]
fn large_pages(graph: &Graph) -> u64
    requires formed { IsFormed graph.now }
    ensures value { result ≡ sum (map (λ o. large_page_count graph.now.classes o o.place) graph.now.objects) }
    ensures small { result ≤ 2 ^ 28 * length graph.now.objects }
{
    let mut pages = 0;
    for o in graph.objects() {
        pages += large_page_count(graph, o);
    }
    pages
}

/// How many pages are the process's own: those of young objects, and of large ones that aren't promoted. A count beyond
/// the range of u64 is answered as want of memory.
fn own_page_count(graph: &Graph) -> Result<u64, AllocError>
    requires formed { IsFormed graph.now }
    ensures { IfOk result (λ n. n ≡ own_page_count graph.now) }
{
    let young = count_numbers(&graph.young_pages()?) as u64;
    young.checked_add(large_pages(graph)).ok_or(AllocError)
}

/// The frames that live processes have for themselves. A count beyond the range of u64 is answered as want of memory.
#[tactic(auto, using(crate::proofs::Live::counting_own))]
fn own_frames(processes: &[Process]) -> Result<u64, AllocError>
    requires sound { AreSound processes.now }
    ensures { IfOk result (λ n. n ≡ sum (map (λ q. own_page_count q.part.graph) (live processes.now))) }
{
    let mut frames = 0u64;
    for q in processes {
        if !q.part.exited {
            let own = own_page_count(&q.part.graph)?;
            frames = frames.checked_add(own).ok_or(AllocError)?;
        }
    }
    Ok(frames)
}

/// How many frames are in use. A count beyond the range of u64 is answered as want of memory.
pub(crate) fn frame_count(alloc: Global, processes: &[Process]) -> Result<u64, AllocError>
    requires sound { AreSound processes.now }
    ensures { IfOk result (λ n. n ≡ frame_count (record { processes = processes.now })) }
{
    let shared = count_labels(&live_labels(alloc, processes)?) as u64;
    let own = own_frames(processes)?;
    shared.checked_add(own).ok_or(AllocError)
}
