use crate::made::{array, class, dump, instance, no_data, root};
use ah_outside::MemorySink;
use hprof_records::SubList;
use root_paths::{PathError, find_path};
use std::alloc::{AllocError, Global};
use std::process::Abort;
use std::test::Fail;

/// What is told of an identifier in a dump with these parts.
fn told(rt: &impl Abort, alloc: Global, parts: SubList, id: u32, wanted: &str) -> Result<(), Fail> {
    let made = dump(alloc, parts)?;
    let mut sink = MemorySink::new(alloc, 10_000, &[])?;
    let answer = find_path(alloc, &made, id, &mut sink);
    assert!(rt; answer.is_ok(), "memory for {id}");
    let text = str::from_utf8(sink.bytes())?;
    assert_eq!(rt; text, wanted, "the answer for {id}");
    Ok(())
}

/// A root, which refers to an object.
fn two_objects(alloc: Global) -> Result<SubList, AllocError> {
    let mut parts = SubList::new(alloc);
    parts.push(root(0xff, 0x20))?;
    parts.push(class(alloc, 0x10, 0, &[2], &[])?)?;
    parts.push(instance(alloc, 0x20, 0x10, &[0, 0, 0, 0x30])?)?;
    parts.push(instance(alloc, 0x30, 0x10, &[0, 0, 0, 0])?)?;
    Ok(parts)
}

#[test]
fn an_instance_refers_to_another(rt: HostRuntime) -> Result<(), Fail> {
    let a = rt.alloc();
    told(
        &rt,
        a,
        two_objects(a)?,
        0x30,
        "path 1\n0x00000020\n0x00000030\nlevel 0 0x00000020\nlevel 1 0x00000030\n",
    )?;
    told(
        &rt,
        a,
        two_objects(a)?,
        0x20,
        "path 0\n0x00000020\nlevel 0 0x00000020\n",
    )?;
    told(
        &rt,
        a,
        two_objects(a)?,
        0x10,
        "no path\nlevel 0 0x00000020\nlevel 1 0x00000030\n",
    )?;
    told(&rt, a, two_objects(a)?, 0x40, "no node 0x00000040\n")
}

#[test]
fn a_class_holds_an_object_by_a_static_field(rt: HostRuntime) -> Result<(), Fail> {
    let a = rt.alloc();
    let mut parts = SubList::new(a);
    parts.push(root(0x05, 0x10))?;
    parts.push(class(a, 0x10, 0, &[], &[0x20])?)?;
    parts.push(no_data(0x20))?;
    told(
        &rt,
        a,
        parts,
        0x20,
        "path 1\n0x00000010\n0x00000020\nlevel 0 0x00000010\nlevel 1 0x00000020\n",
    )
}

#[test]
fn the_first_part_with_an_identifier_counts(rt: HostRuntime) -> Result<(), Fail> {
    let a = rt.alloc();
    let mut parts = SubList::new(a);
    parts.push(array(a, 0x20, &[0x30])?)?;
    parts.push(array(a, 0x20, &[0x40])?)?;
    parts.push(no_data(0x40))?;
    parts.push(no_data(0x30))?;
    parts.push(root(0x01, 0x20))?;
    told(
        &rt,
        a,
        parts,
        0x40,
        "no path\nlevel 0 0x00000020\nlevel 1 0x00000030\n",
    )
}

#[test]
fn superclasses_that_form_a_cycle_give_no_layout(rt: HostRuntime) -> Result<(), Fail> {
    let a = rt.alloc();
    let mut parts = SubList::new(a);
    parts.push(root(0xff, 0x20))?;
    parts.push(instance(a, 0x20, 0x11, &[0, 0, 0, 0x30])?)?;
    parts.push(class(a, 0x11, 0x12, &[2], &[])?)?;
    parts.push(class(a, 0x12, 0x13, &[], &[])?)?;
    parts.push(class(a, 0x13, 0x12, &[], &[])?)?;
    parts.push(no_data(0x30))?;
    told(&rt, a, parts, 0x30, "no path\nlevel 0 0x00000020\n")
}

#[test]
fn an_instance_may_stand_before_its_class(rt: HostRuntime) -> Result<(), Fail> {
    let a = rt.alloc();
    let mut parts = SubList::new(a);
    parts.push(instance(a, 0x20, 0x11, &[7, 0, 0, 0, 0x30])?)?;
    parts.push(class(a, 0x11, 0x12, &[8], &[])?)?;
    parts.push(class(a, 0x12, 0x13, &[], &[])?)?;
    parts.push(class(a, 0x13, 0, &[2], &[])?)?;
    parts.push(no_data(0x30))?;
    parts.push(root(0x8e, 0x20))?;
    told(
        &rt,
        a,
        parts,
        0x30,
        "path 1\n0x00000020\n0x00000030\nlevel 0 0x00000020\nlevel 1 0x00000030\n",
    )
}

#[test]
fn values_of_another_size_are_no_references(rt: HostRuntime) -> Result<(), Fail> {
    let a = rt.alloc();
    let mut parts = SubList::new(a);
    parts.push(root(0xff, 0x20))?;
    parts.push(root(0xff, 0x21))?;
    parts.push(class(a, 0x10, 0, &[2], &[])?)?;
    parts.push(instance(a, 0x20, 0x10, &[0, 0, 0, 0x30, 0])?)?;
    parts.push(instance(a, 0x21, 0x10, &[0, 0, 0x30])?)?;
    parts.push(no_data(0x30))?;
    told(
        &rt,
        a,
        parts,
        0x30,
        "no path\nlevel 0 0x00000020\nlevel 0 0x00000021\n",
    )
}

#[test]
fn roots_that_are_no_nodes_or_unreachable_do_not_count(rt: HostRuntime) -> Result<(), Fail> {
    let a = rt.alloc();
    let mut parts = SubList::new(a);
    parts.push(root(0xff, 0x99))?;
    parts.push(root(0x90, 0x20))?;
    parts.push(array(a, 0x20, &[0x99, 0x30])?)?;
    parts.push(no_data(0x30))?;
    told(&rt, a, parts, 0x30, "no path\n")
}

#[test]
fn the_first_node_before_counts(rt: HostRuntime) -> Result<(), Fail> {
    let a = rt.alloc();
    let mut parts = SubList::new(a);
    parts.push(array(a, 0x21, &[0x40])?)?;
    parts.push(array(a, 0x22, &[0x40])?)?;
    parts.push(array(a, 0x20, &[0x22, 0x21])?)?;
    parts.push(array(a, 0x40, &[0x20, 0x40])?)?;
    parts.push(root(0xff, 0x20))?;
    told(
        &rt,
        a,
        parts,
        0x40,
        "path 2\n0x00000020\n0x00000021\n0x00000040\nlevel 1 0x00000021\nlevel 1 0x00000022\nlevel 0 0x00000020\nlevel 2 0x00000040\n",
    )
}

/// A sink that fails has a prefix of the text.
#[test]
fn a_sink_that_fails_has_some_first_bytes(rt: HostRuntime) -> Result<(), Fail> {
    let a = rt.alloc();
    let made = dump(a, two_objects(a)?)?;
    let mut sink = MemorySink::new(a, 10_000, &[3])?;
    let answer = find_path(a, &made, 0x30, &mut sink);
    assert_eq!(rt; answer, Err(PathError::SinkFault));
    assert!(rt; b"path 1\n0x00000020\n0x00000030\n".starts_with(sink.bytes()));
    Ok(())
}
