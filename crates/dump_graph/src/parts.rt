//! The parts of a dump's segments, in one list.
ghost use Rattle.std.specs.Prelude.{◌≡◌, ◌++◌, map, IfOk, OnOk};
ghost use Rattle.dump_graph.specs.Graph.{parts, parts_of};

use hprof_records::{SubRecord, TopRecord};
use std::alloc::{AllocError, Global};

/// Puts the parts of one record behind others.
fn add_parts<'a>(found: &mut Vec<&'a SubRecord>, one: &'a TopRecord) -> Result<(), AllocError>
    ensures { OnOk result (map (λ p. p.now) found.new.items ≡ map (λ p. p.now) found.old.items ++ parts_of one.now) }
{
    match one {
        TopRecord::Segment { parts, .. } => {
            let list = parts.as_slice();
            for part in list {
                found.push(part)?;
            }
            Ok(())
        }
        _ => Ok(()),
    }
}

/// The parts of the records' segments, in order.
pub(crate) fn parts_of<'a>(
    alloc: Global,
    records: &'a [TopRecord],
) -> Result<Vec<&'a SubRecord>, AllocError>
    ensures { IfOk result (λ found. map (λ p. p.now) found.items ≡ parts records.now) }
{
    let mut found = Vec::new(alloc);
    for one in records {
        add_parts(&mut found, one)?;
    }
    Ok(found)
}
