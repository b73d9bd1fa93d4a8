//! The places of a class's own fields.
ghost use Rattle.std.specs.Prelude.{◌≡◌, ℕ, ◌+◌, ◌*◌, ◌^◌, ◌<◌, ◌≤◌, Bool, filter, length};
ghost use Rattle.model_numbers.specs.Numbers.{field_limit};
ghost use Rattle.class_layout.specs.Layout.{Laid, place_fields, lay_out};
ghost use Rattle.class_layout.specs.Placing.{has_rank, ArePlaced};

use crate::FieldDecl;

// A field takes at most 15 bytes, 7 of them as padding, so 4,096 fields take at most 61,440. Each group is bounded by that
// on its own here, which still leaves room below 2^32.

/// Gives each field its offset: references first, then values of 8, 4, 2 and 1 bytes. Returns where the last field ends.
pub(crate) fn place_all(fields: &[FieldDecl], from: u32, offsets: &mut [u32]) -> u32
    requires long { length offsets.old ≡ length fields.now }
    requires few { length fields.now ≤ field_limit }
    requires room { from + 350000 < 2 ^ 32 }
    ensures end { (weak : Bool) (laid : Laid) → laid.end ≡ from → (lay_out weak laid fields.now).end ≡ result }
    ensures places { (weak : Bool) (laid : Laid) → laid.end ≡ from → ArePlaced weak (lay_out weak laid fields.now) fields.now offsets.new 5 0 }
{
    let mut end = from;
    for rank in 0..5 {
        end = place_group(fields, rank, end, offsets);
    }
    end
}

// Gives each field of one group its offset, in the order of declaration.
fn place_group(fields: &[FieldDecl], rank: u8, from: u32, offsets: &mut [u32]) -> u32
    requires long { length offsets.old ≡ length fields.now }
    requires few { length fields.now ≤ field_limit }
    requires room { from + 70000 < 2 ^ 32 }
    ensures bound { result ≤ from + 61440 }
    ensures end { (weak : Bool) (laid : Laid) → laid.end ≡ from → (place_fields weak laid (filter (has_rank rank) fields.now)).end ≡ result }
    ensures places { (weak : Bool) (laid : Laid) → laid.end ≡ from → ArePlaced weak laid fields.now offsets.old rank 0
        → ArePlaced weak (place_fields weak laid (filter (has_rank rank) fields.now)) fields.now offsets.new (rank + 1) 0 }
{
    let mut end = from;
    for (i, f) in fields.iter().enumerate() {
        if f.kind.rank() == rank {
            let offset = f.kind.place_from(end);
            offsets[i] = offset;
            end = offset + f.kind.bytes();
        }
    }
    end
}
