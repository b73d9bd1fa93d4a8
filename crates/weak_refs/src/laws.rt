//! What the references hold after the dead ones were cleared.
ghost use Rattle.std.specs.Prelude.{◌≡◌, ℕ, Bool, List, [], if◌then◌else◌};
ghost use Rattle.std.specs.List.{Contains};
ghost use Rattle.cow_pages.specs.Memory.{Memory};
ghost use Rattle.cow_pages.specs.Only.{OnlyTable};
ghost use Rattle.cow_pages.specs.View.{View, u32_at};
ghost use Rattle.weak_refs.specs.Weak.{is_dead, dead_in, cleared, AreSlots, ClearsSlots};

/// A listed reference that was dead is null, and each other holds what it held. None of them is dead then, so that
/// clearing twice is clearing once.
pub fn cleared_references()
    ensures holds { (kept : ℕ → Bool) (v : View) (slots : List ℕ) (at : ℕ) → AreSlots v slots → Contains slots at
        → u32_at (cleared (dead_in kept v slots) v) at ≡ (if is_dead kept v at then 0 else u32_at v at) }
    ensures again { (kept : ℕ → Bool) (v : View) (slots : List ℕ) → AreSlots v slots → dead_in kept (cleared (dead_in kept v slots) v) slots ≡ [] }
{}

/// Where references of a table were cleared, this table alone changed: each page of it has the frame that it had, or one
/// of its own.
pub fn references_are_of_one_table()
    ensures { (old new : Memory) (t : ℕ) (slots : List ℕ) → ClearsSlots old new t slots → OnlyTable old new t }
{}
