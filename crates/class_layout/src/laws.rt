//! Laws above the definitions: what they say, in other words.
ghost use Rattle.std.specs.Prelude.{◌≡◌, ℕ, ◌++◌, List, Option, Some, IfSome, length, map, nat_eq, slice_get};
ghost use Rattle.class_layout.specs.declared.kind.FieldAt.{FieldAt};
ghost use Rattle.class_layout.specs.declared.kind.FieldDecl.{FieldDecl};
ghost use Rattle.class_layout.specs.ClassList.{Class, layout_of, own_fields_of, superclass_layout, IsClassList};
ghost use Rattle.class_layout.specs.Layout.{field_named, in_layout_order, lay_out, Placed};
ghost use Rattle.class_layout.specs.Placing.{IsIn};

/// The layout rule: a class's own fields are laid out behind its superclass's layout, and those of class 1 alone are weak.
pub fn layout_rule()
    ensures { (cs : List Class) (k : ℕ) → IsClassList cs → IfSome (slice_get cs k) (λ c.
        layout_of cs k ≡ lay_out (nat_eq k 1) (superclass_layout cs c.parent) c.fields) }
{}

/// Each field that a class declares has a place under its name, and a place has the kind that its field was declared with.
pub fn places_have_declared_kinds()
    ensures found { (cs : List Class) (k : ℕ) (f : FieldDecl) → IsClassList cs → IsIn f (own_fields_of cs k) → (at : FieldAt) × (field_named (layout_of cs k) f.name ≡ Some at) × (at.kind ≡ f.kind) }
    ensures kind { (cs : List Class) (k : ℕ) (f : FieldDecl) (at : FieldAt) → IsClassList cs → IsIn f (own_fields_of cs k) → field_named (layout_of cs k) f.name ≡ Some at → at.kind ≡ f.kind }
{}

/// A class has the places of its superclass first and in order, and behind them one for each field that it declares, in
/// the order of the layout. A field of the superclass is found at the same place.
pub fn inherited_places_come_first()
    ensures first { (cs : List Class) (k p : ℕ) → IsClassList cs → slice_get (map (λ c. c.parent) cs) k ≡ Some (Some p)
        → (own : List Placed) × ((layout_of cs k).fields ≡ (layout_of cs p).fields ++ own) × (length own ≡ length (own_fields_of cs k))
        × (map (λ x. x.name) own ≡ map (λ f. f.name) (in_layout_order (own_fields_of cs k))) }
    ensures found { (cs : List Class) (k p : ℕ) (name : List ℕ) (at : FieldAt) → IsClassList cs → slice_get (map (λ c. c.parent) cs) k ≡ Some (Some p)
        → field_named (layout_of cs p) name ≡ Some at → field_named (layout_of cs k) name ≡ Some at }
{}
