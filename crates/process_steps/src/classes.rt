//! A law about a class that is defined.
ghost use Rattle.std.specs.Prelude.{◌≡◌, ◌≤◌, ℕ, List, Ok, length};
ghost use Rattle.model_numbers.specs.Numbers.{field_limit};
ghost use Rattle.class_layout.specs.declared.kind.FieldDecl.{FieldDecl};
ghost use Rattle.class_layout.specs.ClassList.{define_class, Class};
ghost use Rattle.heap_world.specs.declared.command.Verb.TheVariants as verb;
ghost use Rattle.heap_world.specs.Acts.{act};
ghost use Rattle.heap_world.specs.Part.{Part};
ghost use Rattle.process_state.specs.Acts.{Acts, Step};
ghost use Rattle.process_state.specs.Stands.{StandsIn};

/// A process that has a class more does what the definition of the class's command says: its objects stand as they stood.
pub fn defined_classes_act()
    ensures { (c : Step) (p : Part) (name parent : List ℕ) (fields : List FieldDecl) (classes : List Class) → StandsIn c.old c.was p → length fields ≤ field_limit
        → define_class p.graph.classes name parent fields ≡ Ok classes → c.new ≡ record c.old { classes = classes } → c.now ≡ c.was → Acts c p (act p (verb.Class name parent fields)) }
{}
