//! The definitions, computed: what they say of some states. Each function's contract is an example.
ghost use Rattle.std.specs.Prelude.{◌≡◌, [], ◌∷◌, codes, drop, map};
ghost use Rattle.script_make.specs.Draws.{first_draws};
ghost use Rattle.script_make.specs.Examples as example;
ghost use Rattle.script_make.specs.Lines.{made_line, next_state};
ghost use Rattle.script_make.specs.Script.{first_state, made_lines, soak_lines};

fn draws_from_1()
    ensures { first_draws 8 1 ≡ 16838 ∷ 5758 ∷ 10113 ∷ 17515 ∷ 31051 ∷ 5627 ∷ 23010 ∷ 7419 ∷ [] }
{}

fn lines_from_1()
    ensures { made_lines 2 (first_state 1) ≡ codes "zygote set r1 next r3" ∷ codes "zygote copy r2 r3" ∷ [] }
{}

fn lines_from_7()
    ensures { drop 11 (soak_lines 7 8) ≡ example.lines_from_7 }
{}

fn next_lines()
    ensures { map (λ e. made_line e.from) example.next_lines ≡ map (λ e. e.line) example.next_lines }
{}

fn next_states()
    ensures { map (λ e. next_state e.from) example.next_lines ≡ map (λ e. e.to) example.next_lines }
{}
