//! Laws of the definitions. The contract of each function is the law; none has a body.
ghost use Rattle.std.specs.Prelude.{◌≡◌, ◌+◌, ◌++◌, ℕ, true, length};
ghost use Rattle.std.specs.List.{list_all};
ghost use Rattle.script_make.specs.Script.{is_in_one_line, made_lines, soak_lines, state_after};
ghost use Rattle.script_make.specs.declared.state.MakeState.{MakeState};

/// Lines go on where those before them ended.
pub fn lines_go_on()
    ensures { (m n : ℕ) → (s : MakeState) → made_lines (m + n) s ≡ made_lines m s ++ made_lines n (state_after m s) }
{}

/// A script of a count has as many made lines, behind the 11 fixed ones.
pub fn script_has_count_lines()
    ensures { (start count : ℕ) → length (soak_lines start count) ≡ 11 + count }
{}

/// No line of a script has a line feed in it, nor another byte below that of a space.
pub fn lines_have_no_line_feed()
    ensures { (start count : ℕ) → list_all is_in_one_line (soak_lines start count) ≡ true }
{}
