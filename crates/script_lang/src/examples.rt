//! The definitions, computed: what they say of some lines and replies. Each function's contract is an example.
ghost use Rattle.std.specs.Prelude.{◌≡◌, None, Ok, Err, map, true};
ghost use Rattle.script_lang.specs.Examples as example;
ghost use Rattle.script_lang.specs.Grammar.{entries, line_meaning};
ghost use Rattle.script_lang.specs.Texts.{reply_line};
ghost use Rattle.script_lang.specs.declared.read.LineError.TheVariants.{Bad};

// so the first entry with a word is the only one
fn no_command_twice()
    ensures { example.are_different (map (λ e. e.word) entries) ≡ true }
{}

fn good_lines()
    ensures { map (λ e. line_meaning e.0) example.good_lines ≡ map (λ e. example.asked_of_p e.1) example.good_lines }
{}

fn silent_lines()
    ensures { map line_meaning example.silent_lines ≡ map (λ line. Ok None) example.silent_lines }
{}

fn bad_lines()
    ensures { map line_meaning example.bad_lines ≡ map (λ line. Err Bad) example.bad_lines }
{}

fn replies()
    ensures { map (λ e. reply_line e.0.0 e.0.1) example.replies ≡ map (λ e. e.1) example.replies }
{}
