//! The summary of a soak, computed. Each function's contract is an example.
ghost use Rattle.std.specs.Prelude.{◌≡◌, codes};
ghost use Rattle.artheap_top.specs.Summary.{summary};

fn fixed_lines_alone()
    ensures { summary 64 1 0 ≡ codes "soak 1 0\nlines 11\nrefused 0\ncollections 0\nprocesses 1\nobjects 9\nframes 1\n" }
{}

fn two_made_lines()
    ensures { summary 64 1 2 ≡ codes "soak 1 2\nlines 13\nrefused 0\ncollections 0\nprocesses 1\nobjects 9\nframes 1\n" }
{}
