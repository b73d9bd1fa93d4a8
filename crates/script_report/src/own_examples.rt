//! The definitions of own lines, computed on small scripts. Each function's contract is an example.
ghost use Rattle.std.specs.Prelude.{◌≡◌, [], ◌∷◌, codes, map};
ghost use Rattle.script_report.specs.Own.{heard, own_script, told_by_script};
ghost use Rattle.script_report.specs.Report.{report};

// a child's own lines begin with its parent's, up to the fork
fn own_scripts_over_a_fork()
    ensures { let text = codes "zygote class P java.lang.Object x:int\nzygote seal\nzygote new a P\nzygote set a x 7\nzygote fork c1\nc1 set a x 9\nzygote get a x\nc1 get a x\nc1 pages\nzygote pages\nzygote frames\nzygote exit\nc1 get a x\nc1 frames\nzygote get a x\n" in
        map (λ t. own_script t text) (told_by_script 64 text)
        ≡ codes "zygote class P java.lang.Object x:int\nzygote seal\nzygote new a P\nzygote set a x 7\nzygote fork c1\n\nzygote get a x\n\n\nzygote pages\nzygote frames\nzygote exit\n\n\nzygote get a x\n"
        ∷ codes "zygote class P java.lang.Object x:int\nzygote seal\nzygote new a P\nzygote set a x 7\nzygote fork c1\nc1 set a x 9\n\nc1 get a x\nc1 pages\n\n\n\nc1 get a x\nc1 frames\n\n"
        ∷ [] }
{}

// lines that count frames are own lines, and aren't heard
fn heard_over_a_fork()
    ensures { map (λ t. heard t) (told_by_script 64 (codes "zygote class P java.lang.Object x:int\nzygote seal\nzygote new a P\nzygote set a x 7\nzygote fork c1\nc1 set a x 9\nzygote get a x\nc1 get a x\nc1 pages\nzygote pages\nzygote frames\nzygote exit\nc1 get a x\nc1 frames\nzygote get a x\n"))
        ≡ (1 ∷ 2 ∷ 3 ∷ 4 ∷ 5 ∷ 7 ∷ 10 ∷ 12 ∷ 15 ∷ []) ∷ (1 ∷ 2 ∷ 3 ∷ 4 ∷ 5 ∷ 6 ∷ 8 ∷ 9 ∷ 13 ∷ []) ∷ [] }
{}

// the child's replies are those of the whole script, but that its parent hasn't ended, so that two frames are counted
fn report_of_a_child_alone()
    ensures { report 64 (codes "zygote class P java.lang.Object x:int\nzygote seal\nzygote new a P\nzygote set a x 7\nzygote fork c1\nc1 set a x 9\n\nc1 get a x\nc1 pages\n\n\n\nc1 get a x\nc1 frames\n\n")
        ≡ codes "1: class 2\n2: ok\n3: #1\n4: ok\n5: ok\n6: ok\n8: 9\n9: image 0 0 zygote 1 1 large 0 0\n13: 9\n14: frames 2\n" }
{}

// comments, bad lines and lines for no process are no own lines
fn other_lines_are_blank()
    ensures { let text = codes "# a comment\nzygote seal\nzygote\n\nother gc\nzygote gc" in
        map (λ t. own_script t text) (told_by_script 64 text) ≡ codes "\nzygote seal\n\n\n\nzygote gc\n" ∷ [] }
{}
