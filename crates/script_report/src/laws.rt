//! Laws of the report: what it says of the commands of a script, and of each process's own lines.
ghost use Rattle.std.specs.Prelude.{◌≡◌, ℕ, ◌+◌, ◌*◌, List, length, map};
ghost use Rattle.class_layout.specs.Placing.{IsIn};
ghost use Rattle.script_report.specs.Own.{AreAloneIn, answers_to, bad_lines, commands_from, numbers, told_by_script};
ghost use Rattle.script_report.specs.Report.{allowance_from, answers, answers_from, last_world, world_after, world_of};
ghost use Rattle.script_report.specs.Wanting.{left_between};
ghost use Rattle.heap_world.specs.Effect.{line_reads};
ghost use Rattle.heap_world.specs.Isolation.{NoNameTaken};
ghost use Rattle.heap_world.specs.Run as run;
ghost use Rattle.heap_world.specs.World.{World};
ghost use Rattle.world_laws.specs.Labels.{AreEarlier};

use heap_world::processes_are_isolated;

/// Lines do what the commands among them do. The world after lines is the world after the commands. The answers to the
/// numbers of the commands are the answers to the commands. The reads that lines allow are those that the commands
/// allow, and 16 more for each line that is too long or bad.
pub fn commands_are_answered()
    ensures world { (w : World) (n : ℕ) (ls : List (List ℕ)) →
        world_after w n ls ≡ run.world_after w (commands_from n ls) }
    ensures answers { (w : World) (n : ℕ) (ls : List (List ℕ)) →
        answers_to (numbers (commands_from n ls)) (answers_from w n ls) ≡ run.answers w (commands_from n ls) }
    ensures allowance { (w : World) (n : ℕ) (ls : List (List ℕ)) →
        allowance_from w n ls ≡ run.allowance w (commands_from n ls) + line_reads * bad_lines ls }
{}

/// In a script without a fork that is refused since its name is taken, each process answers and is what the script of
/// its own lines alone makes of it. That script has exactly these lines, at their numbers, and every other line is left
/// blank. The answers are compared but for the counts of all processes' frames. What the processes were told is listed
/// in the order of the processes that were made.
pub fn scripts_are_isolated()
    ensures alone { (budget : ℕ) (text : List ℕ) →
        NoNameTaken (answers budget text) → AreAloneIn budget text (told_by_script budget text) }
    ensures names { (budget : ℕ) (text : List ℕ) →
        map (λ t. t.name) (told_by_script budget text) ≡ map (λ q. q.name) (last_world budget text).processes }
{
    processes_are_isolated();
}

/// Before each line of a script the labels of all processes are of lines before it, so that the line's number is greater.
/// Where memory is wanting for the line, the world before it is one that may be left.
pub fn lines_come_after_all_labels()
    ensures earlier { (budget : ℕ) (before : List (List ℕ)) → AreEarlier (1 + length before) (world_of budget before) }
    ensures left { (budget : ℕ) (before rest : List (List ℕ)) → IsIn (world_of budget before) (left_between budget before rest) }
{}
