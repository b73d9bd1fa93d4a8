//! The definitions, computed: what the world answers to small scripts. Each function's contract is an example.
ghost use Rattle.std.specs.Prelude.{◌≡◌};
ghost use Rattle.heap_world.specs.Examples as example;
ghost use Rattle.heap_world.specs.Run.{allowance, answers};
ghost use Rattle.heap_world.specs.World.{first_world};

fn fork_and_store()
    ensures { answers (first_world 64 1) example.fork_and_store ≡ example.fork_and_store_answers }
{}

fn second_fork()
    ensures { answers (first_world 64 1) example.second_fork ≡ example.second_fork_answers }
{}

fn collection_after_fork()
    ensures { answers (first_world 64 1) example.collection_after_fork ≡ example.collection_after_fork_answers }
{}

fn weak_reference()
    ensures { answers (first_world 64 1) example.weak_reference ≡ example.weak_reference_answers }
{}

fn shared_weak_reference()
    ensures { answers (first_world 64 1) example.shared_weak_reference ≡ example.shared_weak_reference_answers }
{}

fn refusals()
    ensures { answers (first_world 64 1) example.refusals ≡ example.refusals_answers }
{}

fn full_region()
    ensures { answers (first_world 1 1) example.full_region ≡ example.full_region_answers }
{}

fn large_object_over_fork()
    ensures { answers (first_world 64 1) example.large_object_over_fork ≡ example.large_object_over_fork_answers }
{}

// An object of 16 bytes in the image or in the zygote window allows 32 reads: one in lines 5 and 7, two in line 10. Line
// 8 promotes one.
fn dumps()
    ensures replies { answers (first_world 64 1) example.dumps ≡ example.dumps_answers }
    ensures reads { allowance (first_world 64 1) example.dumps ≡ 320 }
{}
