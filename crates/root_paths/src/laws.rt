//! What the answers show by themselves.
ghost use Rattle.std.specs.Prelude.{◌≡◌, ℕ, ◌+◌, ◌≤◌, List, Some, None, IsTrue, length};
ghost use Rattle.dump_graph.specs.Graph.{Node, LeadsWithin};
ghost use Rattle.root_paths.specs.Paths.{IsPath, dist, has_edge, is_root, way};
ghost use Rattle.root_paths.specs.Shortest.{EndsWith};

/// The path that is told to a node with a distance is a path that ends with the node, it has as many edges as its distance,
/// and no path that ends with the node has fewer.
pub fn told_path_is_shortest()
    ensures path { (g : List Node) (n k : ℕ) → dist g n ≡ Some k → IsPath g (way g k n) }
    ensures end { (g : List Node) (n k : ℕ) → dist g n ≡ Some k → EndsWith n (way g k n) }
    ensures length { (g : List Node) (n k : ℕ) → dist g n ≡ Some k → length (way g k n) ≡ k + 1 }
    ensures shortest { (g : List Node) (n k : ℕ) (p : List ℕ) → dist g n ≡ Some k → IsPath g p → EndsWith n p → k + 1 ≤ length p }
{}

/// With a node that has no distance no path ends.
pub fn no_path_ends_without_distance()
    ensures { (g : List Node) (n : ℕ) (p : List ℕ) → LeadsWithin g → dist g n ≡ None → IsPath g p → EndsWith n p → ⊥ }
{}

/// The distances show by themselves that no path is shorter: roots have distance 0, and no edge out of a node leads to one
/// that has no distance, or a distance that is greater by more than 1.
pub fn distances_show_themselves()
    ensures roots { (g : List Node) (n : ℕ) → IsTrue (is_root g n) → dist g n ≡ Some 0 }
    ensures edges { (g : List Node) (m n d : ℕ) → LeadsWithin g → dist g m ≡ Some d → IsTrue (has_edge g m n) → (e : ℕ) × (dist g n ≡ Some e) × (e ≤ d + 1) }
{}
