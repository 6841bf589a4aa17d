//! What holds of trees of contexts over several calls.
ghost use Rattle.std.specs.Prelude.{◌≡◌, ℕ};
ghost use Rattle.addr_space.specs.Space.{Space, held};
ghost use Rattle.context_tree.specs.State.{TreeState, stands_for, no_contexts, Agrees, Moves, SameRegions};

/// The laws by which a caller keeps a tree over several calls. A caller names it and cites a clause.
pub fn keeping()
    // Where nothing happens nothing moves, and one move after another is a move.
    ensures none { (tree : TreeState) (s : Space) → Agrees tree s → Moves tree tree s s }
    ensures more { (a b c : TreeState) (s t u : Space) → Moves a b s t → Moves b c t u → Moves a c s u }

    // In a space with the same regions a tree stands for the same, and each account holds what it held.
    ensures same { (tree : TreeState) (s t : Space) → SameRegions s t → stands_for tree t ≡ stands_for tree s }
    ensures same_held { (account : ℕ) (s t : Space) → SameRegions s t → held t account ≡ held s account }

    // From where a tree is made to where it has ended each account holds what it held.
    ensures ended { (account other : ℕ) (s t : Space) → Moves (no_contexts account) (no_contexts account) s t → held t other ≡ held s other }
{}
