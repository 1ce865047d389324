//! Laws of call trees. These functions are proved and have no code.

ghost use Rattle.std.specs.Prelude.{◌≡◌, ℕ, List};
ghost use Rattle.rv_call_tree.specs.declared.call_node.CallNode.{CallNode};
ghost use Rattle.rv_call_tree.specs.Profiles.{own_steps_of_all, AreFunctionsOf};
ghost use Rattle.rv_call_tree.specs.Trees.{all_steps, calls_at, steps_at, HasCalls, IsTree};

/// Proves that two call trees are equal if each path has equal counts in both and every node of both was entered at least once.
pub fn trees_with_equal_counts_are_equal()
    ensures { (a b : List CallNode) → IsTree a → IsTree b → HasCalls a → HasCalls b
        → ((path : List ℕ) → calls_at path a ≡ calls_at path b)
        → ((path : List ℕ) → steps_at path a ≡ steps_at path b) → a ≡ b }
{}

/// Proves that the own steps of the functions of a call tree add up to the steps of all nodes.
pub fn own_steps_sum_to_all()
    ensures { (nodes : List CallNode) (functions : List ℕ) → AreFunctionsOf nodes functions
        → own_steps_of_all functions nodes ≡ all_steps nodes }
{}
