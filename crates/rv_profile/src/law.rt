//! A law of profiles. It is proved, and its code only uses another law.

ghost use Rattle.std.specs.Prelude.{◌≡◌, ℕ, List};
ghost use Rattle.rv_count_tables.specs.Table.{IsValidTable};
ghost use Rattle.rv_count_tables.specs.declared.table.CountTable.{CountTable as ATable};
ghost use Rattle.rv_profile.specs.ImageStacks.{names_of, nodes_of};
ghost use Rattle.rv_profile.specs.Profile.{IsProfileOf, FunctionCounts, total_own_steps};
ghost use Rattle.rv_count_tables.specs.Trees.{all_steps};

use rv_count_tables::own_steps_sum_to_all;

/// Proves that the own steps of all functions of an image add up to the total steps of its call tree.
pub fn own_steps_sum_to_all_steps()
    ensures { (table : ATable) (bytes : List ℕ) (found : List FunctionCounts) → IsValidTable table
        → IsProfileOf (nodes_of table bytes) (names_of table bytes) found
        → total_own_steps found ≡ all_steps (nodes_of table bytes) }
{
    own_steps_sum_to_all();
}
