//! Laws of tables and sums. These functions are proved and have no code.

ghost use Rattle.std.specs.Prelude.{◌≡◌, ℕ, List};
ghost use Rattle.rv_count_tables.specs.declared.table.AddressCounts.{AddressCounts};
ghost use Rattle.rv_count_tables.specs.declared.table.CountTable.{CountTable};
ghost use Rattle.rv_count_tables.specs.Table.{AreValidCounts, IsValidTable, executed_at, taken_at, executed_in, taken_in, path_of_image, name_in, calls_in_image, steps_in};
ghost use Rattle.rv_count_tables.specs.Text.{table_text};
ghost use Rattle.rv_count_tables.specs.Sum.{IsSumOfCounts, IsSumOfTables, no_counts};

/// Proves that two lists of counts are equal if each address has equal counts in both.
pub fn lists_with_equal_counts_are_equal()
    ensures { (a b : List AddressCounts) → AreValidCounts a → AreValidCounts b
        → ((address : ℕ) → executed_at address a ≡ executed_at address b)
        → ((address : ℕ) → taken_at address a ≡ taken_at address b) → a ≡ b }
{}

/// Proves that the sum of two lists of counts does not depend on their order.
pub fn sums_of_counts_commute()
    ensures { (a b ab ba : List AddressCounts) → IsSumOfCounts a b ab → IsSumOfCounts b a ba → ab ≡ ba }
{}

/// Proves that the sum of three lists of counts does not depend on which two are added first.
pub fn sums_of_counts_associate()
    ensures { (a b c ab bc first last : List AddressCounts) → IsSumOfCounts a b ab → IsSumOfCounts ab c first
        → IsSumOfCounts b c bc → IsSumOfCounts a bc last → first ≡ last }
{}

/// Proves that two tables are equal if they have the same number of runs and if each image has the same path, the same function names, and
/// equal counts at each address and of each call path in both.
pub fn tables_with_equal_counts_are_equal()
    ensures { (t u : CountTable) → IsValidTable t → IsValidTable u
        → ((digest : List ℕ) (address : ℕ) → executed_in digest address t.images ≡ executed_in digest address u.images)
        → ((digest : List ℕ) (address : ℕ) → taken_in digest address t.images ≡ taken_in digest address u.images)
        → ((digest : List ℕ) → path_of_image digest t.images ≡ path_of_image digest u.images)
        → ((digest : List ℕ) (function : ℕ) → name_in digest function t.images ≡ name_in digest function u.images)
        → ((digest path : List ℕ) → calls_in_image digest path t.images ≡ calls_in_image digest path u.images)
        → ((digest path : List ℕ) → steps_in digest path t.images ≡ steps_in digest path u.images)
        → t.runs ≡ u.runs → t ≡ u }
{}

/// Proves that the sum of two tables does not depend on their order, and that the sum of three does not depend on which two are added
/// first.
pub fn sums_of_tables_commute_and_associate()
    ensures commute { (a b ab ba : CountTable) → IsSumOfTables a b ab → IsSumOfTables b a ba → ab ≡ ba }
    ensures associate { (a b c ab bc first last : CountTable) → IsSumOfTables a b ab → IsSumOfTables ab c first
        → IsSumOfTables b c bc → IsSumOfTables a bc last → first ≡ last }
{}

/// Proves that two tables with equal texts are equal.
pub fn tables_with_equal_texts_are_equal()
    ensures { (t u : CountTable) → IsValidTable t → IsValidTable u → table_text t ≡ table_text u → t ≡ u }
{}

/// Proves that adding the empty table changes nothing.
pub fn empty_table_adds_nothing()
    ensures { (t : CountTable) → IsValidTable t → IsSumOfTables no_counts t t }
{}
