//! Laws on line number programs, with no code to run.
ghost use Rattle.std.specs.Prelude.{◌≡◌, ◌<◌, ◌≤◌, ◌+◌, ℕ, [], ◌∷◌, ◌++◌, List, Ok, Some, None, length};
ghost use Rattle.std.specs.List.{count_by};
ghost use Rattle.rv_lines.specs.declared.header.Parameters.{Parameters};
ghost use Rattle.rv_lines.specs.declared.operations.Operation.{Operation};
ghost use Rattle.rv_lines.specs.declared.rows.State.{State};
ghost use Rattle.rv_lines.specs.Operations.{operation_at, program};
ghost use Rattle.rv_lines.specs.Rows.{adds_row, apply, row_added, in_front, rows_of, state_after};
ghost use Rattle.rv_lines.specs.declared.span.SourceLine.{SourceLine};
ghost use Rattle.rv_lines.specs.Entries.{Strings};
ghost use Rattle.rv_lines.specs.Lines.{line_at, all_spans, units_of, IsSourceOf};
ghost use Rattle.rv_lines.specs.Units.{unit_length, rows_at};
ghost use Rattle.rv_lines.specs.Paths.{path_text, path_with};

/// Proves that each operation adds at most one row, and that the rows are in the order of the operations: first the rows of the operations
/// before an operation, then its own row, if it adds one, and then the rows of the operations after it.
pub fn rows_are_of_operations()
    ensures order { (p : Parameters) (s : State) (front : List Operation) (op : Operation) (back : List Operation)
        → rows_of p s (front ++ op ∷ back)
        ≡ rows_of p s front ++ in_front (row_added op (apply p op (state_after p s front))) (rows_of p (state_after p s (front ++ op ∷ [])) back) }
    ensures count { (p : Parameters) (s : State) (ops : List Operation) → length (rows_of p s ops) ≡ count_by adds_row ops }
{}

/// Proves that the source line of an address comes from the right row: among the rows that cover the address, the first of those whose
/// `low`, the address of the first row of their sequence, is the greatest.
pub fn line_is_of_first_highest_row()
    ensures { (strings : Strings) (section : List ℕ) (a : ℕ) (source : SourceLine) → line_at strings section a ≡ Some source
        → IsSourceOf (all_spans (units_of strings section)) a source }
{}

/// Proves that the rows of a unit depend only on its bytes and the string sections, and not on the bytes after the unit.
pub fn rows_depend_on_the_unit()
    ensures { (strings : Strings) (unit more : List ℕ) → 4 + unit_length unit ≡ length unit
        → rows_at strings (unit ++ more) ≡ rows_at strings unit }
{}

/// Proves that the text of a path is NAME, or DIRECTORY, `/` and NAME.
pub fn path_is_name_after_directory()
    ensures name { (name : List ℕ) → path_text (path_with None name) ≡ name }
    ensures both { (directory name : List ℕ) → path_text (path_with (Some directory) name) ≡ directory ++ 0x2f ∷ name }
{}

/// Proves that a program has no more operations than bytes.
pub fn operations_are_no_more_than_bytes()
    ensures { (opcode_base : ℕ) (lengths bytes : List ℕ)
        → length (program (length bytes) opcode_base lengths bytes).0 ≤ length bytes }
{}

/// Proves that reading an operation consumes at least one byte, so that reading a program ends.
pub fn operation_takes_a_byte()
    ensures { (opcode_base : ℕ) (lengths bytes rest : List ℕ) (operation : Operation)
        → operation_at opcode_base lengths bytes ≡ Ok (operation, rest) → length rest < length bytes }
{}
