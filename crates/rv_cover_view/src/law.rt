//! A law on the functions that never ran. It is proved and has no code.

ghost use Rattle.std.specs.Prelude.{◌↔◌, List};
ghost use Rattle.std.specs.List.{Contains};
ghost use Rattle.rv_count_tables.specs.declared.table.AddressCounts.{AddressCounts as Counts};
ghost use Rattle.rv_count_tables.specs.Table.{AreValidCounts};
ghost use Rattle.rv_elf.specs.Functions.{FunctionView};
ghost use Rattle.rv_cover_view.specs.Cover.{WasNotExecuted, never_run};

/// Proves that `never_run` has exactly the functions at whose addresses no instruction was executed.
pub fn functions_never_run_were_not_executed()
    ensures { (counts : List Counts) (fs : List FunctionView) (f : FunctionView) → AreValidCounts counts
        → Contains (never_run counts fs) f ↔ (Contains fs f × WasNotExecuted counts f) }
{}
