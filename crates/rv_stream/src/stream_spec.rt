//! The specification of a stream, which contracts refer to.

use std::marker::Brand;

/// What a stream does, fixed before it begins. All members are ghosts; each stream has an implementation of its own.
pub trait StreamSpec {
    ghost use Rattle.std.specs.Prelude.{ℕ, Bool, List, Option};
    ghost use Rattle.rv_expect.specs.Judgement.{JudgeView};
    ghost use Rattle.rv_counting.specs.declared_row.Row.{Row};

    // The bytes that the sink had accepted before the stream, and the number of its failed writes: of the stream's sink, or of the sink of
    // a [`crate::RowSender`].
    ghost accepted_before: { Option (List ℕ) };

    ghost failure_count: { ℕ };

    // After how many failures the run stops, and which rows are failures.
    ghost max_failures: { Option ℕ };

    ghost judge: { JudgeView };

    // Whether a [`crate::RowSender`] has a sink.
    ghost has_sink: { Bool };

    // Whether an observer may store the texts of rows that are failures, and the text that a [`crate::RowSender`] writes for the row of the
    // job at an index.
    ghost keeps_failure_texts: { Bool };

    ghost row_text: { ℕ → Row → List ℕ };
}

impl StreamSpec for Brand {
    ghost use Rattle.std.specs.Prelude.{None, [], false};
    ghost use Rattle.rv_expect.specs.Judgement.{judge_by_rule};
    ghost use Rattle.rv_expect.specs.declared.rule.Rule.TheVariants.{Strict};

    ghost accepted_before = { None };

    ghost failure_count = { 0 };

    ghost max_failures = { None };

    ghost judge = { judge_by_rule Strict };

    ghost has_sink = { false };

    ghost keeps_failure_texts = { false };

    ghost row_text = { λ _ _. [] };
}
