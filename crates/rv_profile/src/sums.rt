//! The totals of a call tree.

ghost use Rattle.std.specs.Prelude.{◌≡◌};
ghost use Rattle.rv_profile.specs.ImageStacks.{if_fitting, sums_of, with_node};

use rv_count_tables::CallNode;

/// The number of instructions executed in all nodes, and how often runs entered them.
#[derive(Clone, Copy)]
pub(crate) struct Sums {
    pub(crate) steps: u64,
    pub(crate) calls: u64,
}

impl Sums {
    // Returns the totals with the counts of one more node added, or `None` if one of them would not fit in 64 bits.
    fn with_node(self, node: CallNode) -> Option<Sums>
        ensures { result ≡ if_fitting (with_node self node) }
    {
        Some(Sums {
            steps: self.steps.checked_add(node.steps)?,
            calls: self.calls.checked_add(node.calls)?,
        })
    }
}

/// Returns the totals of all nodes, or `None` if one of them does not fit in 64 bits.
pub(crate) fn sums_of(nodes: &[CallNode]) -> Option<Sums>
    ensures { result ≡ if_fitting (sums_of nodes.now) }
{
    let mut sums = Sums { steps: 0, calls: 0 };
    for node in nodes {
        sums = sums.with_node(*node)?;
    }
    Some(sums)
}
