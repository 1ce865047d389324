//! The table of one job of a plan, with its call tree.

ghost use Rattle.std.specs.Prelude.{◌<◌, ◌∷◌, [], IfOk, length};
ghost use Rattle.rv_count_tables.specs.Table.{AreValidCounts};
ghost use Rattle.rv_count_tables.specs.Trees.{HasCalls, IsTree};
ghost use Rattle.rv_stacks.specs.StackTables.{name_of_function, IsTableOfRun, IsTableWithStacks};

use crate::job::count_job_with_stacks;
use crate::names::names_of_functions;
use rv_count_tables::{Addresses, CallNodes, CountTable, ImageCounts};
use rv_counting::{
    CodeSymbols, JobImage, Plan, digest_of, empty_table, image_bytes, image_of_bytes,
    images_of_one, shown_text,
};
use std::alloc::{AllocError, Global};

/// Runs the job at an index once more, and returns its table: the counts and the call tree of its run. For a refused job, the table is
/// empty.
pub(crate) fn stack_table_of_job(
    alloc: Global,
    plan: &Plan,
    index: usize,
) -> Result<CountTable, AllocError>
    requires { index < length plan.now.jobs }
    ensures { IfOk result (IsTableWithStacks plan.now (index ∷ [])) }
{
    let job = plan.job(index);
    let Some(bytes) = image_bytes(plan, index) else {
        return Ok(empty_table(alloc));
    };
    let Some(image) = image_of_bytes(alloc, job.isa, bytes)? else {
        return Ok(empty_table(alloc));
    };
    let symbols = CodeSymbols::new(alloc, &image, bytes)?;
    let job_image = JobImage {
        plan,
        index,
        image: &image,
    };
    match count_job_with_stacks(alloc, &job_image, &symbols)? {
        Some((addresses, nodes)) => {
            table_of_run(alloc, job.image.as_str(), &symbols, addresses, nodes)
        }
        None => Ok(empty_table(alloc)),
    }
}

// Returns the table of one run of the image with this path: its counts, its call tree and the names of the tree's functions.
fn table_of_run(
    alloc: Global,
    path: &str,
    symbols: &CodeSymbols<'_>,
    addresses: Addresses,
    nodes: CallNodes,
) -> Result<CountTable, AllocError>
    requires counts { AreValidCounts addresses }
    requires tree { IsTree nodes }
    requires has_calls { HasCalls nodes }
    ensures { IfOk result (IsTableOfRun (name_of_function symbols.now.image.now symbols.now.bytes.now) path.now
        symbols.now.bytes.now addresses nodes) }
{
    let functions = names_of_functions(alloc, symbols, nodes.as_slice())?;
    let digest = digest_of(alloc, symbols.bytes)?;
    let path = shown_text(alloc, path.as_bytes())?;
    let images = images_of_one(
        alloc,
        ImageCounts {
            digest,
            path,
            addresses,
            functions,
            nodes,
        },
    )?;
    Ok(CountTable { images, runs: 1 })
}
