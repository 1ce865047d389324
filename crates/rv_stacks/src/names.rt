//! The names of the nodes' functions.

ghost use Rattle.std.specs.Prelude.{◌≡◌, ◌∷◌, ◌++◌, ◌+◌, ◌≤◌, [], IfOk, IsPermutation, List, OnOk, true};
ghost use Rattle.std.specs.List.{AllByRecursion};
ghost use Rattle.std.specs.List.Sorted.{IsNonDecreasingBy};
ghost use Rattle.std.specs.Str.{IsUtf8};
ghost use Rattle.rv_count_tables.specs.Lines.{lacks};
ghost use Rattle.rv_counting.specs.SymbolSearch.{symbol_at};
ghost use Rattle.rv_count_tables.specs.declared_call_node.CallNode.{CallNode as ACallNode};
ghost use Rattle.rv_count_tables.specs.Sums.{FitsFields};
ghost use Rattle.rv_stacks.specs.StackTables.{name_in_file, name_of_function, symbol_name, AreNamedUpTo, AreNamesBy};

use crate::functions::LAST_ADDRESS;
use rv_count_tables::{CallNode, FunctionName, FunctionNames, Text};
use rv_counting::{CodeSymbols, shown_text};
use std::alloc::{AllocError, Global};

/// Returns the names of the functions in which the paths of the nodes end, each function once. Needs a symbol lookup for each function, a
/// sort of the nodes, and memory for a copy of them.
pub(crate) fn names_of_functions(
    alloc: Global,
    symbols: &CodeSymbols<'_>,
    nodes: &[CallNode],
) -> Result<FunctionNames, AllocError>
    ensures names { IfOk result (AreNamesBy (name_of_function symbols.now.image.now symbols.now.bytes.now) nodes.now) }
    ensures fits { IfOk result (λ _. AllByRecursion FitsFields nodes.now) }
{
    let sorted = by_function(alloc, nodes)?;
    names_in_order(alloc, symbols, sorted.as_slice())
}

// Returns a copy of the nodes, sorted by function.
fn by_function(alloc: Global, nodes: &[CallNode]) -> Result<Vec<CallNode>, AllocError>
    ensures permutation { IfOk result (λ sorted. IsPermutation nodes.now sorted.items) }
    ensures sorted { IfOk result (λ sorted. IsNonDecreasingBy (λ s. s.function) sorted.items) }
{
    let mut sorted = Vec::new(alloc);
    for node in nodes {
        sorted.push(*node)?;
    }
    sorted.sort_unstable_by_key(|node| node.function);
    Ok(sorted)
}

// Returns the names of the functions of nodes that are sorted by function.
fn names_in_order(
    alloc: Global,
    symbols: &CodeSymbols<'_>,
    nodes: &[CallNode],
) -> Result<FunctionNames, AllocError>
    requires { IsNonDecreasingBy (λ s. s.function) nodes.now }
    ensures names { IfOk result (AreNamesBy (name_of_function symbols.now.image.now symbols.now.bytes.now) nodes.now) }
    ensures fits { IfOk result (λ _. AllByRecursion FitsFields nodes.now) }
{
    let mut names = Vec::new(alloc);
    let mut first_unnamed = 0;
    for node in nodes {
        name_function_of(alloc, symbols, &mut names, first_unnamed, *node)?;
        first_unnamed = node.function as u64 + 1;
    }
    Ok(FunctionNames::new(names))
}

// Appends the name of a node's function, unless the function is below `first_unnamed`: the functions below it have their names already.
fn name_function_of(
    alloc: Global,
    symbols: &CodeSymbols<'_>,
    names: &mut Vec<FunctionName>,
    first_unnamed: u64,
    node: CallNode,
) -> Result<(), AllocError>
    ensures names { (nodes : List ACallNode)
        → AreNamedUpTo (name_of_function symbols.now.image.now symbols.now.bytes.now) nodes first_unnamed names.old.items
        → first_unnamed ≤ node.function + 1
        → OnOk result (AreNamedUpTo (name_of_function symbols.now.image.now symbols.now.bytes.now) (nodes ++ node ∷ [])
        (node.function + 1) names.new.items) }
    ensures fits { FitsFields node }
{
    let is_named = (node.function as u64) < first_unnamed;
    if is_named {
        return Ok(());
    }
    let name = shown_name(alloc, symbols, node.function)?;
    names.push(FunctionName {
        function: node.function,
        name,
    })?;
    Ok(())
}

// Returns the name of a function as a table holds it: printable, without line feeds.
#[tactic(auto, unfolding(crate::specs::StackTables::name_of_function))]
fn shown_name(alloc: Global, symbols: &CodeSymbols<'_>, function: u32) -> Result<Text, AllocError>
    ensures value { IfOk result (λ text. text ≡ name_of_function symbols.now.image.now symbols.now.bytes.now function) }
    ensures text { IfOk result IsUtf8 }
    ensures line { IfOk result (λ text. lacks 10 text ≡ true) }
{
    shown_text(alloc, symbol_name(symbols, function))
}

// Returns the name of the symbol at a function's address; `?` if there is no symbol or the function is the last address.
fn symbol_name<'a>(symbols: &CodeSymbols<'a>, function: u32) -> &'a [u8]
    ensures { result.now ≡ name_in_file symbols.now.image.now symbols.now.bytes.now function }
{
    if function == LAST_ADDRESS {
        return b"?";
    }
    match symbols.symbol_at(function) {
        Some(symbol) => symbol.name,
        None => b"?",
    }
}
