//! Parses the lines of call-tree nodes as far as they are valid. Each line is checked as in `read_lines`: its values are formatted again.

ghost use Rattle.std.specs.Prelude.{◌≡◌, ◌≤◌, ◌<◌, ◌^◌, ℕ, List, IfOk, IfSome, IfNone, IsTrue, ◌↔◌};
ghost use Rattle.std.specs.Str.{bytes_eq, IsUtf8};
ghost use Rattle.rv_count_tables.specs.declared.table.NamedCallNode.{NamedCallNode as NamedNode};
ghost use Rattle.rv_count_tables.specs.Lines.{whole_line};
ghost use Rattle.rv_count_tables.specs.ReadSteps.{function_name, AgreesWithName, AreParsedNodes, IsNotANode};
ghost use Rattle.rv_count_tables.specs.Table.{name_of, IsValidNamedNode, IsValidNode};
ghost use Rattle.rv_count_tables.specs.Text.{node_line};
ghost use Rattle.rv_call_tree.specs.Trees.{MayFollow};

use crate::line_parts::{
    decimal_number, hex_word, leading_bytes, text_after_byte, text_before_byte, whole_line,
};
use crate::names_by_function::NamesByFunction;
use crate::push_item::push_item;
use crate::table::{FunctionName, FunctionNames, NamedCallNode};
use crate::text::push_node_line;
use rv_call_tree::{CallNode, CallNodes, Text};
use rv_text::tail_from;
use std::alloc::{AllocError, Global};

/// Parsed nodes, the names of their functions, and the length of their lines in bytes.
#[derive(Drop)]
pub(crate) struct ParsedNodes {
    pub(crate) nodes: CallNodes,
    pub(crate) functions: FunctionNames,
    pub(crate) length: usize,
}

/// Parses the lines of call-tree nodes at the start of a text, up to the first line that is not a line of a node that may follow.
pub(crate) fn read_nodes(alloc: Global, text: &[u8]) -> Result<ParsedNodes, AllocError>
    ensures { IfOk result (λ parsed. AreParsedNodes text.now parsed) }
{
    let mut nodes = Vec::new(alloc);
    let mut names = NamesByFunction::new(alloc);
    let mut path = Vec::new(alloc);
    let mut length = 0;
    'lines: loop {
        let line = whole_line(tail_from(text, length));
        match next_node(alloc, line, path.as_slice(), &names)? {
            Some(parsed) => {
                length += line.len();
                path.truncate(parsed.node.depth);
                push_item(&mut path, parsed.node.function)?;
                push_item(&mut nodes, parsed.node)?;
                names.add(function_name(parsed))?;
            }
            None => {
                return Ok(ParsedNodes {
                    nodes: CallNodes::new(nodes),
                    functions: names.into_names(alloc)?,
                    length,
                });
            }
        }
    }
}

// Returns the function of a node, with its name.
fn function_name(named: NamedCallNode) -> FunctionName
    ensures { result ≡ function_name named }
{
    FunctionName {
        function: named.node.function,
        name: named.name,
    }
}

// Returns the node of a line. Returns `None` if the line is not the line of a node that may follow a node with the path `previous_path`, or
// if its name differs from the one in `names`.
fn next_node(
    alloc: Global,
    line: &[u8],
    previous_path: &[u32],
    names: &NamesByFunction,
) -> Result<Option<NamedCallNode>, AllocError>
    ensures node { (text : List ℕ) → line.now ≡ whole_line text → IfOk result (λ parsed. IfSome parsed IsValidNamedNode) }
    ensures preorder { IfOk result (λ parsed. IfSome parsed (λ n. MayFollow previous_path.now n.node)) }
    ensures name { IfOk result (λ parsed. IfSome parsed (λ n. AgreesWithName n.name (name_of n.node.function names.now))) }
    ensures line { IfOk result (λ parsed. IfSome parsed (λ n. line.now ≡ node_line n)) }
    ensures none { IfOk result (λ parsed. IfNone parsed (IsNotANode names.now previous_path.now line.now)) }
{
    let read = node_of_line(alloc, line)?;
    if can_come_next(read.node, previous_path)
        && agrees_with_earlier_name(&read, names)
        && has_node_line(alloc, &read, line)?
    {
        Ok(Some(read))
    } else {
        Ok(None)
    }
}

// Whether a table can have this node directly after a node with the path `previous_path`.
fn can_come_next(node: CallNode, previous_path: &[u32]) -> bool
    ensures { IsTrue result ↔ (IsValidNode node × MayFollow previous_path.now node) }
{
    0 < node.calls
        && node.depth <= previous_path.len()
        && (node.depth == previous_path.len() || previous_path[node.depth] < node.function)
}

// Whether the node's name equals the name of its function in `names`, or `names` has none for it.
fn agrees_with_earlier_name(parsed: &NamedCallNode, names: &NamesByFunction) -> bool
    ensures { IsTrue result ↔ AgreesWithName parsed.now.name (name_of parsed.now.node.function names.now) }
{
    match names.find(parsed.node.function) {
        Some(name) => name == parsed.name.as_str(),
        None => true,
    }
}

// Returns the node of a line `spot DEPTH FUNCTION CALLS STEPS NAME`. For any other line, the result is arbitrary.
fn node_of_line(alloc: Global, line: &[u8]) -> Result<NamedCallNode, AllocError>
    ensures node { (n : NamedNode) → IsValidNamedNode n → line.now ≡ node_line n → IfOk result (λ parsed. parsed.node ≡ n.node) }
    ensures name { (n : NamedNode) → IsValidNamedNode n → line.now ≡ node_line n → IfOk result (λ parsed. parsed.name ≡ n.name) }
    ensures text { IfOk result (λ parsed. IsUtf8 parsed.name) }
{
    let fields = tail_from(line, 5);
    let function = text_after_byte(b' ', fields);
    let numbers = tail_from(function, 9);
    let later_numbers = text_after_byte(b' ', numbers);
    let name = String::from_utf8_lossy(
        alloc,
        text_before_byte(b'\n', text_after_byte(b' ', later_numbers)),
    )?;
    Ok(NamedCallNode {
        node: CallNode {
            depth: decimal_number(text_before_byte(b' ', fields)) as usize,
            function: hex_word(leading_bytes(function, 8)),
            calls: decimal_number(text_before_byte(b' ', numbers)),
            steps: decimal_number(text_before_byte(b' ', later_numbers)),
        },
        name: Text::new(name),
    })
}

// Whether `line` is the text of this node's line.
fn has_node_line(alloc: Global, parsed: &NamedCallNode, line: &[u8]) -> Result<bool, AllocError>
    ensures { IfOk result (λ is_equal. is_equal ≡ bytes_eq line.now (node_line parsed.now)) }
{
    let mut text = String::new(alloc);
    push_node_line(alloc, &mut text, parsed.node, parsed.name.as_str())?;
    Ok(line == text.as_bytes())
}
