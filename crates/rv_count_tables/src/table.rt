//! The table of counts.

use rv_call_tree::{Bytes, CallNode, CallNodes, Sequence, Text};

/// The counts of one image's addresses; contracts see them as a list.
pub type Addresses = Sequence<AddressCounts>;

/// The names of one image's functions; contracts see them as a list.
pub type FunctionNames = Sequence<FunctionName>;

/// Images with their counts; contracts see them as a list.
pub type Images = Sequence<ImageCounts>;

/// The 32 bytes of the SHA-256 digest of an image's file.
pub type Digest = Bytes;

/// The counts of the instruction at one address.
#[derive(Clone, Copy, Debug, PartialEq, Eq)]
pub struct AddressCounts {
    /// The pc, which is even.
    pub address: u32,
    /// How often the instruction was executed, at least once.
    pub executed: u64,
    /// How often it was a conditional branch that completed and did not continue at the next address.
    pub taken: u64,
}

/// The name of the function at an address.
#[derive(Debug, Drop)]
pub struct FunctionName {
    pub function: u32,
    /// The name, without line feeds.
    pub name: Text,
}

/// A call-tree node with the name of its function, as in a line of the text.
#[derive(Debug, Drop)]
pub struct NamedCallNode {
    pub node: CallNode,
    pub name: Text,
}

/// The counts of one image.
#[derive(Debug, Drop)]
pub struct ImageCounts {
    /// The digest of the image's file.
    pub digest: Digest,
    /// The path by which lists name the image, or the first in byte order if there are several. It has no line feed.
    pub path: Text,
    /// The counts, sorted by address.
    pub addresses: Addresses,
    /// The names of the functions in which the nodes' paths end, each function once, sorted by address.
    pub functions: FunctionNames,
    /// The call tree; empty if call paths were not counted.
    pub nodes: CallNodes,
}

/// The counts of some runs: for each image, how often each instruction was executed and, if call paths were counted, its call tree.
#[derive(Debug, Drop)]
pub struct CountTable {
    /// The images, each once, sorted by digest in byte order.
    pub images: Images,
    /// The number of counted jobs; a refused job does not count.
    pub runs: u64,
}
