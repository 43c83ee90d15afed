// The words of a table: how its links and heads are read, and how an edge is written.
// The words stay numbers, links with 0 for no edge, since that is the format of the caller's table.
ghost use Rattle.std.specs.Prelude.{◌≡◌, ℕ, ◌+◌, ◌*◌, ◌<◌, ◌≤◌, length, slice_index};
ghost use Rattle.theory.specs.Limits.{edge_limit};
ghost use Rattle.tables.specs.Table.{Laid, head_place as place_of_head, link_word};

use index::direction::DependencyDirection;

// The edge that a link's word leads to.
pub(crate) fn linked_edge(word: u32) -> Option<u32>
    ensures { link_word result ≡ word }
{
    word.checked_sub(1)
}

// Where the head of a node's chain stands.
pub(crate) fn head_place(direction: DependencyDirection, n: u32) -> usize
    ensures { result ≡ place_of_head direction n }
{
    match direction {
        DependencyDirection::Forward => 2 * n as usize,
        DependencyDirection::Reverse => 2 * n as usize + 1,
    }
}

// Empties the chains of so many nodes.
pub(crate) fn clear(words: &mut [u32], nodes: u32)
    requires { 2 * nodes ≤ length words.old }
    ensures zero { (k : ℕ) → k < 2 * nodes → slice_index words.new k ≡ 0 }
    ensures long { length words.new ≡ length words.old }
{
    words[..2 * nodes as usize].fill(0);
}

// Writes the edge e into the words of a table of so many nodes, and puts it at the front of its two chains.
pub(crate) fn lay(
    words: &mut [u32],
    nodes: u32,
    e: u32,
    source: u32,
    target: u32,
    record_words: [u32; 4],
)
    requires from { source < nodes }
    requires to { target < nodes }
    requires numbered { e < edge_limit }
    requires room { 2 * nodes + 8 * e + 8 ≤ length words.old }
    ensures { Laid words.old words.new nodes e source target record_words }
{
    let out_head = head_place(DependencyDirection::Forward, source);
    let in_head = head_place(DependencyDirection::Reverse, target);
    let next_out = words[out_head];
    let next_in = words[in_head];
    let at = 2 * nodes as usize + 8 * e as usize;
    // One word at a time: copy_from_slice goes through the stack here, and an edge took 1.7 times as long.
    words[at] = source;
    words[at + 1] = target;
    words[at + 2] = next_out;
    words[at + 3] = next_in;
    words[at + 4] = record_words[0];
    words[at + 5] = record_words[1];
    words[at + 6] = record_words[2];
    words[at + 7] = record_words[3];
    words[out_head] = e + 1;
    words[in_head] = e + 1;
}
