// A filter over feature edges: an edge behind a weak slash waits on the release node of its index. `table` has the filter's
// fields, `edge_filter` what it makes of edges and nodes, `releases` the indexes that a node releases, `weak_buffers` the
// states of the indexes.
#![tactic(auto)]

pub mod edge_filter;
pub(crate) mod releases;
pub mod table;
pub(crate) mod weak_buffers;
