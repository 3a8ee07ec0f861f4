// Lists of edges.
ghost use Rattle.std.specs.Prelude.{◌≡◌, ◌<◌, IfOk, Some, length, slice_get};

use cell_base::Memory;
use graph_base::Edge;
use std::alloc::Global;

/// A copy of the edges.
pub fn copy_edges(alloc: Global, edges: &[Edge]) -> Result<Vec<Edge>, Memory>
    ensures { IfOk result (λ copy. copy.items ≡ edges.now) }
{
    Ok(edges.iter().copied().collect(alloc)?)
}

/// The edge at the place.
pub fn edge_at(edges: &[Edge], place: usize) -> Edge
    requires { place < length edges.now }
    ensures { slice_get edges.now place ≡ Some result }
{
    edges[place]
}
