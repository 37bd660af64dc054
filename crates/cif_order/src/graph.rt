//! The needs of a node.

ghost use Rattle.std.specs.Prelude.{◌≡◌, ◌<◌, length};
ghost use Rattle.cif_order.specs.Graph.{needs_of};

use cif_base::Items;

pub fn needs_at(needs: &[Items<u32>], node: u32) -> &[u32]
    requires { node < length needs.now }
    ensures { result.now ≡ needs_of needs.now node }
{
    needs[node as usize].as_slice()
}
