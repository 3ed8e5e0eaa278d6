//! The blocks of a source as choreographies.

ghost use Rattle.std.specs.Prelude.{◌≡◌, List};
ghost use Rattle.chor_tree.specs.declared.tree.Node.{Node};
ghost use Rattle.chor_tree.specs.declared.tree.NodeId.{NodeId};
ghost use Rattle.chor_tree.specs.Source.{block_in, blocks_of};
ghost use Rattle.chor_semantics.specs.Sources.{tree_in, trees_of};
ghost use Rattle.chor_semantics.specs.Blocks.{choreography_of};

/// The choreography that stands at a node of a table is that of the block which begins there.
pub fn blocks_are_choreographies()
    ensures { (nodes : List Node) (id : NodeId) → choreography_of (block_in (blocks_of nodes) id) ≡ tree_in (trees_of nodes) id }
{}
