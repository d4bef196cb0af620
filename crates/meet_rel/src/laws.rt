//! Laws of relations: two segments have one at most, and exact images keep that of two pieces.

ghost use Rattle.meet_rel.specs.Laws.{RelationsAreExclusive, PiecesKeepRelations};

/// A law: two segments have one relation at most. `relation_exists` of topo_check says that they have one.
pub fn relations_are_exclusive()
    ensures { RelationsAreExclusive }
{}

/// A law: two pieces, in one triangle of a sound triangulation or in two, have the relation that their exact images
/// have. So the relation of two pieces in the source frame is also that of their images before rounding.
pub fn pieces_keep_relations()
    ensures { PiecesKeepRelations }
{}
