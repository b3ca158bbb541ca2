//! The laws of maps, each promised by a function that does nothing.
ghost use Rattle.theory.specs.Laws as law;
ghost use Rattle.theory.specs.HealingLaws as removing;
ghost use Rattle.theory.specs.ValidityLaws as validity;

/// Two chains that have one segment are one chain, or each is the other's reverse.
#[tactic(auto, using(crate::proofs::ProvedLaws::one_chain_through_a_segment))]
pub fn one_chain_through_a_segment<V>()
    ensures { law.OneChainThroughASegment V }
{}

/// No segment occurs twice in a chain.
#[tactic(auto, using(crate::proofs::ProvedLaws::no_segment_twice))]
pub fn no_segment_twice<V>()
    ensures { law.NoSegmentTwice V }
{}

/// No chain is its own reverse.
#[tactic(auto, using(crate::proofs::ProvedLaws::not_its_reverse))]
pub fn not_its_reverse<V>()
    ensures { law.NotItsReverse V }
{}

/// The reverse of a chain is a chain.
#[tactic(auto, using(crate::proofs::ProvedLaws::reverse_is_a_chain))]
pub fn reverse_is_a_chain<V>()
    ensures { law.ReverseIsAChain V }
{}

/// Chains that have all segments among them are all chains, up to direction.
pub fn covering_chains_are_all<V>()
    ensures { law.CoveringChainsAreAll V }
{}

/// At most one list of chains stitches to a list.
pub fn one_list_of_chains<V>()
    ensures { law.OneListOfChains V }
{}

/// Walks from stops, and then round what is left, find all chains.
#[tactic(auto, using(crate::proofs::ProvedLaws::walks_find_all_chains))]
pub fn walks_find_all_chains<V>()
    ensures { law.WalksFindAllChains V }
{}

/// Such walks can always be taken to their end.
pub fn walks_end<V>()
    ensures { law.WalksEnd V }
{}

/// The segments and the junctions of a map are such segments and stops, and have the chains of the map.
#[tactic(auto, using(crate::proofs::ProvedLaws::map_is_a_network))]
pub fn map_is_a_network<V>()
    ensures { law.MapIsANetwork V }
{}

/// A vertex is a junction exactly where it is an end of a line or lies on three or more segments.
pub fn junction_by_segments<V>()
    ensures { law.JunctionBySegments V }
{}

/// A vertex that one line or ring visits again is a junction.
#[tactic(auto, using(crate::proofs::ProvedLaws::visited_again_is_a_junction))]
pub fn visited_again_is_a_junction<V>()
    ensures { law.VisitedAgainIsAJunction V }
{}

/// Each other vertex of a segment lies on exactly two segments.
pub fn others_on_two_segments<V>()
    ensures { law.OthersOnTwoSegments V }
{}

/// A line, cut at its junctions: chains that stitch to it.
#[tactic(auto, using(crate::proofs::ProvedLaws::pieces_of_a_line))]
pub fn pieces_of_a_line<V>()
    ensures { law.PiecesOfALine V }
{}

/// A ring, turned to its seam and cut at its junctions: chains that stitch to it.
pub fn pieces_of_a_ring<V>()
    ensures { law.PiecesOfARing V }
{}

/// What stitches to a list has its segments, all and no others.
pub fn pieces_cover<V>()
    ensures { law.PiecesCover V }
{}

/// A ring without a junction is one free loop, turned to its least vertex.
pub fn one_free_loop<V>()
    ensures { law.OneFreeLoop V }
{}

/// The list of a ring does not depend on where its data begins.
pub fn ring_from_any_place<V>()
    ensures { law.RingFromAnyPlace V }
{}

/// Of the rotations of a ring that begin at one vertex, that with the least second vertex is the least.
#[tactic(auto, using(crate::proofs::ProvedLaws::least_second_vertex))]
pub fn least_second_vertex<V>()
    ensures { law.LeastSecondVertex V }
{}

/// The pieces of all lines and rings, in least direction, sorted, each once, are the arcs of the map.
pub fn pieces_are_the_arcs<V>()
    ensures { law.PiecesAreTheArcs V }
{}

/// `arcs_of` has the arcs of the map, and no other list has them.
#[tactic(auto, using(crate::proofs::ProvedLaws::arcs_of_a_map))]
pub fn arcs_of_a_map<V>()
    ensures { law.ArcsOfAMap V }
{}

/// Each segment of the map is at one place of one arc, and arcs have no other segment.
#[tactic(auto, using(crate::proofs::ProvedLaws::each_segment_once))]
pub fn each_segment_once<V>()
    ensures { law.SegmentsOnce V }
{}

/// At most one list of arc numbers stitches to a list.
#[tactic(auto, using(crate::proofs::ProvedLaws::one_list_of_numbers))]
pub fn one_list_of_numbers<V>()
    ensures { law.OneListOfNumbers V }
{}

/// At most one list of arc numbers stitches to a ring, read from its seam.
pub fn one_list_of_a_ring<V>()
    ensures { law.OneListOfARing V }
{}

/// Of the used arcs of a ring, turned in any way, the ring's list begins at that which starts least.
pub fn ring_begins_at_least_start<V>()
    ensures { law.RingBeginsAtLeastStart V }
{}

/// At most one topology is that of a map on a grid.
pub fn one_topology<V, I, G, B>()
    ensures { law.OneTopology V I G B }
{}

/// `topology_of` is the topology of the map.
pub fn topology_of_a_map<V, I, G, B>()
    ensures { law.TopologyOfAMap V I G B }
{}

/// The features that have a segment are those whose geometries use its arc.
pub fn users_of_an_arc<V>()
    ensures { law.UsersOfAnArc V }
{}

/// Two features of a map share a segment exactly where their geometries share an arc.
pub fn shared_segment_is_a_shared_arc<V>()
    ensures { law.SharedSegmentIsASharedArc V }
{}

/// Junctions only grow.
pub fn junctions_only_grow<V>()
    ensures { law.JunctionsOnlyGrow V }
{}

/// Each old arc has one list of pieces: what `recut` gives.
#[tactic(auto, using(crate::proofs::ProvedLaws::one_list_of_pieces))]
pub fn one_list_of_pieces<V>()
    ensures { law.OneListOfPieces V }
{}

/// Each arc of the union is a piece of an old arc.
pub fn arcs_of_a_union_are_pieces<V>()
    ensures { law.ArcsOfAUnionArePieces V }
{}

/// A piece is one of one arc of a map, at one place, and has only its segments; a line's and a ring's replaced list is that of u.
#[tactic(auto, using(crate::proofs::ProvedLaws::pieces_in_place))]
pub fn pieces_in_place<V>()
    ensures { law.PiecesInPlace V }
{}

/// The list of a ring: its pieces in place of each old arc, turned to begin where it starts least.
pub fn ring_replaced_and_turned<V>()
    ensures { law.RingReplacedAndTurned V }
{}

/// The geometry of a feature after its arcs are cut again is its geometry in the finer map.
pub fn body_after_a_recut<V>()
    ensures { law.BodyAfterARecut V }
{}

/// The arcs of both maps, taken as lines and rings, have the segments and the junctions of the union.
#[tactic(auto, using(crate::proofs::ProvedLaws::union_known_from_arcs))]
pub fn union_known_from_arcs<V>()
    ensures { law.UnionKnownFromArcs V }
{}

/// What is left of a map u: of each old arc all segments stay, or none.
pub fn pieces_of_what_is_left<V>()
    ensures { law.PiecesOfWhatIsLeft V }
{}

// What is left of a map when features are removed.

/// The arcs that the lists left use determine which segments are left, and which of their ends are junctions.
#[tactic(auto, using(crate::proofs::HealingProved::kept_arcs_tell))]
pub fn kept_arcs_tell<V>()
    ensures { removing.KeptArcsTell V }
{}

/// Where a kept arc begins at no junction, exactly one other end of a kept arc meets it.
#[tactic(auto, using(crate::proofs::HealingProved::two_ends_meet))]
pub fn two_ends_meet<V>()
    ensures { removing.TwoEndsMeet V }
{}

/// Kept arcs joined end to end are exactly the arcs of what is left, and the kept arcs are their pieces.
pub fn joined_arcs_are_the_arcs<V>()
    ensures { removing.JoinedArcsAreTheArcs V }
{}

/// Arcs of what is left that are known already have as pieces the kept arcs that stitch to them.
#[tactic(auto, using(crate::proofs::HealingProved::arcs_that_are_cut))]
pub fn arcs_that_are_cut<V>()
    ensures { removing.ArcsThatAreCut V }
{}

/// What begins with which kept arc can be noted, and new lists are read off the old ones by it.
pub fn new_lists_along_old_ones<V>()
    ensures { removing.NewListsAlongOldOnes V }
{}

/// The marked features of a map are a part of it, and the geometries marked alike are theirs.
pub fn marked_features_are_a_part<V, I>()
    ensures { removing.MarkedFeaturesAreAPart V I }
{}

/// The geometries that are left determine which arcs are kept, and where their lines end.
pub fn kept_by_geometries<V, I>()
    ensures { removing.KeptByGeometries V I }
{}

/// The arcs joined, and the lists read off along them, are the topology of what is left.
pub fn topology_of_what_is_left<V, I, G, B>()
    ensures { removing.TopologyOfWhatIsLeft V I G B }
{}

// Arcs, lists and topologies that stand as a text has them.

/// Arcs of which no vertex inside one is at another place are valid.
#[tactic(auto, using(crate::proofs::ValidityProved::noded_arcs_are_valid))]
pub fn noded_arcs_are_valid<V>()
    ensures { validity.NodedArcsAreValid V }
{}

/// Valid arcs are the arcs of the map that they make: no segment is in two of them, or twice in one.
pub fn valid_arcs_are_the_maps<V>()
    ensures { validity.ValidArcsAreTheMaps V }
{}

/// What a list stitches to that uses no arc twice is a line, or, closed, a ring.
#[tactic(auto, using(crate::proofs::ValidityProved::valid_lists_are_lines_or_rings))]
pub fn valid_lists_are_lines_or_rings<V>()
    ensures { validity.ValidListsAreLinesOrRings V }
{}

/// Arcs that are valid for a map are its arcs.
pub fn arcs_valid_for_a_map_are_its<V>()
    ensures { validity.ArcsValidForAMapAreIts V }
{}

/// A ring's list, turned to begin where it starts least, is the one that the topology has.
#[tactic(auto, using(crate::proofs::ValidityProved::valid_ring_lists_are_the_maps))]
pub fn valid_ring_lists_are_the_maps<V>()
    ensures { validity.ValidRingListsAreTheMaps V }
{}

/// A topology that is valid for a map is that of the map.
pub fn topology_valid_for_a_map_is_its<V, I, G, B>()
    ensures { validity.TopologyValidForAMapIsIts V I G B }
{}

/// And the topology of each map is valid for it.
#[tactic(auto, using(crate::proofs::ValidityProved::topology_of_a_map_is_valid))]
pub fn topology_of_a_map_is_valid<V, I, G, B>()
    ensures { validity.TopologyOfAMapIsValid V I G B }
{}
