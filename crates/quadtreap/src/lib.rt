//! The tree of a map of readings: its definition, six theorems, and the laws that tables and maps are proved by. Definitions and theorems, and the rank of a reading.
#![tactic(auto)]

ghost use Rattle.quadtreap.specs.Theorems.{LayoutIsInsertion, NodeCount, EnterGivesTree, StrikeGivesTree, CountsEachOnce, EffortIsBounded, SameReadings, SameSet};
ghost use Rattle.quadtreap.specs.Laws.{StaysPaired, Kept, Settled, Risen, GoesOn, IsDone, Relabels, StaysRanked, SortsByRank, Finds, Carried, Totals, StepByStep, SameTests};

mod rank;

pub use rank::{Rank, UNRANKED};

/// The direct description of the tree is the tree of insertion, and n readings make 4n - 3 nodes.
pub fn tree_is_described<K>()
    ensures layout { LayoutIsInsertion K }
    ensures nodes { NodeCount K }
{}

/// Entering gives the tree of the readings with the new one at its rank.
pub fn enter_gives_tree<K>()
    ensures value { EnterGivesTree K }
{}

/// Striking gives the tree of the readings without the one that is struck.
pub fn strike_gives_tree<K>()
    ensures value { StrikeGivesTree K }
{}

/// A walk joins a selection of the readings, each once.
pub fn walk_counts_each_once<K>()
    ensures counts_each_once { CountsEachOnce K }
{}

/// A walk expands at most as many nodes as the height times the number of boxes that cross.
pub fn effort_is_bounded<K>()
    ensures effort { EffortIsBounded K }
{}

/// The same readings have the same tree, the same walks and the same height.
pub fn same_readings_same_tree<K>()
    ensures same_readings { SameReadings K }
    ensures same_set { SameSet K }
{}

/// Trees are made of pairs, their readings lie in their cells, and they find the readings by their codes.
pub fn trees_keep_their_form<K>()
    ensures paired { StaysPaired K }
    ensures cells { Kept K }
    ensures finds { Finds K }
{}

/// Entering and striking go by steps, each at one pair.
pub fn moves_go_by_steps<K>()
    ensures settled { Settled K }
    ensures risen { Risen K }
    ensures onward { GoesOn K }
    ensures finished { IsDone K }
    ensures relabels { Relabels K }
{}

/// Lists stay in rank order, and are brought into it.
pub fn lists_stay_ranked<K>()
    ensures stays { StaysRanked K }
    ensures sorts { SortsByRank K }
{}

/// The tally of a node is that of the readings under it, a walk goes by steps, and only its tests at boxes and codes of the tree count.
pub fn walks_go_by_steps<K>()
    ensures totals { Totals K }
    ensures steps { StepByStep K }
    ensures tests { SameTests K }
{}

/// Other tallies leave the tree as it is.
pub fn tallies_leave_the_tree<K, M>()
    ensures carried { Carried K M }
{}
