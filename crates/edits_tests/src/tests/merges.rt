//! Merging of texts and shards by plans: answers, faults in their order, and deep plans.
use crate::tests::inputs::{GROUPINGS, ON_SCALE_TWO, grouped, plan_of};
use faults::{Fault, FaultKind};
use grid::transform::Grid;
use refine::fault::{MergeFault, PlanFault};
use refine::merge::{merge_borrowed_topologies, merge_texts, merge_topologies};
use refine::shard::Shard;
use refine::whole::Whole;
use refine::{Plan, run_plan};
use refused_calls::texts::{EMPTY, ENDS, FIRST, SECOND, THIRD, THREE};
use shapes::feature_map::FeatureMap;
use std::alloc::Global;
use std::process::Abort;
use std::test::Fail;
use topo::Topology;
use worked_maps::boxed;

/// The bytes of texts.
pub(crate) fn texts(alloc: Global, list: &[&str]) -> Result<Vec<Vec<u8>>, Fail> {
    let mut made = Vec::new(alloc);
    for text in list {
        made.push(text.as_bytes().to_vec(alloc)?)?;
    }
    Ok(made)
}

/// The bytes of texts, where they lie.
fn borrow_bytes<'a>(alloc: Global, list: &[&'a str]) -> Result<Vec<&'a [u8]>, Fail> {
    let mut borrowed = Vec::new(alloc);
    for text in list {
        borrowed.push(text.as_bytes())?;
    }
    Ok(borrowed)
}

/// Merges the texts that a plan names, and compares the merged text.
fn check_merged(
    rt: &impl Abort,
    alloc: Global,
    list: &[&str],
    plan: &Plan,
    merged: &str,
) -> Result<(), Fail> {
    let text = merge_texts(alloc, &texts(alloc, list)?, plan)?;
    assert!(rt; text.as_slice() == merged.as_bytes(), "{merged}");
    Ok(())
}

fn text_of(alloc: Global, merged: Option<&Topology>) -> Result<Option<Vec<u8>>, Fail> {
    Ok(match merged {
        Some(topology) => Some(topo_io::text_of(alloc, topology)?),
        None => None,
    })
}

/// The text of the topology of all texts of a list; none of no text.
fn text_of_all(alloc: Global, list: &[&str]) -> Result<Option<Vec<u8>>, Fail> {
    let merged = boxed(alloc, merge_topologies(alloc, texts(alloc, list)?))?;
    text_of(alloc, (*merged).as_ref())
}

/// The merged text of borrowed texts, if they are accepted.
fn text_of_borrowed(alloc: Global, list: &[&str]) -> Result<Option<Vec<u8>>, Fail> {
    let borrowed = borrow_bytes(alloc, list)?;
    let merged = boxed(alloc, merge_borrowed_topologies(alloc, &borrowed))?;
    text_of(alloc, (*merged).as_ref())
}

/// Merges all texts of a list to a topology, owned and borrowed, and compares its text.
fn check_all_merged(
    rt: &impl Abort,
    alloc: Global,
    list: &[&str],
    merged: &str,
) -> Result<(), Fail> {
    let text = text_of_all(alloc, list)?.ok_or("no topology")?;
    assert!(rt; text.as_slice() == merged.as_bytes(), "{merged}");
    let text = text_of_borrowed(alloc, list)?.ok_or("no topology of borrowed texts")?;
    assert!(rt; text.as_slice() == merged.as_bytes(), "borrowed: {merged}");
    Ok(())
}

const ORDERS: &[&[&str]] = &[&[FIRST, SECOND, THIRD], &[THIRD, FIRST, SECOND]];

#[test]
fn three_squares_in_any_grouping(rt: HostRuntime) -> Result<(), Fail> {
    for grouping in GROUPINGS {
        let plan = plan_of(rt.alloc(), grouping, 3)?;
        for order in ORDERS {
            check_merged(&rt, rt.alloc(), order, &plan, THREE)?;
        }
    }
    Ok(())
}

#[test]
fn all_of_three_squares_in_any_order(rt: HostRuntime) -> Result<(), Fail> {
    for order in ORDERS {
        check_all_merged(&rt, rt.alloc(), order, THREE)?;
    }
    check_all_merged(&rt, rt.alloc(), &[THIRD, FIRST, THIRD, SECOND], THREE)
}

#[test]
fn no_topology_of_no_text(rt: HostRuntime) -> Result<(), Fail> {
    assert!(rt; text_of_all(rt.alloc(), &[])?.is_none());
    assert!(rt; text_of_borrowed(rt.alloc(), &[])?.is_none());
    Ok(())
}

#[test]
fn no_plan_of_none(rt: HostRuntime) -> Result<(), Fail> {
    for grouping in GROUPINGS {
        assert!(rt; grouped(rt.alloc(), grouping, 0)?.is_none());
    }
    Ok(())
}

fn node(alloc: Global, left: Plan, right: Plan) -> Result<Plan, Fail> {
    Ok(Plan::Node(Box::new(alloc, left)?, Box::new(alloc, right)?))
}

/// The plan that joins these leaves from left to right, after the first leaf of all.
fn joined_to_first(alloc: Global, leaves: &[usize]) -> Result<Plan, Fail> {
    let mut plan = Plan::Leaf(0);
    for leaf in leaves {
        plan = node(alloc, plan, Plan::Leaf(*leaf))?;
    }
    Ok(plan)
}

#[test]
fn a_text_merged_with_itself(rt: HostRuntime) -> Result<(), Fail> {
    let plan = joined_to_first(rt.alloc(), &[1])?;
    check_merged(&rt, rt.alloc(), &[SECOND, SECOND], &plan, SECOND)?;
    check_all_merged(&rt, rt.alloc(), &[SECOND, SECOND], SECOND)
}

/// A plan that names the third text twice, the first twice and the second not at all.
fn with_repeats(alloc: Global) -> Result<Plan, Fail> {
    let inner = joined_to_first(alloc, &[2])?;
    let right = node(alloc, Plan::Leaf(2), inner)?;
    node(alloc, right, Plan::Leaf(0))
}

#[test]
fn a_plan_with_repeats_and_omissions(rt: HostRuntime) -> Result<(), Fail> {
    let plan = with_repeats(rt.alloc())?;
    check_merged(&rt, rt.alloc(), &[FIRST, SECOND, THIRD], &plan, ENDS)
}

/// What a merge is refused for; a text's fault is its missing type.
#[derive(Clone, Copy, Debug)]
enum Refusal {
    BadPlan(usize),
    Text(usize),
    OtherGrid(usize),
}

/// Texts, the leaves that a plan joins to the first, and the refusal of the merge.
struct Refused {
    texts: &'static [&'static str],
    leaves: &'static [usize],
    refusal: Refusal,
}

const REFUSED: &[Refused] = &[
    Refused {
        texts: &[FIRST, "{}"],
        leaves: &[],
        refusal: Refusal::Text(1),
    },
    Refused {
        texts: &[FIRST, ON_SCALE_TWO, "{}"],
        leaves: &[],
        refusal: Refusal::Text(2),
    },
    Refused {
        texts: &[FIRST, ON_SCALE_TWO],
        leaves: &[],
        refusal: Refusal::OtherGrid(1),
    },
    Refused {
        texts: &["{}"],
        leaves: &[3],
        refusal: Refusal::BadPlan(3),
    },
    Refused {
        texts: &[],
        leaves: &[],
        refusal: Refusal::BadPlan(0),
    },
];

fn fault_of(alloc: Global, refusal: Refusal) -> MergeFault {
    match refusal {
        Refusal::BadPlan(leaf) => MergeFault::BadPlan(leaf),
        Refusal::Text(number) => {
            let fault = Fault::here(alloc, FaultKind::Missing);
            MergeFault::Text(number, fault.under_name(alloc, "type"))
        }
        Refusal::OtherGrid(number) => MergeFault::OtherGrid(number),
    }
}

fn check_refused(rt: &impl Abort, alloc: Global, row: &Refused) -> Result<(), Fail> {
    let plan = joined_to_first(alloc, row.leaves)?;
    let list = texts(alloc, row.texts)?;
    let fault = merge_texts(alloc, &list, &plan).err();
    let expected = Some(fault_of(alloc, row.refusal));
    assert!(rt; fault == expected, "{:?}", row.refusal);
    Ok(())
}

/// Refusals of merges of all texts of a list, for its texts alone.
fn check_all_refused(rt: &impl Abort, alloc: Global, row: &Refused) -> Result<(), Fail> {
    let list = texts(alloc, row.texts)?;
    let borrowed = borrow_bytes(alloc, row.texts)?;
    let expected = Some(fault_of(alloc, row.refusal));
    let fault = merge_topologies(alloc, list).err();
    assert!(rt; fault == expected, "{:?}: topology", row.refusal);
    let fault = merge_borrowed_topologies(alloc, &borrowed).err();
    assert!(rt;
        fault == expected,
        "{:?}: topology of borrowed texts",
        row.refusal
    );
    Ok(())
}

#[test]
fn refusals_in_their_order(rt: HostRuntime) -> Result<(), Fail> {
    for row in REFUSED {
        check_refused(&rt, rt.alloc(), row)?;
        if !matches!(row.refusal, Refusal::BadPlan(_)) {
            check_all_refused(&rt, rt.alloc(), row)?;
        }
    }
    Ok(())
}

/// A shard with one empty layer, on a grid of these scales.
fn shard(alloc: Global, scale: i64, name: &str) -> Result<Whole, Fail> {
    let grid = Grid::new(scale, scale, 0, 0).ok_or("no grid")?;
    let mut map = FeatureMap::new(alloc);
    map.add_layer(name)?;
    Ok(Whole::from_map(alloc, &grid, &map)?)
}

fn shards(alloc: Global, list: &[(i64, &str)]) -> Result<Vec<Whole>, Fail> {
    let mut made = Vec::new(alloc);
    for (scale, name) in list {
        made.push(shard(alloc, *scale, name)?)?;
    }
    Ok(made)
}

/// Runs the plan, and compares the text of the joined shard and of its copy.
fn check_joined(
    rt: &impl Abort,
    alloc: Global,
    shards: &[Whole],
    plan: &Plan,
    text: &str,
) -> Result<(), Fail> {
    let joined = boxed(alloc, run_plan(alloc, shards, plan))?;
    check_text(rt, alloc, &*joined, text)?;
    let copy = boxed(alloc, joined.copy(alloc))?;
    assert!(rt; copy.grid() == joined.grid());
    check_text(rt, alloc, &*copy, text)
}

fn check_text(rt: &impl Abort, alloc: Global, shard: &Whole, text: &str) -> Result<(), Fail> {
    let written = shard.text(alloc)?;
    assert!(rt; written.as_slice() == text.as_bytes());
    Ok(())
}

const TWO_LAYERS: &str =
    "{\"arcs\":[],\"objects\":{\"a\":{\"geometries\":[],\"type\":\"GeometryCollection\"},\"b\":{\"geometries\":[],\"type\":\"GeometryCollection\"}},\"transform\":{\"scale\":[1,1],\"translate\":[0,0]},\"type\":\"Topology\"}";

#[test]
fn plans_over_shards(rt: HostRuntime) -> Result<(), Fail> {
    let both = joined_to_first(rt.alloc(), &[1])?;
    let shards = shards(rt.alloc(), &[(1, "b"), (1, "a")])?;
    check_joined(&rt, rt.alloc(), &shards, &both, TWO_LAYERS)
}

/// Leaves that a plan joins to the first, and what it is refused for.
const REFUSED_PLANS: &[(&[usize], PlanFault)] = &[
    (&[3], PlanFault::BadPlan(3)),
    (&[1], PlanFault::OtherGrid(2)),
];

/// The fault of a plan that joins these leaves to the first.
fn fault(alloc: Global, shards: &[Whole], leaves: &[usize]) -> Result<Option<PlanFault>, Fail> {
    let plan = joined_to_first(alloc, leaves)?;
    Ok(run_plan(alloc, shards, &plan).err())
}

#[test]
fn plans_over_shards_that_are_refused(rt: HostRuntime) -> Result<(), Fail> {
    let shards = shards(rt.alloc(), &[(1, "b"), (1, "a"), (2, "a")])?;
    for (leaves, expected) in REFUSED_PLANS {
        let fault = fault(rt.alloc(), shards.as_slice(), *leaves)?;
        assert!(rt; fault == Some(*expected));
    }
    Ok(())
}

/// Texts of which plans name some.
const FIVE: [&str; 5] = [FIRST, SECOND, THIRD, ENDS, TWO_LAYERS];

/// The places of `FIVE` that stand for the binary digits 1 of a number, the last digit for place 0.
fn places_of(alloc: Global, number: usize) -> Result<Vec<usize>, Fail> {
    let mut places = Vec::new(alloc);
    let mut rest = number;
    for place in 0..FIVE.len() {
        if rest % 2 == 1 {
            places.push(place)?;
        }
        rest /= 2;
    }
    Ok(places)
}

/// The plan that joins these leaves from left to right; none of no leaf.
fn in_a_row(alloc: Global, leaves: &[usize]) -> Result<Option<Plan>, Fail> {
    let mut plan = None;
    for leaf in leaves {
        plan = Some(match plan {
            None => Plan::Leaf(*leaf),
            Some(before) => node(alloc, before, Plan::Leaf(*leaf))?,
        });
    }
    Ok(plan)
}

fn wholes(alloc: Global, list: &[Vec<u8>]) -> Result<Vec<Whole>, Fail> {
    let mut made = Vec::new(alloc);
    for text in list {
        made.push(Whole::of_text(alloc, text.as_slice())?)?;
    }
    Ok(made)
}

/// Whether the texts of `FIVE` at some places and their shards are joined to one text: by a plan that names these
/// places, and as a list of these texts alone.
fn are_joined_alike(
    alloc: Global,
    list: &[Vec<u8>],
    shards: &[Whole],
    number: usize,
) -> Result<bool, Fail> {
    let plan = plan_of_number(alloc, number)?.ok_or("no plan")?;
    let merged = merge_texts(alloc, list, &plan)?;
    let is_joined = is_joined(alloc, shards, &plan, merged.as_slice())?;
    Ok(is_joined && is_merged_alone(alloc, number, merged.as_slice())?)
}

/// Whether the shard that a plan joins has a text.
fn is_joined(alloc: Global, shards: &[Whole], plan: &Plan, text: &[u8]) -> Result<bool, Fail> {
    let joined = boxed(alloc, run_plan(alloc, shards, plan))?;
    Ok(joined.text(alloc)?.as_slice() == text)
}

/// Whether the texts that a number stands for are merged, as a list of these alone, to a text.
fn is_merged_alone(alloc: Global, number: usize, text: &[u8]) -> Result<bool, Fail> {
    let chosen = chosen(alloc, number)?;
    match text_of_all(alloc, chosen.as_slice())? {
        Some(merged) => Ok(merged.as_slice() == text),
        None => Ok(false),
    }
}

/// The texts of `FIVE` whose places a number stands for.
fn chosen(alloc: Global, number: usize) -> Result<Vec<&'static str>, Fail> {
    let mut texts = Vec::new(alloc);
    for place in &places_of(alloc, number)? {
        let text = FIVE.get(*place).ok_or("no such place")?;
        texts.push(*text)?;
    }
    Ok(texts)
}

/// The plan of the places that a number stands for.
fn plan_of_number(alloc: Global, number: usize) -> Result<Option<Plan>, Fail> {
    let places = places_of(alloc, number)?;
    in_a_row(alloc, places.as_slice())
}

#[test]
fn each_choice_of_texts_as_by_its_plan(rt: HostRuntime) -> Result<(), Fail> {
    let list = texts(rt.alloc(), &FIVE)?;
    let shards = wholes(rt.alloc(), list.as_slice())?;
    assert!(rt; plan_of_number(rt.alloc(), 0)?.is_none());
    for number in 1..32 {
        let are_alike = are_joined_alike(rt.alloc(), list.as_slice(), shards.as_slice(), number)?;
        assert!(rt; are_alike, "plan {number}");
    }
    Ok(())
}

// How deep the deep plans are.
const LEVELS: usize = 2_000;

// A leaf more at each level, on the right where the side is true, the two sides by turns.
fn deep_plan(alloc: Global, sides: (bool, bool)) -> Result<Plan, Fail> {
    let mut plan = Plan::Leaf(0);
    for level in 0..LEVELS {
        let is_right = if level % 2 == 0 { sides.0 } else { sides.1 };
        plan = if is_right {
            node(alloc, plan, Plan::Leaf(0))?
        } else {
            node(alloc, Plan::Leaf(0), plan)?
        };
    }
    Ok(plan)
}

/// A plan with a leaf more, which is past the shards, is refused.
fn check_past(rt: &impl Abort, alloc: Global, shards: &[Whole], plan: Plan) -> Result<(), Fail> {
    let past = node(alloc, plan, Plan::Leaf(1))?;
    let fault = run_plan(alloc, shards, &past).err();
    assert!(rt; fault == Some(PlanFault::BadPlan(1)));
    Ok(())
}

fn check_deep(
    rt: &impl Abort,
    alloc: Global,
    shards: &[Whole],
    sides: (bool, bool),
) -> Result<(), Fail> {
    let plan = deep_plan(alloc, sides)?;
    check_joined(rt, alloc, shards, &plan, EMPTY)?;
    check_past(rt, alloc, shards, plan)
}

#[test]
fn deep_plans(rt: HostRuntime) -> Result<(), Fail> {
    let shards = shards(rt.alloc(), &[(1, "a")])?;
    for sides in [(true, true), (false, false), (true, false)] {
        check_deep(&rt, rt.alloc(), &shards, sides)?;
    }
    Ok(())
}
