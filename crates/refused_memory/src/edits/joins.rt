//! Three squares merged as texts and as shards, and the plans of it.

use faults::OutOfMemory;
use refine::{Cut, MergeFault, Plan, PlanFault, Shard, Whole, merge_texts, run_plan};
use refused_calls::calls;
use refused_calls::calls::Borrowed;
use refused_calls::outcome::{Answer, Tally};
use refused_calls::texts::{FIRST, SECOND, THIRD, THREE};
use std::alloc::Global;

const TEXTS: &[&str] = &[FIRST, SECOND, THIRD];

/// The squares in each form in which they are lent.
#[derive(Drop)]
struct Squares {
    texts: Vec<Vec<u8>>,
    wholes: Vec<Whole>,
    cuts: Vec<Cut>,
    plan: Plan,
}

fn texts(alloc: Global) -> Option<Vec<Vec<u8>>> {
    let mut made = Vec::new(alloc);
    for text in TEXTS {
        made.push(text.as_bytes().to_vec(alloc).ok()?).ok()?;
    }
    Some(made)
}

fn read_shard<S: Shard>(alloc: Global, text: &str) -> Option<S> {
    S::of_text(alloc, text.as_bytes()).ok()
}

fn read_shards<S: Shard>(alloc: Global) -> Option<Vec<S>> {
    let mut made = Vec::new(alloc);
    for text in TEXTS {
        made.push(read_shard(alloc, text)?).ok()?;
    }
    Some(made)
}

impl Squares {
    fn of(alloc: Global) -> Option<Squares> {
        let texts = texts(alloc)?;
        let wholes = read_shards(alloc)?;
        let cuts = read_shards(alloc)?;
        let plan = Plan::halves(alloc, TEXTS.len()).ok()??;
        Some(Squares {
            texts,
            wholes,
            cuts,
            plan,
        })
    }
}

impl Borrowed for Squares {
    fn is_as_before(&self) -> bool {
        are_texts(self.texts.as_slice()) && is_to_the_right(&self.plan)
    }

    fn is_as_made(&self, alloc: Global) -> Answer {
        match are_shards(alloc, self.wholes.as_slice()) {
            Answer::Right => are_shards(alloc, self.cuts.as_slice()),
            other => other,
        }
    }
}

fn are_texts(texts: &[Vec<u8>]) -> bool {
    for (text, expected) in texts.iter().zip(TEXTS) {
        if text.as_slice() != expected.as_bytes() {
            return false;
        }
    }
    true
}

fn is_shard<S: Shard>(alloc: Global, shard: &S, expected: &str) -> Answer {
    match shard.text(alloc) {
        Ok(text) => Answer::of(text.as_slice() == expected.as_bytes()),
        Err(OutOfMemory) => Answer::Wanting,
    }
}

fn are_shards<S: Shard>(alloc: Global, shards: &[S]) -> Answer {
    for (shard, expected) in shards.iter().zip(TEXTS) {
        match is_shard(alloc, shard, expected) {
            Answer::Right => {}
            other => return other,
        }
    }
    Answer::Right
}

fn is_leaf(plan: &Plan, place: usize) -> bool {
    match plan {
        Plan::Leaf(leaf) => *leaf == place,
        Plan::Node(_, _) => false,
    }
}

/// Whether a plan joins two places.
fn is_join(plan: &Plan, left: usize, right: usize) -> bool {
    match plan {
        Plan::Leaf(_) => false,
        Plan::Node(first, second) => is_leaf(&**first, left) && is_leaf(&**second, right),
    }
}

fn is_to_the_left(plan: &Plan) -> bool {
    match plan {
        Plan::Leaf(_) => false,
        Plan::Node(first, second) => is_join(&**first, 0, 1) && is_leaf(&**second, 2),
    }
}

/// Three places in halves are grouped so, too.
fn is_to_the_right(plan: &Plan) -> bool {
    match plan {
        Plan::Leaf(_) => false,
        Plan::Node(first, second) => is_leaf(&**first, 0) && is_join(&**second, 1, 2),
    }
}

/// The plan that was made; or what is answered where none was.
fn plan_of(made: Result<Option<Plan>, OutOfMemory>) -> Result<Plan, Answer> {
    match made {
        Ok(Some(plan)) => Ok(plan),
        Ok(None) => Err(Answer::Wrong),
        Err(OutOfMemory) => Err(Answer::Wanting),
    }
}

fn left(alloc: Global, _: &Squares) -> Answer {
    match plan_of(Plan::left(alloc, TEXTS.len())) {
        Ok(plan) => Answer::of(is_to_the_left(&plan)),
        Err(answer) => answer,
    }
}

fn grouped_to_the_right(made: Result<Option<Plan>, OutOfMemory>) -> Answer {
    match plan_of(made) {
        Ok(plan) => Answer::of(is_to_the_right(&plan)),
        Err(answer) => answer,
    }
}

fn right(alloc: Global, _: &Squares) -> Answer {
    grouped_to_the_right(Plan::right(alloc, TEXTS.len()))
}

fn halves(alloc: Global, _: &Squares) -> Answer {
    grouped_to_the_right(Plan::halves(alloc, TEXTS.len()))
}

fn merge(alloc: Global, squares: &Squares) -> Answer {
    match merge_texts(alloc, squares.texts.as_slice(), &squares.plan) {
        Ok(text) => Answer::of(text.as_slice() == THREE.as_bytes()),
        Err(MergeFault::OutOfMemory) => Answer::Wanting,
        Err(_) => Answer::Wrong,
    }
}

fn run<S: Shard>(alloc: Global, shards: &[S], plan: &Plan) -> Answer {
    match run_plan(alloc, shards, plan) {
        Ok(shard) => is_shard(alloc, &shard, THREE),
        Err(PlanFault::OutOfMemory) => Answer::Wanting,
        Err(_) => Answer::Wrong,
    }
}

fn run_wholes(alloc: Global, squares: &Squares) -> Answer {
    run(alloc, squares.wholes.as_slice(), &squares.plan)
}

fn run_cuts(alloc: Global, squares: &Squares) -> Answer {
    run(alloc, squares.cuts.as_slice(), &squares.plan)
}

/// Makes each call of the three squares.
pub(crate) fn test(rt: &HostRuntime, tally: &mut Tally) {
    if let Some(squares) = tally.borrowed(rt, "three squares", "their shards", Squares::of) {
        calls!(tally.ask(rt, "three squares", &squares);
            "refine::merge_texts" => merge,
            "merging::run_plan over Whole" => run_wholes,
            "merging::run_plan over Cut" => run_cuts,
            "Plan::left" => left,
            "Plan::right" => right,
            "Plan::halves" => halves,
        );
    }
}
