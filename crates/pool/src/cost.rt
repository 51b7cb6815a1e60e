//! What a pool's decisions cost, and how many of its workers are worth waking.
use rules::Rules;

// Up to so many nodes without a site's rules are judged by the caller alone; a worker must first be
// woken.
const FEW_NODES: usize = 8_192;

// Up to so much work, in units of fuel, is likewise done by the caller alone where there are rules:
// about a millisecond.
const LITTLE_WORK: u64 = 300_000;

// What the rules are to a node beside their fuel: that it is shown to them, and their calls.
const WORK_A_NODE: u64 = 100;

/// Units of fuel that calls used: all, and those among them that were shown no node, which each kit
/// makes for itself, however few nodes it judges.
#[derive(Clone, Copy)]
pub struct Spent {
    all: u64,
    once: u64,
}

/// What the rules' calls cost, in units of fuel: for a node, and once a decision.
#[derive(Clone, Copy)]
pub struct Cost {
    a_node: u64,
    once: u64,
}

/// How many of so many workers do the work on so many nodes sooner than the caller alone, by what the
/// last decision cost, if there was one: they must be woken first, and waited for. And each makes the
/// calls that are shown no node once more: so there are no more of them than have as much to do
/// besides.
pub fn worth_waking<K: Rules>(home: &K, all: usize, cost: Option<Cost>, nodes: usize) -> usize {
    if home.count() == 0 {
        return if nodes > FEW_NODES { all } else { 0 };
    }
    let Some(cost) = cost else {
        return all;
    };
    let work = (nodes as u64).saturating_mul(cost.a_node.saturating_add(WORK_A_NODE));
    if work <= LITTLE_WORK {
        return 0;
    }
    all.min((work / cost.once.max(1)) as usize)
}

/// What a kit's calls have used so far.
pub fn spent_by<K: Rules>(kit: &K) -> Spent {
    Spent {
        all: kit.spent(),
        once: kit.spent_once(),
    }
}

/// What is noted of the cost of a decision, of whose nodes so many were judged here, by what had been
/// spent before and after it, where a rule was asked. What is noted falls by half at most: a pod that
/// asks little doesn't put the workers to sleep for the next one.
pub fn noted(last: Option<Cost>, before: Spent, after: Spent, nodes: usize) -> Option<Cost> {
    let spent = after.all.wrapping_sub(before.all);
    if nodes == 0 || spent == 0 {
        return last;
    }
    let once = after.once.wrapping_sub(before.once);
    let a_node = spent.wrapping_sub(once) / nodes as u64;
    match last {
        None => Some(Cost { a_node, once }),
        Some(last) => Some(Cost {
            a_node: a_node.max(last.a_node / 2),
            once: once.max(last.once / 2),
        }),
    }
}
