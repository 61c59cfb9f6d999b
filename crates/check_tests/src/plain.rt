// A plain judge of certificates, by what makes a document valid: trees by recursion, and plain sums.
use crate::sets::{SmallClass, all_files, bit, first_difference, migrated, replicated, set_of};
use bound_cert::{Answer, Claimed, Document, Give, Heading, Multipliers, NodeLine};

/// What the nodes of a tree are judged by.
#[derive(Clone, Copy)]
pub struct Case<'a> {
    pub classes: &'a [SmallClass],
    pub full: u8,
    pub low: i64,
    pub high: i64,
    pub bound: Option<i64>,
}

/// The files that are inside and outside at a node.
#[derive(Clone, Copy)]
pub struct SmallNode {
    pub inside: u8,
    pub outside: u8,
}

/// A small number; a great one stands for more than any that is asked for.
fn small(number: u128) -> i64 {
    i64::try_from(number).unwrap_or(i64::MAX)
}

/// The charges less the rewards at a file.
fn weight(gives: &[Give], file: u32) -> i64 {
    let mut sum = 0i64;
    for give in gives {
        if give.file == file {
            sum = sum
                .wrapping_add(small(give.charge))
                .wrapping_sub(small(give.reward));
        }
    }
    sum
}

/// The charges and the rewards of a class.
fn given(gives: &[Give], class: usize) -> (i64, i64) {
    let (mut charge, mut reward) = (0i64, 0i64);
    for give in gives {
        if give.class as usize == class {
            charge = charge.wrapping_add(small(give.charge));
            reward = reward.wrapping_add(small(give.reward));
        }
    }
    (charge, reward)
}

/// Whether each give is of a class to a user of it.
fn go_to_users(classes: &[SmallClass], gives: &[Give]) -> bool {
    for give in gives {
        match classes.get(give.class as usize) {
            Some(class) if class.users & bit(give.file) != 0 => {}
            _ => return false,
        }
    }
    true
}

/// Whether no class is charged too much, and each is rewarded as it must be.
fn are_shared(classes: &[SmallClass], gives: &[Give], p: i64, q: i64) -> bool {
    for (number, class) in classes.iter().enumerate() {
        let (charge, reward) = given(gives, number);
        if charge > q.wrapping_mul(class.size) || reward != p.wrapping_mul(class.size) {
            return false;
        }
    }
    true
}

/// The least weight of a member of a node.
fn least_weight(gives: &[Give], node: SmallNode) -> i64 {
    let mut sum = 0i64;
    for file in 0..8u32 {
        let weight = weight(gives, file);
        if node.inside & bit(file) != 0 {
            sum = sum.wrapping_add(weight);
        } else if node.outside & bit(file) == 0 {
            sum = sum.wrapping_add(weight.min(0));
        }
    }
    sum
}

/// Whether multipliers close a node.
pub fn closes(case: &Case<'_>, p: u64, q: u64, gives: &[Give], node: SmallNode) -> bool {
    let Some(bound) = case.bound else {
        return false;
    };
    let (p, q) = (small(u128::from(p)), small(u128::from(q)));
    if !go_to_users(case.classes, gives) || !are_shared(case.classes, gives, p, q) {
        return false;
    }
    let end = if q <= p { case.low } else { case.high };
    let reached = least_weight(gives, node).wrapping_add(p.wrapping_sub(q).wrapping_mul(end));
    reached > q.wrapping_mul(bound.wrapping_sub(1))
}

/// Whether a set is a member of a node.
pub fn is_member(node: SmallNode, set: u8) -> bool {
    node.inside & !set == 0 && node.outside & set == 0
}

/// Whether the weighted means of two sets are in range and within the bound.
pub fn is_mix(case: &Case<'_>, one: u8, other: u8, alpha: i64, beta: i64) -> bool {
    let weights = alpha.wrapping_add(beta);
    let moved = alpha
        .wrapping_mul(migrated(case.classes, one))
        .wrapping_add(beta.wrapping_mul(migrated(case.classes, other)));
    let copied = alpha
        .wrapping_mul(replicated(case.classes, one))
        .wrapping_add(beta.wrapping_mul(replicated(case.classes, other)));
    let within = match case.bound {
        Some(bound) => copied <= bound.wrapping_mul(weights),
        None => true,
    };
    weights >= 1
        && case.low.wrapping_mul(weights) <= moved
        && moved <= case.high.wrapping_mul(weights)
        && within
}

/// Whether a branching is called for.
fn is_deserved(
    case: &Case<'_>,
    node: SmallNode,
    file: u32,
    sets: (Option<u8>, Option<u8>),
    alpha: u64,
    beta: u64,
) -> bool {
    let (Some(one), Some(other)) = sets else {
        return false;
    };
    let is_free = (node.inside | node.outside) & bit(file) == 0;
    is_free
        && first_difference(one, other) == Some(file)
        && is_member(node, one)
        && is_member(node, other)
        && is_mix(
            case,
            one,
            other,
            small(u128::from(alpha)),
            small(u128::from(beta)),
        )
}

/// What stands behind the tree of a node, where its lines are right; no tree is deeper than `depth`.
fn behind_tree<'n>(
    case: &Case<'_>,
    lines: &'n [NodeLine],
    node: SmallNode,
    depth: u32,
) -> Option<&'n [NodeLine]> {
    let (line, rest) = lines.split_first()?;
    match line {
        NodeLine::Low if migrated(case.classes, case.full & !node.outside) < case.low => Some(rest),
        NodeLine::High if migrated(case.classes, node.inside) > case.high => Some(rest),
        NodeLine::Leaf(Multipliers { p, q, gives }) if closes(case, *p, *q, gives.list(), node) =>
            Some(rest),
        NodeLine::Branch {
            file,
            first,
            second,
            alpha,
            beta,
        } if depth >= 1 => {
            let sets = (set_of(first, case.full), set_of(second, case.full));
            if !is_deserved(case, node, *file, sets, *alpha, *beta) {
                return None;
            }
            let out = SmallNode {
                inside: node.inside,
                outside: node.outside | bit(*file),
            };
            let within = SmallNode {
                inside: node.inside | bit(*file),
                outside: node.outside,
            };
            let rest = behind_tree(case, rest, out, depth - 1)?;
            behind_tree(case, rest, within, depth - 1)
        }
        _ => None,
    }
}

/// Whether a plan is admitted, with its sums.
fn is_claim(case: &Case<'_>, root: SmallNode, claimed: &Claimed) -> bool {
    let Some(set) = set_of(&claimed.set, case.full) else {
        return false;
    };
    let (moved, copied) = (migrated(case.classes, set), replicated(case.classes, set));
    is_member(root, set)
        && case.low <= moved
        && moved <= case.high
        && small(u128::from(claimed.migrated)) == moved
        && small(u128::from(claimed.replicated)) == copied
}

/// Whether the answer, the plan and the bound go together.
fn go_together(heading: &Heading) -> bool {
    match (heading.answer, &heading.plan, heading.bound) {
        (Answer::Optimal, Some(plan), Some(bound)) => plan.replicated == bound,
        (Answer::Infeasible, None, None) => true,
        (Answer::Open, None, Some(_)) => true,
        (Answer::Open, Some(plan), Some(bound)) => bound < plan.replicated,
        _ => false,
    }
}

/// The node of the root.
fn root_of(heading: &Heading, full: u8) -> Option<SmallNode> {
    match &heading.pins {
        None => Some(SmallNode {
            inside: 0,
            outside: 0,
        }),
        Some(pins) => {
            let (inside, outside) = (set_of(&pins.go, full)?, set_of(&pins.stay, full)?);
            if inside & outside == 0 {
                Some(SmallNode { inside, outside })
            } else {
                None
            }
        }
    }
}

/// Whether a document is valid for a table of so many files, at most eight, and these classes.
pub fn is_valid(files: u32, classes: &[SmallClass], document: &Document) -> bool {
    let heading = &document.heading;
    let full = all_files(files);
    let case = Case {
        classes,
        full,
        low: small(u128::from(heading.range.low)),
        high: small(u128::from(heading.range.high)),
        bound: heading.bound.map(|bound| small(u128::from(bound))),
    };
    let Some(root) = root_of(heading, full) else {
        return false;
    };
    if let Some(claimed) = &heading.plan {
        if !is_claim(&case, root, claimed) {
            return false;
        }
    }
    match behind_tree(&case, document.nodes.list(), root, 8) {
        Some(rest) => rest.is_empty() && go_together(heading),
        None => false,
    }
}
