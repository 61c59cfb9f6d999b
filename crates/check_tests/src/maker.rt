// A plain maker of certificates of small tables.
ghost use Rattle.std.specs.Prelude.{◌≤◌};

use crate::plain::{Case, SmallNode, closes, is_member, is_mix};
use crate::sets::{SmallClass, all_files, bit, first_difference, first_of, migrated, replicated};
use bound_cert::Give;
use std::alloc::{AllocError, Global};

/// Numbers that are the same in each run.
#[derive(Drop)]
pub struct Numbers {
    pub state: u64,
}

impl Numbers {
    /// The next number below 2^31.
    pub fn next(&mut self) -> u64 {
        self.state = self
            .state
            .wrapping_mul(6364136223846793005)
            .wrapping_add(1442695040888963407);
        self.state >> 33
    }

    /// A number from 0 to `most`.
    pub fn up_to(&mut self, most: u32) -> u64
        ensures { result ≤ most }
    {
        self.next() % (u64::from(most) + 1)
    }
}

/// Puts a text that was made behind another; none is want of memory.
fn put(out: &mut String, text: Result<String, AllocError>) -> Option<()> {
    let text = text.ok()?;
    out.push_str(text.as_str()).ok()
}

/// The rows of a chunk, whose users are the lowest four bits, or the first file where these are 0.
fn put_rows(alloc: Global, chunk: u64, size: u64, users: u64, out: &mut String) -> Option<()> {
    for file in 0..4u32 {
        if users & u64::from(bit(file + 4)) != 0 || (users == 0 && file == 0) {
            put(out, format!(in alloc; "f{file},0{chunk},{size}\n"))?;
        }
    }
    Some(())
}

/// A recipe of at most four files and six chunks.
pub fn recipe_text(alloc: Global, numbers: &mut Numbers) -> Option<String> {
    let mut text = String::new(alloc);
    let chunks = numbers.up_to(5);
    for chunk in 0..6u64 {
        let size = numbers.up_to(29);
        let users = numbers.up_to(15);
        if chunk <= chunks {
            put_rows(alloc, chunk, size, users, &mut text)?;
        }
    }
    Some(text)
}

/// The slopes of multipliers that are tried.
const SLOPES: [(u64, u64); 9] = [
    (1, 1),
    (0, 1),
    (1, 2),
    (2, 1),
    (1, 3),
    (3, 1),
    (2, 3),
    (3, 2),
    (1, 5),
];

/// What a file gives or is given of a class, where it is this one.
fn part(given: Option<u32>, file: u32, size: u128, times: u64) -> u128 {
    if given == Some(file) {
        size.wrapping_mul(u128::from(times))
    } else {
        0
    }
}

/// The files of a class that are charged and rewarded, so that it costs little at the members of a node.
fn charged_and_rewarded(of: SmallClass, node: SmallNode) -> (Option<u32>, Option<u32>) {
    let free = first_of(of.users & !node.inside & !node.outside);
    let kept = first_of(of.users & node.outside);
    let put = first_of(of.users & node.inside);
    let charged = match (put, kept) {
        (Some(file), _) => Some(file),
        (None, None) => free,
        (None, Some(_)) => None,
    };
    (charged, kept.or(put).or(free))
}

/// Gives of a class, which cost little at the members of a node.
fn push_gives(
    gives: &mut Vec<Give>,
    class: u32,
    of: SmallClass,
    node: SmallNode,
    slope: (u64, u64),
) -> Option<()> {
    let size = u128::try_from(of.size).unwrap_or(0);
    let (charged, rewarded) = charged_and_rewarded(of, node);
    for file in 0..8u32 {
        let charge = part(charged, file, size, slope.1);
        let reward = part(rewarded, file, size, slope.0);
        if charge != 0 || reward != 0 {
            let give = Give {
                class,
                file,
                charge,
                reward,
            };
            gives.push(give).ok()?;
        }
    }
    Some(())
}

/// The gives of all classes at a node.
fn gives_of(
    alloc: Global,
    case: &Case<'_>,
    node: SmallNode,
    slope: (u64, u64),
) -> Option<Vec<Give>> {
    let mut gives = Vec::new(alloc);
    let mut class = 0u32;
    for of in case.classes {
        push_gives(&mut gives, class, *of, node, slope)?;
        class = class.wrapping_add(1);
    }
    Some(gives)
}

/// Puts the lines of some gives.
fn put_gives(alloc: Global, gives: &[Give], out: &mut String) -> Option<()> {
    for Give {
        class,
        file,
        charge,
        reward,
    } in gives {
        put(
            out,
            format!(in alloc; "give {class} {file} {charge} {reward}\n"),
        )?;
    }
    Some(())
}

/// Writes a leaf with these multipliers, where they close a node.
fn write_closing(
    alloc: Global,
    case: &Case<'_>,
    node: SmallNode,
    slope: (u64, u64),
    out: &mut String,
) -> Option<bool> {
    let gives = gives_of(alloc, case, node, slope)?;
    let (p, q) = slope;
    if !closes(case, p, q, gives.as_slice(), node) {
        return Some(false);
    }
    let count = gives.len();
    put(out, format!(in alloc; "bound {p} {q} {count}\n"))?;
    put_gives(alloc, gives.as_slice(), out)?;
    Some(true)
}

/// Writes a leaf with multipliers that close a node, where some that are tried do.
fn write_leaf(alloc: Global, case: &Case<'_>, node: SmallNode, out: &mut String) -> Option<bool> {
    for slope in SLOPES {
        if write_closing(alloc, case, node, slope, out)? {
            return Some(true);
        }
    }
    Some(false)
}

/// Two different members of a node with weights that are a mix.
fn mix_of(case: &Case<'_>, node: SmallNode) -> Option<(u8, u8, i64, i64)> {
    for one in 0..16u8 {
        for other in 0..16u8 {
            let (one, other) = (one.wrapping_mul(16), other.wrapping_mul(16));
            let apart = one != other && (one | other) & !case.full == 0;
            if apart && is_member(node, one) && is_member(node, other) {
                let (moved, more) = (migrated(case.classes, one), migrated(case.classes, other));
                let weights = [
                    (1, 0),
                    (more.wrapping_sub(case.low), case.low.wrapping_sub(moved)),
                    (more.wrapping_sub(case.high), case.high.wrapping_sub(moved)),
                ];
                for (alpha, beta) in weights {
                    if alpha >= 0 && beta >= 0 && is_mix(case, one, other, alpha, beta) {
                        return Some((one, other, alpha, beta));
                    }
                }
            }
        }
    }
    None
}

/// Writes the line of a branching, and answers its file; none where the node has no such mix.
fn write_branch(alloc: Global, case: &Case<'_>, node: SmallNode, out: &mut String) -> Option<u32> {
    let (one, other, alpha, beta) = mix_of(case, node)?;
    let file = first_difference(one, other)?;
    put(
        out,
        format!(in alloc; "branch {file} {one:02x} {other:02x} {alpha} {beta}\n"),
    )?;
    Some(file)
}

/// Writes the line of a low node, of a high one or of a leaf; false where it is to be branched.
fn write_end(alloc: Global, case: &Case<'_>, node: SmallNode, out: &mut String) -> Option<bool> {
    if migrated(case.classes, case.full & !node.outside) < case.low {
        out.push_str("low\n").ok()?;
        return Some(true);
    }
    if migrated(case.classes, node.inside) > case.high {
        out.push_str("high\n").ok()?;
        return Some(true);
    }
    write_leaf(alloc, case, node, out)
}

/// The two nodes of a branching, the one without the file last.
fn children(node: SmallNode, file: u32) -> [SmallNode; 2] {
    [
        SmallNode {
            inside: node.inside | bit(file),
            outside: node.outside,
        },
        SmallNode {
            inside: node.inside,
            outside: node.outside | bit(file),
        },
    ]
}

/// Writes the next node, and puts its children where it is branched.
fn write_node(
    alloc: Global,
    case: &Case<'_>,
    node: SmallNode,
    waiting: &mut Vec<SmallNode>,
    out: &mut String,
) -> Option<()> {
    if !write_end(alloc, case, node, out)? {
        let file = write_branch(alloc, case, node, out)?;
        waiting.extend_from_slice(&children(node, file)).ok()?;
    }
    Some(())
}

/// Writes a tree, its nodes in order: low and high ones where they are, leaves where multipliers are found, and
/// branchings elsewhere. None where not all nodes are closed.
fn write_tree(alloc: Global, case: &Case<'_>, root: SmallNode, out: &mut String) -> Option<()> {
    let mut waiting = Vec::from_slice(alloc, &[root]).ok()?;
    for _ in 0..64 {
        match waiting.pop() {
            Some(node) => write_node(alloc, case, node, &mut waiting, out)?,
            None => return Some(()),
        }
    }
    None
}

/// The admitted set that replicates least.
fn best_of(case: &Case<'_>, root: SmallNode) -> Option<u8> {
    let mut best = None;
    let mut least = i64::MAX;
    for set in 0..16u8 {
        let set = set.wrapping_mul(16);
        let moved = migrated(case.classes, set);
        let copied = replicated(case.classes, set);
        if set & !case.full == 0
            && is_member(root, set)
            && case.low <= moved
            && moved <= case.high
            && copied < least
        {
            best = Some(set);
            least = copied;
        }
    }
    best
}

/// The lines of an answer: optimal where a set is admitted and the answer is not left open, and infeasible where none is.
fn write_answer(
    alloc: Global,
    case: &mut Case<'_>,
    root: SmallNode,
    less: i64,
    out: &mut String,
) -> Option<()> {
    let Some(set) = best_of(case, root) else {
        return out
            .push_str("answer infeasible\nplan none\nbound none\n")
            .ok();
    };
    let (moved, copied) = (migrated(case.classes, set), replicated(case.classes, set));
    let lower = copied.wrapping_sub(less);
    let is_open = less != 0 && 0 <= lower;
    let (word, bound) = if is_open {
        ("open", lower)
    } else {
        ("optimal", copied)
    };
    case.bound = Some(bound);
    put(
        out,
        format!(in alloc; "answer {word}\nplan {set:02x} {moved} {copied}\nbound {bound}\n"),
    )
}

/// Two sets of files that are pinned, in one case of four.
fn drawn_pins(full: u8, numbers: &mut Numbers) -> Option<SmallNode> {
    let inside = bit(numbers.up_to(15) as u32) & full;
    let outside = bit(numbers.up_to(15) as u32) & full;
    if numbers.up_to(3) == 0 && inside & outside == 0 {
        Some(SmallNode { inside, outside })
    } else {
        None
    }
}

/// The first lines of a document.
fn first_lines(
    alloc: Global,
    low: u64,
    high: u64,
    pins: Option<SmallNode>,
) -> Result<String, AllocError> {
    match pins {
        Some(SmallNode { inside, outside }) => format!(in alloc;
            "goseed 2\nrange {low} {high}\npins {inside:02x} {outside:02x}\n"
        ),
        None => format!(in alloc; "goseed 1\nrange {low} {high}\n"),
    }
}

/// The text of a valid certificate for a table of so many files, at most four, and these classes; none where multipliers
/// are wanted that are not tried.
pub fn certificate(
    alloc: Global,
    files: u32,
    classes: &[SmallClass],
    numbers: &mut Numbers,
) -> Option<String> {
    let full = all_files(files);
    let low = numbers.up_to(60);
    let high = low + numbers.up_to(20);
    let pins = drawn_pins(full, numbers);
    let less = numbers.up_to(2) as i64;
    let root = pins.unwrap_or(SmallNode {
        inside: 0,
        outside: 0,
    });
    let mut case = Case {
        classes,
        full,
        low: low as i64,
        high: high as i64,
        bound: None,
    };
    let mut out = first_lines(alloc, low, high, pins).ok()?;
    write_answer(alloc, &mut case, root, less, &mut out)?;
    write_tree(alloc, &case, root, &mut out)?;
    out.push_str("end\n").ok()?;
    Some(out)
}
