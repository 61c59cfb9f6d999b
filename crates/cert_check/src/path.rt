// The way from the root of a tree to the node in work.
ghost use Rattle.std.specs.Prelude.{◌≡◌, ◌∷◌, [], ◌<◌, length, drop, true, Some, IfNone, IfOk};
ghost use Rattle.seed_model.specs.Nodes.{put_inside, put_outside, is_free, undecided_node};
ghost use Rattle.bound_cert.specs.Judgements.{Told};
ghost use Rattle.bound_cert.specs.Lines.{Pinned};
ghost use Rattle.bound_cert.specs.Sets.{root_of};
ghost use Rattle.cert_rules.specs.Judged.{Judges};
ghost use Rattle.cert_check.specs.Paths.{node_in};

use cert_rules::judge_pins;
use seed_model::{NoMemory, Node, Table, undecided};
use std::alloc::Global;
use std::marker::Model;

/// The side of a node on which a branching puts its file.
#[derive(Clone, Copy, Debug, PartialEq, Eq)]
pub(crate) enum Side {
    Outside,
    Inside,
}

/// A step down a tree: the file of the branching, and to which child it leads.
#[derive(Clone, Copy)]
pub(crate) struct Step {
    file: u32,
    side: Side,
}

/// The nodes of a tree that are still to be read in preorder, kept as the node in work and the steps that lead to it from
/// the root. All its memory is taken when it is made. A clause sees the root, and the list of those nodes with the one
/// in work first.
#[derive(Drop)]
pub(crate) struct Path {
    node: Node,
    steps: Vec<Step>,
    depth: usize,
    reads: bool,
}

impl Model for Path {
    ghost use Rattle.cert_check.specs.Paths.{PathValue, IsPath, top, waiting_of};

    ghost Value = { PathValue };

    ghost view = { λ p. record { root = top p.steps.items p.depth p.node; waiting = waiting_of p.reads p.steps.items p.depth p.node } };

    ghost invariant = { λ p. IsPath p.steps.items p.depth p.node p.reads };
}

impl Path {
    /// A path at a root in which no file of so many is decided, with nothing to be read.
    pub(crate) fn new(alloc: Global, files: u32) -> Result<Path, NoMemory>
        ensures root { IfOk result (λ p. p.root ≡ undecided_node files) }
        ensures waiting { IfOk result (λ p. p.waiting ≡ []) }
    {
        let first = Step {
            file: 0,
            side: Side::Outside,
        };
        let steps = vec![in alloc; first; files as usize]?;
        Ok(Path {
            node: undecided(alloc, files)?,
            steps,
            depth: 0,
            reads: false,
        })
    }

    /// Begins to read at the root.
    pub(crate) fn begin(&mut self)
        requires { self.old.waiting ≡ [] }
        ensures root { self.new.root ≡ self.old.root }
        ensures waiting { self.new.waiting ≡ self.old.root ∷ [] }
    {
        self.reads = true;
    }

    /// The root, where nothing is to be read.
    pub(crate) fn root(&self) -> &Node
        requires { self.now.waiting ≡ [] }
        ensures { result.now ≡ self.now.root }
    {
        &self.node
    }

    /// Reads pins into the root, where nothing is to be read, and judges their line.
    pub(crate) fn pin(&mut self, table: &Table, go: &[u8], stay: &[u8]) -> Option<u8>
        requires waiting { self.old.waiting ≡ [] }
        requires inside { length self.old.root.inside ≡ table.now.files }
        requires outside { length self.old.root.outside ≡ table.now.files }
        ensures judged { (told : Told) → Judges table.now told (Pinned go.now stay.now) result }
        ensures root { IfNone result (self.new.root ≡ root_of table.now.files (Some (record { go = go.now; stay = stay.now }))) }
        ensures inside { length self.new.root.inside ≡ table.now.files }
        ensures outside { length self.new.root.outside ≡ table.now.files }
        ensures waiting { self.new.waiting ≡ [] }
    {
        judge_pins(table, go, stay, &mut self.node)
    }

    /// The node in work.
    pub(crate) fn node(&self) -> &Node
        requires { 0 < length self.now.waiting }
        ensures { self.now.waiting ≡ result.now ∷ drop 1 self.now.waiting }
    {
        &self.node
    }

    /// Reads a branching: the children of the node in work are read next, the out child first.
    pub(crate) fn branch(&mut self, file: u32)
        requires some { 0 < length self.old.waiting }
        requires known { file < length (node_in self.old).inside }
        requires free { is_free (node_in self.old) file ≡ true }
        ensures root { self.new.root ≡ self.old.root }
        ensures waiting { self.new.waiting ≡ put_outside file (node_in self.old) ∷ put_inside file (node_in self.old) ∷ drop 1 self.old.waiting }
    {
        prove!(self.depth < self.steps.len());
        self.steps[self.depth] = Step {
            file,
            side: Side::Outside,
        };
        self.depth += 1;
        self.node.outside.insert(file);
    }

    /// Reads a leaf: the node in work is done.
    pub(crate) fn close(&mut self)
        requires { 0 < length self.old.waiting }
        ensures root { self.new.root ≡ self.old.root }
        ensures waiting { self.new.waiting ≡ drop 1 self.old.waiting }
    {
        while self.depth > 0 {
            let at = self.depth - 1;
            let step = self.steps[at];
            match step.side {
                Side::Inside => {
                    self.node.inside.remove(step.file);
                    self.depth = at;
                }
                Side::Outside => {
                    self.node.outside.remove(step.file);
                    self.node.inside.insert(step.file);
                    self.steps[at] = Step {
                        file: step.file,
                        side: Side::Inside,
                    };
                    return;
                }
            }
        }
        self.reads = false;
    }

    /// The root, once every node is read.
    pub(crate) fn into_root(self) -> Node
        requires { self.waiting ≡ [] }
        ensures { result ≡ self.root }
    {
        self.node
    }
}
