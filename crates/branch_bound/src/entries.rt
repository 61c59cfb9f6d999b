// The store of a search's nodes: by number, in the order in which they were made, linked in preorder.
ghost use Rattle.std.specs.Prelude.{◌≡◌, ◌+◌, ◌<◌, ◌≤◌, ◌^◌, ◌∷◌, [], ℕ, Some, IfOk, OnOk, length};
ghost use Rattle.seed_model.specs.declared.node.Node.{Node};
ghost use Rattle.seed_model.specs.Nodes.{IsNode};
ghost use Rattle.branch_bound.specs.Entries.{entry_at, root_entry, child_entry, branched, child_node, AreOrigins, AreNodes};

use crate::entry::{Entry, Finding, Origin};
use seed_model::{NoMemory, Node};
use std::alloc::Global;
use std::marker::Model;

/// The nodes of a search by number, from 0 for its root; the children of a node have two numbers in a row, first the one
/// with the file outside.
#[derive(Drop)]
pub(crate) struct Entries {
    list: Vec<Entry>,
}

impl Model for Entries {
    ghost use Rattle.std.specs.Prelude.{List};
    ghost use Rattle.branch_bound.specs.declared.entry.Entry.{Entry};

    ghost Value = { List Entry };

    ghost view = { λ e. e.list.items };
}

impl Entries {
    /// The root alone.
    pub(crate) fn of_root(alloc: Global, finding: Finding) -> Result<Self, NoMemory>
        ensures { IfOk result (λ es. es ≡ root_entry finding ∷ []) }
    {
        let mut list = Vec::new(alloc);
        list.push(Entry {
            origin: None,
            finding,
            file: None,
            next: None,
        })?;
        Ok(Entries { list })
    }

    /// How many nodes there are.
    pub(crate) fn len(&self) -> usize
        ensures { result ≡ length self.now }
    {
        self.list.len()
    }

    /// A node by its number.
    pub(crate) fn get(&self, number: u32) -> &Entry
        requires { number < length self.now }
        ensures { result.now ≡ entry_at self.now number }
    {
        &self.list[number as usize]
    }

    /// Branches a node on a file: its children stand behind it in preorder, and behind them what stood behind it.
    pub(crate) fn branch(
        &mut self,
        number: u32,
        file: u32,
        out: Finding,
        inn: Finding,
    ) -> Result<(), NoMemory>
        requires inside { number < length self.old }
        requires few { length self.old + 2 ≤ 2 ^ 32 }
        ensures { OnOk result (self.new ≡ branched self.old number file out inn) }
    {
        let first = self.list.len() as u32;
        let behind = self.list[number as usize].next;
        let parent = &mut self.list[number as usize];
        parent.file = Some(file);
        parent.next = Some(first);
        self.list
            .push(child(number, file, false, out, Some(first + 1)))?;
        self.list.push(child(number, file, true, inn, behind))?;
        Ok(())
    }

    /// The node with a number: the root's sets, with each file that was put on one side on the way.
    pub(crate) fn node(&self, root: &Node, number: u32) -> Result<Node, NoMemory>
        requires inside { number < length self.now }
        requires root { length root.now.outside ≡ length root.now.inside }
        requires origins { AreOrigins (length root.now.inside) self.now }
        ensures inside { IfOk result (λ node. length node.inside ≡ length root.now.inside) }
        ensures outside { IfOk result (λ node. length node.outside ≡ length root.now.inside) }
        ensures node { IfOk result (λ node. (nodes : ℕ → Node) → AreNodes root.now self.now nodes → node ≡ nodes number) }
    {
        let mut node = Node {
            inside: root.inside.copy()?,
            outside: root.outside.copy()?,
        };
        let mut at = number;
        while let Some(origin) = self.get(at).origin {
            put(&mut node, origin);
            at = origin.parent;
        }
        Ok(node)
    }

    /// The child of a node with a file put on one side.
    pub(crate) fn child_node(
        &self,
        root: &Node,
        number: u32,
        file: u32,
        inside: bool,
    ) -> Result<Node, NoMemory>
        requires inside { number < length self.now }
        requires file { file < length root.now.inside }
        requires root { length root.now.outside ≡ length root.now.inside }
        requires origins { AreOrigins (length root.now.inside) self.now }
        ensures { IfOk result (λ node. (nodes : ℕ → Node) → AreNodes root.now self.now nodes → node ≡ child_node inside file (nodes number)) }
    {
        let mut node = self.node(root, number)?;
        let parent = number;
        put(
            &mut node,
            Origin {
                parent,
                file,
                inside,
            },
        );
        Ok(node)
    }
}

/// A child of a node, of which a file is put on one side.
fn child(parent: u32, file: u32, inside: bool, finding: Finding, next: Option<u32>) -> Entry
    ensures { result ≡ child_entry parent file inside finding next }
{
    Entry {
        origin: Some(Origin {
            parent,
            file,
            inside,
        }),
        finding,
        file: None,
        next,
    }
}

/// Puts the file on its side.
fn put(node: &mut Node, origin: Origin)
    requires inside { origin.file < length node.old.inside }
    requires outside { origin.file < length node.old.outside }
    ensures { node.new ≡ child_node origin.inside origin.file node.old }
{
    if origin.inside {
        node.inside.insert(origin.file);
    } else {
        node.outside.insert(origin.file);
    }
}
