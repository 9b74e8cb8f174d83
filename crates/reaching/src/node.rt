ghost use Rattle.std.specs.Prelude.{◌≡◌, ◌++◌, IfOk, OnOk};
ghost use Rattle.reaching.specs.Reached.{node_of};

use std::alloc::{AllocError, Global};
use texts::{List, Text};

/// A node: its name, whether it is first, which it is whoever names it, and the names that it names.
#[derive(Debug, Drop)]
pub struct Node {
    pub name: Text,
    pub is_first: bool,
    pub names: List<Text>,
}

/// A node of which the name and the names that it names stand elsewhere.
#[derive(Clone, Copy, Debug)]
pub struct NodeRef<'n> {
    pub name: &'n str,
    pub is_first: bool,
    pub names: &'n [Text],
}

/// Adds copies of the names.
fn push_copies(alloc: Global, copies: &mut List<Text>, names: &[Text]) -> Result<(), AllocError>
    ensures { OnOk result (copies.new ≡ copies.old ++ names.now) }
{
    let mut rest = names;
    'names: while let [first, after @ ..] = rest {
        copies.push(first.copy(alloc)?)?;
        rest = after;
    }
    Ok(())
}

impl Node {
    /// Another node of the same name, which names the same.
    pub fn copy(&self, alloc: Global) -> Result<Node, AllocError>
        ensures { IfOk result (λ copy. copy ≡ self.now) }
    {
        let mut names = List::new(alloc);
        push_copies(alloc, &mut names, self.names.as_slice())?;
        Ok(Node {
            name: self.name.copy(alloc)?,
            is_first: self.is_first,
            names,
        })
    }

    /// The node, borrowed.
    pub fn borrowed(&self) -> NodeRef<'_>
        ensures { node_of result ≡ self.now }
    {
        NodeRef {
            name: self.name.as_str(),
            is_first: self.is_first,
            names: self.names.as_slice(),
        }
    }
}
