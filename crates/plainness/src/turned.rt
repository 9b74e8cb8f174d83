//! Edges turned round.

ghost use Rattle.std.specs.Prelude.{◌≡◌, ◌<◌, ℕ, length, IfOk, OnOk};
ghost use Rattle.inlining.specs.Inlining.{IsAmong, AreTargets, targets_of};
ghost use Rattle.plainness.specs.Edges.{AreAdded, AreTurned};

use std::alloc::{AllocError, Global};
use texts::List;

/// So many empty lists.
fn none_of(alloc: Global, many: usize) -> Result<Vec<List<usize>>, AllocError>
    ensures many { IfOk result (λ lists. length lists.items ≡ many) }
    ensures none { IfOk result (λ lists. (n m : ℕ) → ¬ (IsAmong m (targets_of lists.items n))) }
{
    let mut lists = Vec::new(alloc);
    for _ in 0..many {
        lists.push(List::new(alloc))?;
    }
    Ok(lists)
}

/// Adds the number to the lists of the places.
fn add_to(lists: &mut [List<usize>], places: &[usize], number: usize) -> Result<(), AllocError>
    requires { (m : ℕ) → IsAmong m places.now → m < length lists.old }
    ensures { OnOk result (AreAdded lists.old places.now number lists.new) }
{
    for place in places {
        lists[*place].push(number)?;
    }
    Ok(())
}

/// From each number to those that have it among theirs.
pub(crate) fn turned(alloc: Global, edges: &[List<usize>]) -> Result<Vec<List<usize>>, AllocError>
    requires { AreTargets edges.now }
    ensures { IfOk result (λ turned. AreTurned edges.now turned.items) }
{
    let mut turned = none_of(alloc, edges.len())?;
    for from in 0..edges.len() {
        add_to(turned.as_mut_slice(), edges[from].as_slice(), from)?;
    }
    Ok(turned)
}
