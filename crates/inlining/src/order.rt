//! The depth of inlining, and an order in which each schema stands behind those that stand in it.

ghost use Rattle.std.specs.Prelude.{◌≡◌, ◌<◌, ◌≤◌, ◌+◌, [], ◌++◌, ℕ, false, length, MatchOption, IfOk, OnOk, IsTrue};
ghost use Rattle.inlining.specs.Depths.{IsDepth};
ghost use Rattle.inlining.specs.Inlining.{IsAmong, AreTargets, IsPath, IsAtMost, IsOrder};
ghost use Rattle.inlining.specs.Marks.{mark, are_marked, no_marks, next_marks, IsUnmarked, new_marks};

use std::alloc::{AllocError, Global};
use texts::List;

/// How deep instances stand in each other's schemas.
#[derive(Debug, Drop)]
pub enum Depth {
    /// No inline path is longer than it may be: each instance, once, behind those whose schemas stand in its own.
    Within(List<usize>),
    /// An inline path that is longer by one than it may be.
    Beyond(List<usize>),
}

/// The first of the targets that is not marked.
fn unmarked_target(targets: &[usize], marks: &[bool]) -> Option<usize>
    requires { (t : ℕ) → IsAmong t targets.now → t < length marks.now }
    ensures { MatchOption result (IsTrue (are_marked marks.now targets.now))
        (λ t. IsAmong t targets.now × (mark marks.now t ≡ false)) }
{
    for target in targets {
        if !marks[*target] {
            return Some(*target);
        }
    }
    None
}

/// The first instance that is not marked.
fn unmarked(marks: &[bool]) -> Option<usize>
    ensures { MatchOption result
        ((d : ℕ) → d < length marks.now → IsTrue (mark marks.now d))
        (λ d. (d < length marks.now) × (mark marks.now d ≡ false)) }
{
    for (place, mark) in marks.iter().enumerate() {
        if !*mark {
            return Some(place);
        }
    }
    None
}

/// No marks, for each instance.
fn no_marks(alloc: Global, targets: &[List<usize>]) -> Result<List<bool>, AllocError>
    ensures { IfOk result (λ marks. marks ≡ no_marks targets.now) }
{
    let mut marks = List::new(alloc);
    for _ in 0..targets.len() {
        marks.push(false)?;
    }
    Ok(marks)
}

/// The marks of the next round: of the instances whose targets are all marked.
fn next_marks(
    alloc: Global,
    targets: &[List<usize>],
    marks: &[bool],
) -> Result<List<bool>, AllocError>
    requires targets { AreTargets targets.now }
    requires marks { length marks.now ≡ length targets.now }
    ensures { IfOk result (λ next. next ≡ next_marks targets.now marks.now) }
{
    let mut next = List::new(alloc);
    for of in targets {
        next.push(unmarked_target(of.as_slice(), marks).is_none())?;
    }
    Ok(next)
}

/// Adds the instances that are marked and were not before.
fn push_marked(order: &mut List<usize>, before: &[bool], marks: &[bool]) -> Result<(), AllocError>
    requires { length before.now ≡ length marks.now }
    ensures { OnOk result
        (order.new ≡ order.old ++ new_marks before.now marks.now (length marks.now)) }
{
    for place in 0..marks.len() {
        if marks[place] && !before[place] {
            order.push(place)?;
        }
    }
    Ok(())
}

/// Marks instances in rounds, of which the first marks none, until each is marked or there are `most` more; and adds to the order
/// what they mark. The first instance that is not marked then.
fn mark_all(
    alloc: Global,
    targets: &[List<usize>],
    most: usize,
    rounds: &mut List<List<bool>>,
    order: &mut List<usize>,
) -> Result<Option<usize>, AllocError>
    requires targets { AreTargets targets.now }
    requires rounds { rounds.old ≡ [] }
    requires order { order.old ≡ [] }
    ensures { IfOk result (λ first. MatchOption first
        (IsAtMost most targets.now × IsOrder targets.now order.new)
        (IsUnmarked targets.now most rounds.new)) }
{
    rounds.push(no_marks(alloc, targets)?)?;
    for round in 0..most {
        let marks = rounds.as_slice()[round].as_slice();
        if unmarked(marks).is_none() {
            return Ok(None);
        }
        let next = next_marks(alloc, targets, marks)?;
        push_marked(order, marks, next.as_slice())?;
        rounds.push(next)?;
    }
    Ok(unmarked(rounds.as_slice()[most].as_slice()))
}

/// An inline path that begins with an instance that the last round did not mark. It has as many instances as there are rounds.
fn path_from(
    alloc: Global,
    targets: &[List<usize>],
    rounds: &[List<bool>],
    most: usize,
    first: usize,
) -> Result<List<usize>, AllocError>
    requires targets { AreTargets targets.now }
    requires unmarked { IsUnmarked targets.now most rounds.now first }
    ensures path { IfOk result (λ path. IsPath targets.now path) }
    ensures length { IfOk result (λ path. length path ≡ most + 1) }
{
    let mut path = List::new(alloc);
    let mut place = first;
    let mut left = most;
    while left > 0 {
        left -= 1;
        path.push(place)?;
        let of = targets[place].as_slice();
        place = match unmarked_target(of, rounds[left].as_slice()) {
            Some(target) => target,
            None => unreachable!(),
        };
    }
    path.push(place)?;
    Ok(path)
}

/// How deep instances stand in each other's schemas, where each has its targets: the instances whose schemas stand in
/// its own, by their places. An inline path may have at most as many instances as `most`. Each round goes over all
/// targets, and there are no more rounds than `most`, nor than the longest inline path has instances. It can only want
/// memory.
pub fn inline_order(
    alloc: Global,
    targets: &[List<usize>],
    most: usize,
) -> Result<Depth, AllocError>
    requires { AreTargets targets.now }
    ensures { IfOk result (λ depth. IsDepth most targets.now depth) }
{
    let mut rounds = List::new(alloc);
    let mut order = List::new(alloc);
    match mark_all(alloc, targets, most, &mut rounds, &mut order)? {
        None => Ok(Depth::Within(order)),
        Some(first) => {
            let path = path_from(alloc, targets, rounds.as_slice(), most, first)?;
            Ok(Depth::Beyond(path))
        }
    }
}
