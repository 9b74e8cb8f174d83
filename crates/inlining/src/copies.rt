//! How many copies of schemas stand in all.

ghost use Rattle.std.specs.Prelude.{◌≡◌, ◌<◌, ◌↔◌, ℕ, length, slice_index, IfOk, IsTrue};
ghost use Rattle.inlining.specs.Counts.{saturated, count_of};
ghost use Rattle.inlining.specs.Inlining.{IsAmong, IsOrder, IsAtMost, sum_of, copies};

use std::alloc::{AllocError, Global};
use texts::List;

/// How many copies stand where the schema of an instance with these targets stands, where the copies of its targets are
/// counted.
fn count_of(targets: &[usize], counts: &[usize]) -> usize
    requires { (t : ℕ) → IsAmong t targets.now → t < length counts.now }
    ensures { result ≡ count_of counts.now targets.now }
{
    let mut count = 1_usize;
    for target in targets {
        count = count.saturating_add(counts[*target]);
    }
    count
}

/// How many copies of the counted instances stand in all, each as often as it is given, where those of each instance are
/// counted.
fn total_of(counts: &[usize], counted: &[usize]) -> usize
    requires { (n : ℕ) → IsAmong n counted.now → n < length counts.now }
    ensures { result ≡ saturated (sum_of (slice_index counts.now) counted.now) }
{
    let mut total = 0_usize;
    for number in counted {
        total = total.saturating_add(counts[*number]);
    }
    total
}

/// Whether more copies of the schemas of the counted instances stand in all than the limit. Where the schema of an instance
/// stands, those of its targets stand too, each as often as it is given. The order has each instance behind its targets, and
/// no inline path has more instances than `most`. It can only want memory.
pub fn are_more_copies(
    alloc: Global,
    targets: &[List<usize>],
    order: &[usize],
    counted: &[usize],
    most: usize,
    limit: usize,
) -> Result<bool, AllocError>
    requires order { IsOrder targets.now order.now }
    requires depth { IsAtMost most targets.now }
    requires counted { (n : ℕ) → IsAmong n counted.now → n < length targets.now }
    requires limit { limit < usize.MAX }
    ensures { IfOk result (λ more. IsTrue more
        ↔ (limit < sum_of (copies targets.now most) counted.now)) }
{
    let mut counts = vec![in alloc; 0; targets.len()]?;
    for place in order {
        let count = count_of(targets[*place].as_slice(), counts.as_slice());
        counts[*place] = count;
    }
    Ok(limit < total_of(counts.as_slice(), counted))
}
