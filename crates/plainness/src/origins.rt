//! From where edges lead to a number with something in the way, and to which.

ghost use Rattle.std.specs.Prelude.{◌≡◌, ◌<◌, ℕ, List, [], ◌∷◌, length, get_or, map, Some, None, is_some, IfOk, OnOk};
ghost use Rattle.inlining.specs.Found.{AreFound, IsGrown};
ghost use Rattle.inlining.specs.Inlining.{IsAmong, AreTargets};
ghost use Rattle.plainness.specs.Edges.{AreGiven, AreOrigins, IsHindered};

use crate::turned::turned;
use crate::unplain::Obstacle;
use std::alloc::{AllocError, Global};
use texts::List;

/// The numbers that are found, each once, and the origin of each.
#[derive(Drop)]
struct Walk {
    origins: Vec<Option<usize>>,
    numbers: List<usize>,
}

impl Walk {
    /// None is found, of that many numbers.
    fn new(alloc: Global, count: usize) -> Result<Walk, AllocError>
        ensures many { IfOk result (λ walk. length walk.origins.items ≡ count) }
        ensures none { IfOk result (λ walk. (n : ℕ) → get_or walk.origins.items n None ≡ None) }
        ensures numbers { IfOk result (λ walk. walk.numbers ≡ []) }
    {
        Ok(Walk {
            origins: vec![in alloc; None; count]?,
            numbers: List::new(alloc),
        })
    }

    /// The origin of a number that is found.
    fn origin(&self, number: usize) -> usize
        requires found { AreFound (map is_some self.now.origins.items) self.now.numbers }
        requires among { IsAmong number self.now.numbers }
        ensures { get_or self.now.origins.items number None ≡ Some result }
    {
        match self.origins[number] {
            Some(origin) => origin,
            None => unreachable!(),
        }
    }

    /// Adds the number with the origin where it is not found yet.
    fn add(&mut self, number: usize, origin: usize) -> Result<(), AllocError>
        requires within { number < length self.old.origins.items }
        requires found { AreFound (map is_some self.old.origins.items) self.old.numbers }
        ensures many { OnOk result
            (length self.new.origins.items ≡ length self.old.origins.items) }
        ensures found { OnOk result
            (AreFound (map is_some self.new.origins.items) self.new.numbers) }
        ensures grown { OnOk result (IsGrown self.old.numbers (number ∷ []) self.new.numbers) }
        ensures given { OnOk result
            (AreGiven self.old.origins.items (number ∷ []) origin self.new.origins.items) }
    {
        if self.origins[number].is_none() {
            self.numbers.push(number)?;
            self.origins[number] = Some(origin);
        }
        Ok(())
    }

    /// Adds those of the numbers that are not found yet with the origin.
    fn add_all(&mut self, numbers: &[usize], origin: usize) -> Result<(), AllocError>
        requires within { (n : ℕ) → IsAmong n numbers.now → n < length self.old.origins.items }
        requires found { AreFound (map is_some self.old.origins.items) self.old.numbers }
        ensures many { OnOk result
            (length self.new.origins.items ≡ length self.old.origins.items) }
        ensures found { OnOk result
            (AreFound (map is_some self.new.origins.items) self.new.numbers) }
        ensures grown { OnOk result (IsGrown self.old.numbers numbers.now self.new.numbers) }
        ensures given { OnOk result
            (AreGiven self.old.origins.items numbers.now origin self.new.origins.items) }
    {
        for number in numbers {
            self.add(*number, origin)?;
        }
        Ok(())
    }
}

/// Each number where something is in the way is its own origin.
fn hindered(alloc: Global, obstacles: &[Option<Obstacle>]) -> Result<Walk, AllocError>
    ensures many { IfOk result (λ walk. length walk.origins.items ≡ length obstacles.now) }
    ensures found { IfOk result
        (λ walk. AreFound (map is_some walk.origins.items) walk.numbers) }
    ensures own { IfOk result (λ walk. (n m : ℕ) → get_or walk.origins.items n None ≡ Some m
        → (m ≡ n) × IsHindered obstacles.now n) }
    ensures all { IfOk result
        (λ walk. (n : ℕ) → IsHindered obstacles.now n → IsAmong n walk.numbers) }
{
    let mut walk = Walk::new(alloc, obstacles.len())?;
    for number in 0..obstacles.len() {
        if obstacles[number].is_some() {
            walk.add(number, number)?;
        }
    }
    Ok(walk)
}

/// For each number from which edges lead to where something is in the way one such place, and none for the others. The time
/// is linear in the edges.
pub(crate) fn origins_of(
    alloc: Global,
    edges: &[List<usize>],
    obstacles: &[Option<Obstacle>],
) -> Result<Vec<Option<usize>>, AllocError>
    requires edges { AreTargets edges.now }
    requires many { length obstacles.now ≡ length edges.now }
    ensures { IfOk result (λ origins. AreOrigins edges.now obstacles.now origins.items) }
{
    let turned = turned(alloc, edges)?;
    let targets = turned.as_slice();
    let mut walk = hindered(alloc, obstacles)?;
    let mut place = 0_usize;
    while place < walk.numbers.len() {
        let number = walk.numbers.as_slice()[place];
        let origin = walk.origin(number);
        walk.add_all(targets[number].as_slice(), origin)?;
        place += 1;
    }
    Ok(walk.origins)
}
