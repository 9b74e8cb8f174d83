//! Which instances are shown, and which of them are components.

ghost use Rattle.std.specs.Prelude.{◌≡◌, ◌<◌, ◌↔◌, ℕ, [], ◌∷◌, length, IfOk, OnOk, IsTrue};
ghost use Rattle.inlining.specs.Found.{AreFound, AreNone, IsGrown};
ghost use Rattle.inlining.specs.Inlining.{IsAmong, AreOnce, AreTargets, targets_of};
ghost use Rattle.inlining.specs.Marks.{mark};
ghost use Rattle.inlining.specs.Shown.{IsShown, IsComponent};

use std::alloc::{AllocError, Global};
use texts::List;

/// Which instances are shown, and which of them are components.
#[derive(Debug, Drop)]
pub struct Shown {
    /// Whether each is shown.
    pub marks: List<bool>,
    /// The components, each once.
    pub components: List<usize>,
}

impl Shown {
    /// The instances that are marked are shown.
    fn new(alloc: Global, marks: &[bool], components: List<usize>) -> Result<Shown, AllocError>
        ensures marks { IfOk result (λ s. s.marks ≡ marks.now) }
        ensures components { IfOk result (λ s. s.components ≡ components) }
    {
        let mut shown = Shown {
            marks: List::new(alloc),
            components,
        };
        for mark in marks {
            shown.marks.push(*mark)?;
        }
        Ok(shown)
    }
}

/// Instances that are found, each once, and for each of all whether it is.
#[derive(Drop)]
struct Found {
    marks: Vec<bool>,
    numbers: List<usize>,
}

impl Found {
    /// None, of that many instances.
    fn new(alloc: Global, count: usize) -> Result<Found, AllocError>
        ensures { IfOk result (λ f. AreNone count f.marks.items f.numbers) }
    {
        Ok(Found {
            marks: vec![in alloc; false; count]?,
            numbers: List::new(alloc),
        })
    }

    /// Adds the instance where it is not found yet.
    fn add(&mut self, number: usize) -> Result<(), AllocError>
        requires within { number < length self.old.marks.items }
        requires found { AreFound self.old.marks.items self.old.numbers }
        ensures many { OnOk result
            (length self.new.marks.items ≡ length self.old.marks.items) }
        ensures found { OnOk result (AreFound self.new.marks.items self.new.numbers) }
        ensures grown { OnOk result (IsGrown self.old.numbers (number ∷ []) self.new.numbers) }
    {
        if !self.marks[number] {
            self.numbers.push(number)?;
            self.marks[number] = true;
        }
        Ok(())
    }

    /// Adds those of the instances that are not found yet.
    fn add_all(&mut self, numbers: &[usize]) -> Result<(), AllocError>
        requires within { (n : ℕ) → IsAmong n numbers.now → n < length self.old.marks.items }
        requires found { AreFound self.old.marks.items self.old.numbers }
        ensures many { OnOk result
            (length self.new.marks.items ≡ length self.old.marks.items) }
        ensures found { OnOk result (AreFound self.new.marks.items self.new.numbers) }
        ensures grown { OnOk result (IsGrown self.old.numbers numbers.now self.new.numbers) }
    {
        for number in numbers {
            self.add(*number)?;
        }
        Ok(())
    }
}

/// Finds what is shown, and what of it is a component, where none is found yet.
fn find(
    first: &[usize],
    targets: &[List<usize>],
    references: &[List<usize>],
    found: &mut Found,
    components: &mut Found,
) -> Result<(), AllocError>
    requires first { (n : ℕ) → IsAmong n first.now → n < length targets.now }
    requires targets { AreTargets targets.now }
    requires references { (n m : ℕ) → IsAmong m (targets_of references.now n)
        → m < length targets.now }
    requires many { length references.now ≡ length targets.now }
    requires found { AreNone (length targets.now) found.old.marks.items found.old.numbers }
    requires components { AreNone (length targets.now)
        components.old.marks.items components.old.numbers }
    ensures many { OnOk result (length found.new.marks.items ≡ length targets.now) }
    ensures shown { OnOk result ((n : ℕ) → IsTrue (mark found.new.marks.items n)
        ↔ IsShown first.now targets.now references.now n) }
    ensures once { OnOk result (AreOnce components.new.numbers) }
    ensures components { OnOk result ((n : ℕ) → IsAmong n components.new.numbers
        ↔ IsComponent first.now targets.now references.now n) }
{
    found.add_all(first)?;
    components.add_all(first)?;
    let mut place = 0_usize;
    while place < found.numbers.len() {
        let number = found.numbers.as_slice()[place];
        let referred = references[number].as_slice();
        found.add_all(targets[number].as_slice())?;
        found.add_all(referred)?;
        components.add_all(referred)?;
        place += 1;
    }
    Ok(())
}

/// Which instances are shown, and which of them are components. The first are both, and so is what a shown one refers to; the
/// targets of a shown one are shown. The time is linear in all that is given. It can only want memory.
pub fn find_shown(
    alloc: Global,
    first: &[usize],
    targets: &[List<usize>],
    references: &[List<usize>],
) -> Result<Shown, AllocError>
    requires first { (n : ℕ) → IsAmong n first.now → n < length targets.now }
    requires targets { AreTargets targets.now }
    requires references { (n m : ℕ) → IsAmong m (targets_of references.now n)
        → m < length targets.now }
    requires many { length references.now ≡ length targets.now }
    ensures many { IfOk result (λ s. length s.marks ≡ length targets.now) }
    ensures shown { IfOk result (λ s. (n : ℕ) → IsTrue (mark s.marks n)
        ↔ IsShown first.now targets.now references.now n) }
    ensures once { IfOk result (λ s. AreOnce s.components) }
    ensures components { IfOk result (λ s. (n : ℕ) → IsAmong n s.components
        ↔ IsComponent first.now targets.now references.now n) }
{
    let mut found = Found::new(alloc, targets.len())?;
    let mut components = Found::new(alloc, targets.len())?;
    find(first, targets, references, &mut found, &mut components)?;
    Shown::new(alloc, found.marks.as_slice(), components.numbers)
}
