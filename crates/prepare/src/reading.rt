//! A file whose trees are read some at a time, and dropped once they are gone through.

ghost use Rattle.std.specs.Prelude.{◌≡◌, ◌≤◌, ◌<◌, ◌-◌, ◌⊎◌, ℕ, List as Items, length, drop, reverse, true, false, IfOk, OnOk};
ghost use Rattle.diag.specs.Refusal.{Refuses};
ghost use Rattle.tokens.specs.Trees.{Tree};
ghost use Rattle.lexing.specs.Cut.{IsDepthError, IsSyntaxError};
ghost use Rattle.prepare.specs.Reading.{window_of, to_read, Reads, Grows, ReadsToEnd, IsBehindInner};

use crate::attributes::after_inner;
use diag::DeriveError;
use lexing::Chunks;
use std::alloc::{AllocError, Global};
use texts::List;
use tokens::TokenTree;

/// So many trees behind inner attributes show that none of them begins one more, which is `#`, `!` and a group.
const ENOUGH: usize = 3;

/// The trees of a source, some of which are read and not gone through.
#[derive(Drop)]
pub struct Reading<'s> {
    pub chunks: Chunks<'s>,
    pub window: List<TokenTree>,
    /// Whether no more trees follow.
    pub is_whole: bool,
}

/// The last of the trees, so many, the last one first.
fn last_reversed(
    alloc: Global,
    trees: &mut List<TokenTree>,
    count: usize,
) -> Result<List<TokenTree>, AllocError>
    requires { count ≤ length trees.old }
    ensures { IfOk result (λ last. last ≡ reverse (drop (length trees.old - count) trees.old)) }
{
    let mut last = List::new(alloc);
    for i in 0..count {
        let tree = trees.remove(trees.len() - 1);
        last.push(tree)?;
    }
    Ok(last)
}

impl<'s> Reading<'s> {
    /// The source, of which no tree is read.
    pub fn new(alloc: Global, source: &'s str) -> Result<Reading<'s>, DeriveError>
        ensures begun { IfOk result (λ r. Reads source.now r (window_of r)) }
        ensures refused { Refuses result (IsSyntaxError source.now) }
    {
        Ok(Reading {
            chunks: Chunks::new(alloc, source)?,
            window: List::new(alloc),
            is_whole: false,
        })
    }

    /// Reads on until the trees that are not gone through are twice as many, or the source ends.
    pub fn read_on(&mut self, alloc: Global) -> Result<(), DeriveError>
        requires begun { (source : Items ℕ) × (seen : Items Tree) × Reads source self.old seen }
        requires goes_on { self.old.is_whole ≡ false }
        ensures grows { (source : Items ℕ) (seen : Items Tree) → Reads source self.old seen
            → OnOk result (Grows source self.old self.new seen) }
        ensures shorter { OnOk result (to_read self.new < to_read self.old) }
        ensures refused { (source : Items ℕ) (seen : Items Tree) → Reads source self.old seen
            → Refuses result (λ e. IsDepthError source e ⊎ IsSyntaxError source e) }
    {
        let had = self.window.len();
        'chunks: loop {
            match self.chunks.next(alloc)? {
                Some(chunk) => self.window.append(chunk)?,
                None => {
                    self.is_whole = true;
                    return Ok(());
                }
            }
            if self.window.len() / 2 > had {
                return Ok(());
            }
        }
    }

    /// Whether trees that follow may be inner attributes.
    fn may_go_on(&self) -> bool
        ensures more { result ≡ true → self.now.is_whole ≡ false }
        ensures enough { result ≡ false → IsBehindInner self.now }
    {
        !self.is_whole && after_inner(self.window.as_slice()).len() < ENOUGH
    }

    /// Reads on until no tree that follows can be an inner attribute.
    pub fn read_inner(&mut self, alloc: Global) -> Result<(), DeriveError>
        requires begun { (source : Items ℕ) × Reads source self.old (window_of self.old) }
        ensures grows { (source : Items ℕ) → Reads source self.old (window_of self.old)
            → OnOk result (Reads source self.new (window_of self.new)) }
        ensures behind { OnOk result (IsBehindInner self.new) }
        ensures refused { (source : Items ℕ) → Reads source self.old (window_of self.old)
            → Refuses result (λ e. IsDepthError source e ⊎ IsSyntaxError source e) }
    {
        'inner: while self.may_go_on() {
            self.read_on(alloc)?;
        }
        Ok(())
    }

    /// Drops the trees that are gone through: all but for the last, so many.
    pub fn keep(&mut self, alloc: Global, count: usize) -> Result<(), AllocError>
        requires { count ≤ length self.old.window }
        ensures window { OnOk result
            (self.new.window ≡ drop (length self.old.window - count) self.old.window) }
        ensures chunks { OnOk result (self.new.chunks ≡ self.old.chunks) }
        ensures whole { OnOk result (self.new.is_whole ≡ self.old.is_whole) }
    {
        let mut last = last_reversed(alloc, &mut self.window, count)?;
        self.window = last_reversed(alloc, &mut last, count)?;
        Ok(())
    }

    /// Reads the source to its end, and keeps none of its trees.
    pub fn read_to_end(&mut self, alloc: Global) -> Result<(), DeriveError>
        requires begun { (source : Items ℕ) × (seen : Items Tree) × Reads source self.old seen }
        ensures ends { (source : Items ℕ) (seen : Items Tree) → Reads source self.old seen
            → OnOk result (ReadsToEnd source self.old seen) }
        ensures refused { (source : Items ℕ) (seen : Items Tree) → Reads source self.old seen
            → Refuses result (λ e. IsDepthError source e ⊎ IsSyntaxError source e) }
    {
        'chunks: while !self.is_whole {
            let chunk = self.chunks.next(alloc)?;
            self.is_whole = chunk.is_none();
        }
        Ok(())
    }
}
