//! Reading a source's token trees, some at a time.

ghost use Rattle.std.specs.Prelude.{◌≡◌, ◌<◌, ◌⊎◌, IfOk, IfErr, OnErr, OnSome};
ghost use Rattle.diag.specs.Refusal.{Refuses};
ghost use Rattle.tokens.specs.Trees.{Trees, end, trees_view};
ghost use Rattle.lexing.specs.Nesting.{joined};
ghost use Rattle.lexing.specs.Cut.{IsDepthError, IsSyntaxError, IsUnread};

use crate::lexer::refusal;
use crate::nest::{self, MAX_DEPTH};
use crate::piece::LexError;
use crate::raw::MORE_HASHES;
use crate::scan;
use diag::DeriveError;
use std::alloc::Global;
use texts::List;
use tokens::TokenTree;

/// The token trees of a source, some at a time: each call hands out those up to the end of an item, and nothing is kept of
/// them.
#[derive(Drop)]
pub struct Chunks<'s> {
    source: &'s str,
    rest: &'s str,
    /// With how many signs `#` no raw string in the rest is closed.
    unclosed: usize,
}

impl<'s> Chunks<'s> {
    ghost use Rattle.lexing.specs.Chunks.{IsReadTo, GoesOn, left_of};

    /// The source, of which no tree is handed out yet. It is gone through once, and a refusal is of kind `Syntax` and has the
    /// span of the first character at which it cannot be cut.
    pub fn new(alloc: Global, source: &'s str) -> Result<Chunks<'s>, DeriveError>
        ensures begun { IfOk result (λ c. IsReadTo c end) }
        ensures source { IfOk result (λ c. c.source.now ≡ source.now) }
        ensures refused { Refuses result (IsSyntaxError source.now) }
    {
        let mut rest = source;
        let mut unclosed = MORE_HASHES;
        'fronts: while !rest.is_empty() {
            match scan::cut_front(alloc, source, rest, unclosed, true) {
                Ok(front) => {
                    rest = front.rest;
                    unclosed = front.unclosed;
                }
                Err(e) => return Err(refusal(alloc, e)),
            }
        }
        Ok(Chunks {
            source,
            rest: source,
            unclosed: MORE_HASHES,
        })
    }

    /// The trees that come next, with what is left behind them.
    fn step(&self, alloc: Global) -> Result<(List<TokenTree>, Chunks<'s>), LexError>
        requires begun { (trees : Trees) × IsReadTo self.now trees }
        ensures source { IfOk result (λ p. p.1.source ≡ self.now.source) }
        ensures goes_on { (trees : Trees) → IsReadTo self.now trees
            → IfOk result (λ p. IsReadTo p.1 (joined trees (trees_view p.0))) }
        ensures shorter { 0 < left_of self.now
            → IfOk result (λ p. left_of p.1 < left_of self.now) }
        ensures refused { IfErr result (IsUnread self.now.source.now) }
    {
        let source = self.source;
        match scan::cut_front(alloc, source, self.rest, self.unclosed, true) {
            Err(e) => Err(e),
            Ok(front) => {
                let pieces = front.pieces.as_slice();
                let (trees, closing) = nest::trees_at(alloc, source, pieces, MAX_DEPTH)?;
                match nest::split_first_piece(closing) {
                    Some((piece, _)) => Err(LexError::Stopped(piece.span)),
                    None => {
                        let (rest, unclosed) = (front.rest, front.unclosed);
                        Ok((
                            trees,
                            Chunks {
                                source,
                                rest,
                                unclosed,
                            },
                        ))
                    }
                }
            }
        }
    }

    /// The trees that come next, at least one piece of the source further, or nothing at its end.
    ///
    /// A refusal of kind `Syntax` has the span of a closing bracket that matches nothing or the wrong bracket, or of the end
    /// of the source where a bracket is never closed. One of kind `TooDeep` has the span of the first bracket that opens
    /// inside 64 others. It changes nothing, and comes again.
    pub fn next(&mut self, alloc: Global) -> Result<Option<List<TokenTree>>, DeriveError>
        requires begun { (trees : Trees) × IsReadTo self.old trees }
        ensures source { self.new.source ≡ self.old.source }
        ensures goes_on { (trees : Trees) → IsReadTo self.old trees
            → IfOk result (GoesOn self.old self.new trees) }
        ensures shorter { IfOk result (λ chunk. OnSome chunk (left_of self.new < left_of self.old)) }
        ensures refused { Refuses result (λ e. IsDepthError self.old.source.now e
            ⊎ IsSyntaxError self.old.source.now e) }
        ensures kept { OnErr result (self.new ≡ self.old) }
    {
        if self.rest.is_empty() {
            return Ok(None);
        }
        match self.step(alloc) {
            Err(e) => Err(refusal(alloc, e)),
            Ok((trees, after)) => {
                *self = after;
                Ok(Some(trees))
            }
        }
    }
}
