//! From a source to its declarations.

ghost use Rattle.std.specs.Prelude.{◌⊎◌, map, IfOk};
ghost use Rattle.diag.specs.Refusal.{Refuses};
ghost use Rattle.texts.specs.declared.span.Span.{Span};
ghost use Rattle.words.specs.Words.{words_view};
ghost use Rattle.words.specs.Reading.{Gives};
ghost use Rattle.syntax.specs.Items.{declaration_view, declarations_view};
ghost use Rattle.syntax.specs.ItemDepth.{within_levels};
ghost use Rattle.syntax.specs.ItemReading.{source_at};
ghost use Rattle.syntax.specs.Source.{Reads, NestsTooDeep, IsUnreadable, IsTooDeep};

use crate::beginning::after_inner;
use crate::item::{Declaration, Declarations};
use crate::items::items_of;
use diag::DeriveError;
use lexing::{deep_brackets_nest_deep, lex, one_cut};
use std::alloc::Global;
use texts::List;
use tokens::TokenTree;
use type_grammar::refusal_of;
use words::Stop;

/// All of the trees, as a source.
#[tactic(auto, unfolding(crate::specs::ItemReading::source_at))]
fn source_of(alloc: Global, trees: &[TokenTree]) -> Result<List<Declaration>, Stop>
    ensures { Gives (λ items. map declaration_view items) result
        (source_at within_levels (words_view trees.now)) }
{
    items_of(alloc, after_inner(trees))
}

/// The declarations of the source, by the grammar of items.
///
/// A refusal of kind `Syntax` has a span of the source: where it cannot be cut, as `lex` says; or that of the token or
/// opening bracket that reading could not go on with, of the closing bracket of a group that ended too soon, or of the
/// end of the source. One of kind `TooDeep` has the span of the first bracket that opens inside 64 others or, where there
/// is none, of the first token of the first part of a type that begins 64 levels further in.
pub fn parse_declarations(alloc: Global, source: &str) -> Result<Declarations, DeriveError>
    ensures found { IfOk result (λ ds. Reads source.now (declarations_view ds)) }
    ensures shallow { IfOk result (λ _. (span : Span) → ¬ (NestsTooDeep source.now span)) }
    ensures refused { Refuses result (λ e. IsTooDeep source.now e ⊎ IsUnreadable source.now e) }
{
    let trees = lex(alloc, source)?;
    // The source has no other trees, so what cannot be read of these cannot be read at all.
    one_cut();
    deep_brackets_nest_deep();
    match source_of(alloc, trees.as_slice()) {
        Ok(items) => Ok(Declarations { items }),
        Err(stop) => Err(refusal_of(alloc, stop, source.len())),
    }
}
