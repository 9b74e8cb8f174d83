//! What a file has for schemas, each by its own text and its place.

ghost use Rattle.std.specs.Prelude.{◌≡◌, ◌⊎◌, ◌++◌, slice_range, IfOk, OnOk};
ghost use Rattle.diag.specs.Refusal.{Refuses};
ghost use Rattle.texts.specs.declared.span.Span.{Span as AnySpan};
ghost use Rattle.lexing.specs.Cut.{IsDepthError, OpensTooDeep};
ghost use Rattle.prepare.specs.FileItems.{IsSlice, HasSlices, AreSlices, item_of_span, items_in, AreItemsOf, impl_of_span, impls_in, AreImplsOf, alias_of_span, aliases_in, AreAliasesOf};
ghost use Rattle.prepare.specs.Prepared.{IsNoFile};
ghost use Rattle.telling.specs.Places.{place_between};

use crate::file::standing_in;
use crate::file_items::{FileAlias, FileImpl, FileItem};
use crate::item::{Standing, Stands};
use diag::DeriveError;
use reaching::Node;
use std::alloc::{AllocError, Global};
use telling::{Place, Places};
use texts::{List, Span, Text};

/// The declarations of a file, its impls of serde's traits that are written by hand, and its aliases.
#[derive(Debug, Drop)]
pub struct FileParts {
    pub items: List<FileItem>,
    pub impls: List<FileImpl>,
    pub aliases: List<FileAlias>,
}

/// The spans.
fn copied(alloc: Global, spans: &[Span]) -> Result<List<Span>, AllocError>
    ensures { IfOk result (λ copy. copy ≡ spans.now) }
{
    let mut copy = List::new(alloc);
    let mut rest = spans;
    'spans: while let [first, after @ ..] = rest {
        copy.push(*first)?;
        rest = after;
    }
    Ok(copy)
}

/// The bytes of the span, and where they stand.
fn text_and_place(
    alloc: Global,
    places: &mut Places<'_>,
    source: &str,
    span: Span,
) -> Result<(Text, Place), AllocError>
    requires source { places.old ≡ source.now }
    requires slice { IsSlice source.now span }
    ensures copies { IfOk result (λ copies. copies
        ≡ (
          slice_range source.now span.start span.end,
          place_between source.now span.start span.end,
        )) }
    ensures source { places.new ≡ places.old }
{
    let text = Text::new(alloc, &source[span.start..span.end])?;
    Ok((text, places.place(alloc, span.start, span.end)?))
}

/// The node, and the spans.
fn declaration_copies(
    alloc: Global,
    node: &Node,
    unread: &List<Span>,
) -> Result<(Node, List<Span>), AllocError>
    ensures { IfOk result (λ copies. copies ≡ (node.now, unread.now)) }
{
    let unread = copied(alloc, unread.as_slice())?;
    Ok((node.copy(alloc)?, unread))
}

/// The node, and the bytes of the span.
fn alias_copies(
    alloc: Global,
    source: &str,
    node: &Node,
    of: Span,
) -> Result<(Node, Text), AllocError>
    requires { IsSlice source.now of }
    ensures { IfOk result (λ copies. copies ≡ (node.now, slice_range source.now of.start of.end)) }
{
    let of = Text::new(alloc, &source[of.start..of.end])?;
    Ok((node.copy(alloc)?, of))
}

/// Adds what stands.
fn push_part(
    alloc: Global,
    parts: &mut FileParts,
    places: &mut Places<'_>,
    file: usize,
    source: &str,
    standing: &Standing,
) -> Result<(), AllocError>
    requires source { places.old ≡ source.now }
    requires slices { HasSlices source.now standing.now }
    ensures items { OnOk result (parts.new.items
        ≡ parts.old.items ++ item_of_span file source.now standing.now.span standing.now.what) }
    ensures impls { OnOk result (parts.new.impls
        ≡ parts.old.impls ++ impl_of_span file source.now standing.now.span standing.now.what) }
    ensures aliases { OnOk result (parts.new.aliases
        ≡ parts.old.aliases ++ alias_of_span file source.now standing.now.span standing.now.what) }
    ensures source { places.new ≡ places.old }
{
    let (text, place) = text_and_place(alloc, places, source, standing.span)?;
    match &standing.what {
        Stands::Declared(node, name, unread) => {
            let (declared, unread) = declaration_copies(alloc, node, unread)?;
            parts.items.push(FileItem {
                file,
                declared,
                text,
                place,
                line: places.line(name.start),
                end: standing.span.end,
                unread,
            })
        }
        Stands::Written(of, name) => parts.impls.push(FileImpl {
            file,
            of: *of,
            name: name.copy(alloc)?,
            text,
            place,
        }),
        Stands::Alias(node, of, is_import) => {
            let (declared, of) = alias_copies(alloc, source, node, *of)?;
            parts.aliases.push(FileAlias {
                file,
                declared,
                is_import: *is_import,
                of,
                text,
                place,
            })
        }
    }
}

/// The declarations, the impls and the aliases among what stands.
fn parts_in(
    alloc: Global,
    file: usize,
    source: &str,
    standing: &[Standing],
) -> Result<FileParts, AllocError>
    requires { AreSlices source.now standing.now }
    ensures items { IfOk result
        (λ parts. parts.items ≡ items_in file source.now standing.now) }
    ensures impls { IfOk result
        (λ parts. parts.impls ≡ impls_in file source.now standing.now) }
    ensures aliases { IfOk result
        (λ parts. parts.aliases ≡ aliases_in file source.now standing.now) }
{
    let mut parts = FileParts {
        items: List::new(alloc),
        impls: List::new(alloc),
        aliases: List::new(alloc),
    };
    let mut places = Places::new(source);
    for standing in standing {
        push_part(alloc, &mut parts, &mut places, file, source, standing)?;
    }
    Ok(parts)
}

/// The declarations of the file of this number, its impls of serde's traits that are written by hand for a path, and its
/// aliases: the names that it gives to types. Modules are looked into, and all are in its order. What is for tests alone
/// is none of them: an item with an attribute `cfg(test)`, or `cfg(all(..))` in which `test` stands; nor is what stands in
/// a block, as that of a function.
///
/// A refusal of kind `Syntax` has a span of the source: where it cannot be cut, as `lexing::lex` says; or that of the first
/// token or opening bracket, behind attributes and doc comments, of what is no item. One of kind `TooDeep` has the span of
/// the first bracket that opens inside 64 others.
pub fn file_parts(alloc: Global, file: usize, source: &str) -> Result<FileParts, DeriveError>
    ensures items { IfOk result (λ parts. AreItemsOf file source.now parts.items) }
    ensures impls { IfOk result (λ parts. AreImplsOf file source.now parts.impls) }
    ensures aliases { IfOk result (λ parts. AreAliasesOf file source.now parts.aliases) }
    ensures shallow { IfOk result (λ _. (span : AnySpan) → ¬ (OpensTooDeep source.now span)) }
    ensures refused { Refuses result (λ e. IsDepthError source.now e ⊎ IsNoFile source.now e) }
{
    let standing = standing_in(alloc, source)?;
    Ok(parts_in(alloc, file, source, standing.as_slice())?)
}
