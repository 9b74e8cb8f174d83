//! What stands behind an attribute's path, without copies.

ghost use Rattle.std.specs.Prelude.{◌≡◌, IfOk};
ghost use Rattle.tokens.specs.Trees.{trees_view};
ghost use Rattle.words.specs.Words.{words_view};
ghost use Rattle.words.specs.Reading.{Gives};
ghost use Rattle.attributes.specs.Attributes.{meta_view};
ghost use Rattle.attributes.specs.Forms.{form_view};
ghost use Rattle.attributes.specs.AttributeReading.{meta_of};

use crate::attribute::Meta;
use std::alloc::{AllocError, Global};
use tokens::{Group, TokenTree, copy_trees};
use words::{Sign, Stop, sign_at, stop_at};

/// What stands behind an attribute's path, as it stands in the source.
#[derive(Clone, Copy)]
pub(crate) enum Form<'t> {
    Word,
    NameValue(&'t [TokenTree]),
    Items(&'t Group),
}

/// What all of the trees are, behind a path.
#[tactic(auto, unfolding(crate::specs::AttributeReading::meta_of))]
pub(crate) fn form_of(trees: &[TokenTree]) -> Result<Form<'_>, Stop>
    ensures { Gives form_view result (meta_of (words_view trees.now)) }
{
    match trees {
        [] => Ok(Form::Word),
        [TokenTree::Group(group), rest @ ..] => match rest {
            [] => Ok(Form::Items(group)),
            [_, ..] => Err(stop_at(rest)),
        },
        _ => {
            let (_, value) = sign_at(trees, Sign::Equals)?;
            match value {
                [] => Err(Stop::Ended),
                [_, ..] => Ok(Form::NameValue(value)),
            }
        }
    }
}

impl Form<'_> {
    /// A copy with the same tokens.
    pub(crate) fn to_meta(self, alloc: Global) -> Result<Meta, AllocError>
        ensures { IfOk result (λ meta. meta_view meta ≡ form_view self.entry) }
    {
        match self {
            Form::Word => Ok(Meta::Word),
            Form::NameValue(trees) => Ok(Meta::NameValue(copy_trees(alloc, trees)?)),
            Form::Items(group) => Ok(Meta::Items(Group {
                bracket: group.bracket,
                trees: copy_trees(alloc, group.trees.as_slice())?,
                span: group.span,
            })),
        }
    }
}
