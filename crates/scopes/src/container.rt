ghost use Rattle.std.specs.Prelude.{◌≡◌, IfOk};
ghost use Rattle.scopes.specs.Descriptions.{description_of};

use crate::scope::Scope;
use configuration::Config;
use std::alloc::{AllocError, Global};
use syntax::CommentAttributes;
use texts::Text;

/// Where a place stands: the declarations of its source, and the configuration.
#[derive(Clone, Copy)]
pub struct Container<'c> {
    pub scope: &'c Scope<'c>,
    pub config: &'c Config,
}

/// What a schema is described as.
#[derive(Clone, Copy)]
pub enum ComponentDescription<'c> {
    /// The doc comments of its place.
    CommentAttributes(&'c CommentAttributes),
}

impl ComponentDescription<'_> {
    /// The text, where it says something: an empty one is none.
    pub fn text(&self, alloc: Global) -> Result<Option<Text>, AllocError>
        ensures { IfOk result (λ text. text ≡ description_of self.now) }
    {
        let text = match self {
            ComponentDescription::CommentAttributes(comments) => {
                comments.as_formatted_string(alloc)?
            }
        };
        if text.as_str().is_empty() {
            Ok(None)
        } else {
            Ok(Some(text))
        }
    }
}
