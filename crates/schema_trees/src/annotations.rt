ghost use Rattle.std.specs.Prelude.{◌≡◌, IfOk, option_map};
ghost use Rattle.schema_trees.specs.Annotations.{no_annotations, said_by};

use crate::copies::{copy_json, copy_jsons, copy_text};
use crate::json_value::Json;
use std::alloc::{AllocError, Global};
use std::marker::Model;
use texts::{List, Text};

/// The keywords of annotations (JSON Schema 2020-12, Validation, 8 and 9). No value is refused for them.
#[derive(Debug)]
pub struct AnnotationKeywords {
    pub title: Option<Text>,
    pub description: Option<Text>,
    pub default: Option<Json>,
    pub example: Option<Json>,
    pub examples: Option<List<Json>>,
    pub deprecated: Option<bool>,
    pub read_only: Option<bool>,
    pub write_only: Option<bool>,
    pub content_encoding: Option<Text>,
    pub content_media_type: Option<Text>,
}

// by hand, so that a function that lets them go makes one call for them
impl Drop for AnnotationKeywords {
    fn drop(self) {
        let AnnotationKeywords {
            title: _,
            description: _,
            default: _,
            example: _,
            examples: _,
            deprecated: _,
            read_only: _,
            write_only: _,
            content_encoding: _,
            content_media_type: _,
        } = self;
    }
}

impl AnnotationKeywords {
    /// None of them. It takes no memory.
    pub fn none() -> AnnotationKeywords
        ensures { result ≡ no_annotations }
    {
        AnnotationKeywords {
            title: None,
            description: None,
            default: None,
            example: None,
            examples: None,
            deprecated: None,
            read_only: None,
            write_only: None,
            content_encoding: None,
            content_media_type: None,
        }
    }

    /// Other keywords that say the same.
    fn copy(&self, alloc: Global) -> Result<AnnotationKeywords, AllocError>
        ensures { IfOk result (λ copy. copy ≡ self.now) }
    {
        Ok(AnnotationKeywords {
            title: copy_text(alloc, &self.title)?,
            description: copy_text(alloc, &self.description)?,
            default: copy_json(alloc, &self.default)?,
            example: copy_json(alloc, &self.example)?,
            examples: copy_jsons(alloc, &self.examples)?,
            deprecated: self.deprecated,
            read_only: self.read_only,
            write_only: self.write_only,
            content_encoding: copy_text(alloc, &self.content_encoding)?,
            content_media_type: copy_text(alloc, &self.content_media_type)?,
        })
    }
}

/// What a schema says of itself. Contracts see the keywords; most schemas have none, and then they take no memory.
#[derive(Debug)]
pub struct Annotations {
    said: Option<Box<AnnotationKeywords>>,
}

impl Model for Annotations {
    ghost use Rattle.std.specs.Prelude.{option_map};
    ghost use Rattle.schema_trees.specs.contracts.annotations.AnnotationKeywords as keywords;
    ghost use Rattle.schema_trees.specs.declared.annotations.AnnotationKeywords.{AnnotationKeywords as Said};
    ghost use Rattle.schema_trees.specs.Annotations.{said_by};

    ghost Value = { Said };

    ghost coded = { keywords.the_row.coded };

    ghost view = { λ annotations. said_by (option_map (λ said. said.value) annotations.said) };
}

// by hand, as that of the keywords
impl Drop for Annotations {
    fn drop(self) {
        let Annotations { said: _ } = self;
    }
}

impl Annotations {
    /// No annotations. It takes no memory.
    pub fn new() -> Annotations
        ensures { result ≡ no_annotations }
    {
        Annotations { said: None }
    }

    /// Annotations of these keywords.
    pub fn of(alloc: Global, said: AnnotationKeywords) -> Result<Annotations, AllocError>
        ensures { IfOk result (λ annotations. annotations ≡ said) }
    {
        Ok(Annotations {
            said: Some(Box::new(alloc, said)?),
        })
    }

    /// The keywords; where there are none, perhaps nothing.
    pub fn said(&self) -> Option<&AnnotationKeywords>
        ensures { said_by (option_map (λ said. said.now) result) ≡ self.now }
    {
        match &self.said {
            Some(said) => Some(said),
            None => None,
        }
    }

    /// Other annotations that say the same.
    pub fn copy(&self, alloc: Global) -> Result<Annotations, AllocError>
        ensures { IfOk result (λ copy. copy ≡ self.now) }
    {
        match &self.said {
            Some(said) => Annotations::of(alloc, said.copy(alloc)?),
            None => Ok(Annotations::new()),
        }
    }
}
