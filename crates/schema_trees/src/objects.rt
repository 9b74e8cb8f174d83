//! Objects by what they say without a schema.

ghost use Rattle.std.specs.Prelude.{◌≡◌, [], IfOk, None};
ghost use Rattle.schema_trees.specs.Schema.{object_facts};
ghost use Rattle.schema_trees.specs.Objects.{word_facts};
ghost use Rattle.schema_trees.specs.declared.tree.Additional.TheVariants.{Absent};

use crate::annotations::Annotations;
use crate::bounds::Bounds;
use crate::copies::{copy_jsons, copy_text, copy_texts};
use crate::tree::{Additional, Object, TypeWord};
use std::alloc::{AllocError, Global};
use texts::List;

impl<L> Object<L> {
    /// A word of `type`, and annotations. It takes no memory.
    pub fn new(alloc: Global, ty: TypeWord, annotations: Annotations) -> Object<L>
        ensures facts { object_facts result ≡ word_facts ty annotations }
        ensures properties { result.properties ≡ [] }
        ensures additional { result.additional ≡ Absent }
        ensures property_names { result.property_names ≡ None }
    {
        Object {
            ty,
            format: None,
            enum_values: None,
            properties: List::new(alloc),
            required: List::new(alloc),
            additional: Additional::Absent,
            property_names: None,
            bounds: Bounds::none(),
            annotations,
        }
    }

    /// Another object that says the same without a schema, and has none.
    pub fn copy_facts<M>(&self, alloc: Global) -> Result<Object<M>, AllocError>
        ensures facts { IfOk result (λ copy. object_facts copy ≡ object_facts self.now) }
        ensures properties { IfOk result (λ copy. copy.properties ≡ []) }
        ensures additional { IfOk result (λ copy. copy.additional ≡ Absent) }
        ensures property_names { IfOk result (λ copy. copy.property_names ≡ None) }
    {
        let format = copy_text(alloc, &self.format)?;
        let enum_values = copy_jsons(alloc, &self.enum_values)?;
        let required = copy_texts(alloc, &self.required)?;
        let annotations = self.annotations.copy(alloc)?;
        Ok(Object {
            format,
            enum_values,
            required,
            bounds: self.bounds,
            ..Object::new(alloc, self.ty, annotations)
        })
    }
}
