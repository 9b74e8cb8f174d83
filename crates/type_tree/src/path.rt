ghost use Rattle.std.specs.Prelude.{◌≡◌, option_map};
ghost use Rattle.written_types.specs.Written.{path_view, segment_view, segments_view};
ghost use Rattle.type_tree.specs.TypeTrees.{schema_path_view, last_name, written_path, last_segment, segment_name};

use written_types::{Path, PathSegment};

/// The path of a type as it is written, or that of an array or slice. Two paths are equal by text.
#[derive(Clone, Copy, Debug)]
#[derive_where(PartialEq, Eq)]
pub enum SchemaPath<'t> {
    Written(&'t Path),
    Array,
}

impl<'t> SchemaPath<'t> {
    /// The last identifier of the path: `Array` for arrays and slices.
    pub fn last_name(&self) -> &str
        ensures { result.now ≡ last_name (schema_path_view self.now) }
    {
        match self {
            SchemaPath::Written(path) => name_of(path),
            SchemaPath::Array => "Array",
        }
    }
}

/// The last identifier of a path, which is never empty.
pub(crate) fn name_of(path: &Path) -> &str
    ensures { result.now ≡ last_name (written_path (path_view path.now)) }
{
    match last_of(path.segments.as_slice()) {
        None => "",
        Some(segment) => name_of_segment(segment),
    }
}

/// The last of the segments.
pub(crate) fn last_of(segments: &[PathSegment]) -> Option<&PathSegment>
    ensures { option_map (λ segment. segment_view segment.now) result
        ≡ last_segment (segments_view segments.now) }
{
    segments.last()
}

/// The name of a segment, without its arguments.
#[tactic(auto, using(crate::proofs::Segments::segment_name_of))]
pub(crate) fn name_of_segment(segment: &PathSegment) -> &str
    ensures { result.now ≡ segment_name (segment_view segment.now) }
{
    segment.ident.text.as_str()
}
