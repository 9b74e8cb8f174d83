//! Laws of comparisons.

ghost use Rattle.std.specs.Prelude.{◌≡◌};
ghost use Rattle.std.specs.Bool.{Decides};
ghost use Rattle.written_types.specs.Written.{written_view, path_view, segment_view, argument_view};
ghost use Rattle.written_types.specs.Spanless.{ident_without_span, type_without_spans, path_without_spans, segment_without_spans, argument_without_spans};
ghost use Rattle.written_types.specs.declared.written.Ident.{Ident};
ghost use Rattle.written_types.specs.declared.written.Path.{Path};
ghost use Rattle.written_types.specs.declared.written.PathSegment.{PathSegment};
ghost use Rattle.written_types.specs.declared.written.GenericArgument.{GenericArgument};
ghost use Rattle.written_types.specs.declared.written.WrittenType.{WrittenType};

use crate::written::{GenericArgument, Ident, Path, PathSegment, WrittenType};

/// Names, paths, arguments and types are equal exactly where they are the same without their spans, and told raw or not.
pub fn types_are_equal_by_text()
    ensures ident { (x y : Ident)
        → Decides (⟦<Ident as PartialEq>⟧.eq x y) (ident_without_span x ≡ ident_without_span y) }
    ensures path { (p q : Path)
        → Decides (⟦<Path as PartialEq>⟧.eq p q) (path_without_spans (path_view p)
        ≡ path_without_spans (path_view q)) }
    ensures segment { (s t : PathSegment)
        → Decides (⟦<PathSegment as PartialEq>⟧.eq s t) (segment_without_spans (segment_view s)
        ≡ segment_without_spans (segment_view t)) }
    ensures argument { (x y : GenericArgument)
        → Decides (⟦<GenericArgument as PartialEq>⟧.eq x y)
        (argument_without_spans (argument_view x) ≡ argument_without_spans (argument_view y)) }
    ensures ty { (t u : WrittenType)
        → Decides (⟦<WrittenType as PartialEq>⟧.eq t u) (type_without_spans (written_view t)
        ≡ type_without_spans (written_view u)) }
{}
