//! The faults of declarations that are read of files.

ghost use Rattle.std.specs.Prelude.{◌≡◌, ◌<◌, length, map, IfOk};
ghost use Rattle.syntax.specs.Items.{declarations_view};
ghost use Rattle.syntax.specs.Named.{AreNamed};
ghost use Rattle.file_derivation.specs.Faults.{IsFaultAt, AreFaults};
ghost use Rattle.file_derivation.specs.Helps.{origin_around, declared_around};

use crate::helps::{Around, told_fault};
use configuration::Config;
use derive_decl::judge_declaration;
use diag::DeriveError;
use prepare::FileItem;
use scopes::Places;
use std::alloc::{AllocError, Global};
use syntax::Declarations;
use telling::Told;
use texts::{List, Text};

/// What is told of the declaration at the place, if it is at fault.
pub(crate) fn fault_at(
    alloc: Global,
    around: &Around<'_>,
    config: &Config,
    at: usize,
) -> Result<Option<Told>, AllocError>
    requires named { AreNamed (declared_around around.now) }
    requires within { at < length (declared_around around.now) }
    requires many { length around.now.from.now ≡ length (declared_around around.now) }
    ensures { IfOk result (IsFaultAt config.now (declared_around around.now)
        (origin_around around.now) at) }
{
    match judge_declaration(alloc, around.places, config, at) {
        Ok(()) => Ok(None),
        Err(DeriveError::Refused(refusal)) => {
            let declaration = &around.places.declarations.items.as_slice()[at];
            let told = told_fault(alloc, around, at, declaration, around.from[at], &refusal)?;
            Ok(Some(told))
        }
        Err(DeriveError::Memory) => Err(AllocError),
    }
}

/// What is told of the declarations that are at fault, each read from the text of one of the items: of each its first fault.
pub(crate) fn faults_of(
    alloc: Global,
    names: &[Text],
    excluded: &[Text],
    from: &[&FileItem],
    declarations: &Declarations,
    config: &Config,
) -> Result<List<Told>, AllocError>
    requires named { AreNamed (declarations_view declarations.now) }
    requires many { length from.now ≡ length (declarations_view declarations.now) }
    ensures { IfOk result (AreFaults config.now (declarations_view declarations.now)
        (record { names = names.now; excluded = excluded.now; from = map (λ i. i.now) from.now })
        (length (declarations_view declarations.now))) }
{
    let places = Places::new(alloc, declarations)?;
    let around = Around {
        names,
        excluded,
        from,
        places: &places,
    };
    let mut faults = List::new(alloc);
    for at in 0..from.len() {
        if let Some(told) = fault_at(alloc, &around, config, at)? {
            faults.push(told)?;
        }
    }
    Ok(faults)
}
