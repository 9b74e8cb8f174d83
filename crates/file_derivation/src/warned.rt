//! What declarations that are read of files are warned of.

ghost use Rattle.std.specs.Prelude.{◌≡◌, ◌<◌, ◌≤◌, ◌-◌, ◌++◌, [], ◌∷◌, List as AnyList, length, take, map, IfOk, OnOk};
ghost use Rattle.syntax.specs.Items.{declarations_view};
ghost use Rattle.telling.specs.declared.told.Told.{Told as AnyTold};
ghost use Rattle.warnings.specs.Rules.{warning_view};
ghost use Rattle.warnings.specs.Warned.{IsKnown};
ghost use Rattle.file_derivation.specs.Warned.{warning, told_warning, AreWarned, trait_name, impl_message, told_impl, told_impls, nothing_message, told_nothing, IsToldFirst, AreFirst};

use configuration::Config;
use gathering::{FileImpl, SerdeTrait, file_name, told_plainly};
use prepare::FileItem;
use scopes::Places;
use std::alloc::{AllocError, Global};
use syntax::Declarations;
use telling::{Told, told_in};
use texts::{List, Span, Text};
use warnings::{Lookup, Warning, warnings_of};

/// How many warnings are told, at most.
pub(crate) const MOST_TOLD: usize = 100;

/// Leaves out the last.
fn drop_last(told: &mut List<Told>)
    requires some { 0 < length told.old }
    ensures { told.new ≡ take (length told.old - 1) told.old }
{
    let _last = told.remove(told.len() - 1);
}

/// What is warned of: the first hundred, and how many there are.
#[derive(Debug, Drop)]
pub struct Warnings {
    pub told: List<Told>,
    pub count: usize,
}

impl Warnings {
    /// No warnings yet.
    pub(crate) fn new(alloc: Global) -> Warnings
        ensures { AreFirst [] result }
    {
        Warnings {
            told: List::new(alloc),
            count: 0,
        }
    }

    /// What is told, as the first warnings.
    pub(crate) fn of(mut told: List<Told>) -> Warnings
        ensures { AreFirst told result }
    {
        let count = told.len();
        'told: while told.len() > MOST_TOLD {
            drop_last(&mut told);
        }
        Warnings { told, count }
    }

    /// Adds one more, which is told where it is one of the first hundred.
    pub(crate) fn push(&mut self, told: Option<Told>) -> Result<(), AllocError>
        ensures { OnOk result ((all : AnyList AnyTold) (one : AnyTold) → AreFirst all self.old
            → IsToldFirst self.old.count one told → AreFirst (all ++ one ∷ []) self.new) }
    {
        let count = self.count.checked_add(1).ok_or(AllocError)?;
        if let Some(told) = told {
            self.told.push(told)?;
        }
        self.count = count;
        Ok(())
    }

    /// Adds a warning of the text of the declaration in the file of the name.
    fn add(
        &mut self,
        alloc: Global,
        name: &str,
        item: &FileItem,
        warning: &Warning,
    ) -> Result<(), AllocError>
        ensures { OnOk result ((all : AnyList AnyTold) → AreFirst all self.old
            → AreFirst (all ++ told_warning name.now item.now (warning_view warning.now) ∷ [])
            self.new) }
    {
        let told = told_warning(alloc, self.count, name, item, warning)?;
        self.push(told)
    }

    /// Adds the warnings of the declaration that is read from the item.
    fn add_all(
        &mut self,
        alloc: Global,
        name: &str,
        item: &FileItem,
        warnings: &[Warning],
    ) -> Result<(), AllocError>
        ensures { OnOk result ((all : AnyList AnyTold) → AreFirst all self.old
            → AreFirst (all ++ map (told_warning name.now item.now)
            (map warning_view warnings.now)) self.new) }
    {
        let mut rest = warnings;
        'warnings: while let [first, after @ ..] = rest {
            self.add(alloc, name, item, first)?;
            rest = after;
        }
        Ok(())
    }

    /// Adds the impl by hand, where one of the declarations has the name of its type.
    fn add_impl(
        &mut self,
        alloc: Global,
        names: &[Text],
        places: &Places<'_>,
        one: &FileImpl,
    ) -> Result<(), AllocError>
        ensures { OnOk result ((all : AnyList AnyTold) → AreFirst all self.old
            → AreFirst (all ++ told_impls names.now
            (declarations_view places.now.declarations.now) (one.now ∷ [])) self.new) }
    {
        match places.by_name.get(one.name.as_str()) {
            None => Ok(()),
            Some(_) => {
                let told = told_impl(alloc, self.count, names, one)?;
                self.push(told)
            }
        }
    }

    /// Adds the impls by hand that are for one of the declarations.
    fn add_impls(
        &mut self,
        alloc: Global,
        names: &[Text],
        places: &Places<'_>,
        impls: &[FileImpl],
    ) -> Result<(), AllocError>
        ensures { OnOk result ((all : AnyList AnyTold) → AreFirst all self.old
            → AreFirst (all ++ told_impls names.now
            (declarations_view places.now.declarations.now) impls.now) self.new) }
    {
        let mut rest = impls;
        'impls: while let [first, after @ ..] = rest {
            self.add_impl(alloc, names, places, first)?;
            rest = after;
        }
        Ok(())
    }

    /// Adds that nothing is described, where no component is; whether something is declared.
    pub(crate) fn add_nothing(
        &mut self,
        alloc: Global,
        is_declared: bool,
        is_described: bool,
    ) -> Result<(), AllocError>
        ensures { OnOk result ((all : AnyList AnyTold) → AreFirst all self.old
            → AreFirst (all ++ told_nothing is_declared is_described) self.new) }
    {
        if is_described {
            return Ok(());
        }
        let told = told_nothing(alloc, self.count, is_declared)?;
        self.push(told)
    }
}

fn trait_name(of: SerdeTrait) -> &'static str
    ensures { result.now ≡ trait_name of }
{
    match of {
        SerdeTrait::Serialize => "Serialize",
        SerdeTrait::Deserialize => "Deserialize",
    }
}

/// What is said of the impl by hand.
fn impl_message(alloc: Global, one: &FileImpl) -> Result<Text, AllocError>
    ensures { IfOk result (λ message. message ≡ impl_message one.now) }
{
    let message = format!(in alloc;
        "`{}` of {} is written by hand; the schema is that of the declaration",
        trait_name(one.of),
        one.name.as_str()
    )?;
    Ok(Text::from(message))
}

/// What is told of the warning of the text of the declaration in the file of the name, where fewer than a hundred are before it.
fn told_warning(
    alloc: Global,
    count: usize,
    name: &str,
    item: &FileItem,
    warning: &Warning,
) -> Result<Option<Told>, AllocError>
    ensures { IfOk result
        (IsToldFirst count (told_warning name.now item.now (warning_view warning.now))) }
{
    if count >= MOST_TOLD {
        return Ok(None);
    }
    let (text, span) = (item.text.as_str(), warning.span);
    let told = told_in(
        alloc,
        name,
        &item.place,
        text,
        span,
        "warning",
        warning.message,
    )?;
    Ok(Some(told))
}

/// What is told of the impl by hand, where fewer than a hundred are before it.
fn told_impl(
    alloc: Global,
    count: usize,
    names: &[Text],
    one: &FileImpl,
) -> Result<Option<Told>, AllocError>
    ensures { IfOk result (IsToldFirst count (told_impl names.now one.now)) }
{
    if count >= MOST_TOLD {
        return Ok(None);
    }
    let (name, text) = (file_name(names, one.file), one.text.as_str());
    let message = impl_message(alloc, one)?;
    let span = Span::new(0, text.len());
    let told = told_in(
        alloc,
        name,
        &one.place,
        text,
        span,
        "warning",
        message.as_str(),
    )?;
    Ok(Some(told))
}

/// That nothing is described, where fewer than a hundred are before it; whether something is declared.
fn told_nothing(alloc: Global, count: usize, is_declared: bool) -> Result<Option<Told>, AllocError>
    ensures { IfOk result (IsToldFirst count (warning (nothing_message is_declared))) }
{
    if count >= MOST_TOLD {
        return Ok(None);
    }
    let told = told_plainly(alloc, "", "warning", nothing_message(is_declared))?;
    Ok(Some(told))
}

fn nothing_message(is_declared: bool) -> &'static str
    ensures { result.now ≡ nothing_message is_declared }
{
    if is_declared {
        "nothing is described: each declaration that is chosen has type parameters"
    } else {
        "nothing is described: no file has a declaration that is chosen and not left out"
    }
}

/// Adds what the declarations are warned of, each read from the text of the item at the same place.
fn warnings_from(
    alloc: Global,
    names: &[Text],
    from: &[&FileItem],
    lookup: &Lookup<'_>,
    mut warnings: Warnings,
) -> Result<Warnings, AllocError>
    requires known { IsKnown lookup.now }
    requires many { length from.now
        ≡ length (declarations_view lookup.now.places.now.declarations.now) }
    ensures { IfOk result (λ more. (front : AnyList AnyTold) → AreFirst front warnings
        → (all : AnyList AnyTold) × AreWarned lookup.now.config.now names.now
        (declarations_view lookup.now.places.now.declarations.now) (map (λ i. i.now) from.now)
        (length (declarations_view lookup.now.places.now.declarations.now)) all
        × AreFirst (front ++ all) more) }
{
    for at in 0..from.len() {
        let item = from[at];
        let own = warnings_of(alloc, lookup, at)?;
        let name = file_name(names, item.file);
        warnings.add_all(alloc, name, item, own.as_slice())?;
    }
    Ok(warnings)
}

/// Adds what the declarations, each read from the text of the item at the same place, and the impls by hand that are for them
/// are warned of, where names may stand for aliases of the configuration.
pub(crate) fn warned_of(
    alloc: Global,
    names: &[Text],
    from: &[&FileItem],
    declarations: &Declarations,
    impls: &[FileImpl],
    config: &Config,
    warnings: Warnings,
) -> Result<Warnings, AllocError>
    requires many { length from.now ≡ length (declarations_view declarations.now) }
    ensures { IfOk result (λ more. (front : AnyList AnyTold) → AreFirst front warnings
        → (own : AnyList AnyTold) × AreWarned config.now names.now
        (declarations_view declarations.now) (map (λ i. i.now) from.now)
        (length (declarations_view declarations.now)) own
        × AreFirst ((front ++ own)
        ++ told_impls names.now (declarations_view declarations.now) impls.now) more) }
{
    let places = Places::new(alloc, declarations)?;
    let lookup = Lookup::new(alloc, &places, config)?;
    let mut warnings = warnings_from(alloc, names, from, &lookup, warnings)?;
    warnings.add_impls(alloc, names, &places, impls)?;
    Ok(warnings)
}
