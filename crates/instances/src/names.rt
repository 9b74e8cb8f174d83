//! Names of instances.

ghost use Rattle.std.specs.Prelude.{◌≡◌, ◌<◌, [], ◌∷◌, ◌++◌, None, codes, length, map, IfOk, OnOk};
ghost use Rattle.std.specs.BTreeMap.{get_by_text};
ghost use Rattle.open_types.specs.Open.{open_view, opens_view};
ghost use Rattle.open_types.specs.TypeNames.{with_name, names_behind};
ghost use Rattle.shapes.specs.Declarations.{declaration_at};
ghost use Rattle.shapes.specs.InstanceNames.{instance_name};
ghost use Rattle.shapes.specs.Views.{declaration_view};
ghost use Rattle.texts.specs.Names.{place_in};
ghost use Rattle.instances.specs.Lists.{instance_at};
ghost use Rattle.instances.specs.Naming.{IsNaming};
ghost use Rattle.instances.specs.Numbers.{AreNamed};

use crate::reach::Reach;
use open_types::OpenType;
use shapes::Declaration;
use std::alloc::{AllocError, Global};
use std::collections::BTreeMap;
use std::marker::Model;
use texts::{List, Text};

/// The names of instances, which are distinct, and the numbers of names. Contracts see the list of names.
#[derive(Drop)]
pub struct Names {
    names: List<Text>,
    /// The number of each name.
    numbers: BTreeMap<String, usize>,
}

impl Model for Names {
    ghost use Rattle.std.specs.Prelude.{List as Items, ℕ};

    ghost Value = { Items (Items ℕ) };

    ghost use Rattle.std.specs.BTreeMap.{get_by_text};
    ghost use Rattle.instances.specs.Numbers.{AreNamed};

    ghost view = { λ names. names.names };

    ghost invariant = { λ names. AreNamed (get_by_text names.numbers) names.names };
}

impl Names {
    /// The names, by number.
    pub fn as_slice(&self) -> &[Text]
        ensures { result.now ≡ self.now }
    {
        self.names.as_slice()
    }

    /// The number of the name, where it is there.
    pub fn number(&self, name: &str) -> Option<usize>
        ensures { result ≡ place_in name.now self.now }
    {
        match self.numbers.get(name) {
            Some(number) => Some(*number),
            None => None,
        }
    }
}

/// What the names of instances are: all distinct, or those of two numbers are equal.
#[derive(Drop)]
pub enum Naming {
    Apart(Names),
    Clash(usize, usize),
}

/// The name of the instance of a number, as `instance_name`.
fn name_of(
    alloc: Global,
    declared: &[Declaration],
    reach: &Reach,
    number: usize,
) -> Result<Text, AllocError>
    requires { number < length reach.now }
    ensures { IfOk result (λ name. name
        ≡ instance_name (map declaration_view declared.now) (instance_at reach.now number)) }
{
    let ty = reach.type_of(alloc, number)?;
    instance_name(alloc, declared, ty.as_open())
}

/// Adds the name at the end, and its number. Where it is there already, the answer is the number that it had, and no name is
/// added.
fn add_name(
    alloc: Global,
    name: Text,
    names: &mut List<Text>,
    numbers: &mut BTreeMap<String, usize>,
) -> Result<Option<usize>, AllocError>
    requires { AreNamed (get_by_text numbers.old) names.old }
    ensures earlier { IfOk result (λ earlier. earlier ≡ place_in name names.old) }
    ensures added { IfOk result (λ earlier. earlier ≡ None
        → names.new ≡ names.old ++ name ∷ []) }
    ensures named { IfOk result (λ earlier. earlier ≡ None
        → AreNamed (get_by_text numbers.new) names.new) }
{
    let key = String::from_str(alloc, name.as_str())?;
    if let Some(earlier) = numbers.insert(key, names.len()).map_err(AllocError::from)? {
        return Ok(Some(earlier));
    }
    names.push(name)?;
    Ok(None)
}

/// The name of each instance, as `instance_name`. Where two are equal, the numbers of two: the second is that of the first
/// instance whose name stands before it.
pub fn instance_names(
    alloc: Global,
    declared: &[Declaration],
    reach: &Reach,
) -> Result<Naming, AllocError>
    ensures { IfOk result (IsNaming (map declaration_view declared.now) reach.now) }
{
    let mut names = List::new(alloc);
    let mut numbers = BTreeMap::new(alloc);
    for number in 0..reach.len() {
        let name = name_of(alloc, declared, reach, number)?;
        if let Some(earlier) = add_name(alloc, name, &mut names, &mut numbers)? {
            return Ok(Naming::Clash(earlier, number));
        }
    }
    Ok(Naming::Apart(Names { names, numbers }))
}

/// The name of the component of an instance, as `Page_Vec_User`: that of its declaration, and behind it those of its arguments.
/// It recurses as deep as the type nests.
pub fn instance_name(
    alloc: Global,
    declared: &[Declaration],
    ty: &OpenType,
) -> Result<Text, AllocError>
    ensures { IfOk result (λ name. name
        ≡ instance_name (map declaration_view declared.now) (open_view ty.now)) }
{
    let mut name = Text::new(alloc, "")?;
    push_type(&mut name, declared, ty)?;
    Ok(name)
}

/// The name of the declaration at the place; past the end, none.
fn declared_name(declared: &[Declaration], place: usize) -> &str
    ensures { result.now ≡ (declaration_at (map declaration_view declared.now) place).name }
{
    match declared.get(place) {
        Some(declaration) => declaration.name.as_str(),
        None => "",
    }
}

/// Adds the name of the type at the end of the text.
#[cycle(name)]
fn push_type(text: &mut Text, declared: &[Declaration], ty: &OpenType) -> Result<(), AllocError>
    ensures { OnOk result (text.new
        ≡ text.old ++ instance_name (map declaration_view declared.now) (open_view ty.now)) }
{
    match ty {
        OpenType::Leaf(leaf) => text.push(leaf.name()),
        OpenType::AnyValue => text.push("Value"),
        OpenType::FreeObject => text.push("Object"),
        OpenType::Unit => Ok(()),
        OpenType::Tuple(_) => Ok(()),
        OpenType::Items(head, of) => push_applied(text, declared, head.name(), of),
        OpenType::Set(head, of) => push_applied(text, declared, head.name(), of),
        OpenType::Map(head, key, of) => {
            push_applied(text, declared, head.name(), key)?;
            push_applied(text, declared, "", of)
        }
        OpenType::Option(of) => push_applied(text, declared, "Option", of),
        OpenType::Through(head, of) => push_applied(text, declared, head.name(), of),
        OpenType::Param(_) => Ok(()),
        OpenType::Named(place, arguments) => {
            text.push(declared_name(declared, *place))?;
            push_arguments(text, declared, arguments.as_slice())
        }
    }
}

/// Adds a name, and behind it that of the type.
#[cycle(name)]
fn push_applied(
    text: &mut Text,
    declared: &[Declaration],
    name: &str,
    of: &OpenType,
) -> Result<(), AllocError>
    ensures { OnOk result (text.new ≡ text.old ++ with_name name.now
        (instance_name (map declaration_view declared.now) (open_view of.now))) }
{
    text.push(name)?;
    text.push("_")?;
    push_type(text, declared, of)
}

/// Adds the names of the arguments.
#[cycle(name)]
fn push_arguments(
    text: &mut Text,
    declared: &[Declaration],
    arguments: &[OpenType],
) -> Result<(), AllocError>
    ensures { OnOk result (text.new ≡ text.old
        ++ names_behind (λ d. (declaration_at (map declaration_view declared.now) d).name)
        (opens_view arguments.now)) }
{
    for ty in arguments {
        push_applied(text, declared, "", ty)?;
    }
    Ok(())
}
