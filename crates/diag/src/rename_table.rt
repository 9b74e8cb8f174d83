ghost use Rattle.std.specs.Prelude.{◌≡◌, ◌<◌, [], ◌∷◌, ◌++◌, OnOk, OnErr, option_map, get_or, None};
ghost use Rattle.std.specs.BTreeMap.{get_by_text};
ghost use Rattle.diag.specs.RenameIndex.{slot_of, slots_of, in_slot, put_place};
ghost use Rattle.diag.specs.RenameRows.{row_to};
ghost use Rattle.diag.specs.declared.rename_row.RenamePlace.TheVariants.{Field, Variant};

use crate::rename_row::{RenamePlace, RenameRow};
use crate::rename_rule::RenameRule;
use std::alloc::{AllocError, Global};
use std::collections::BTreeMap;
use std::marker::Model;

/// How many slots there are: one for each rule and place.
const SLOTS: usize = 16;

/// The places of a text's first rows, each in the slot of its rule and its place.
type Slots = [Option<usize>; SLOTS];

/// The places of first rows, by the text that they are from.
type Index = BTreeMap<String, Slots>;

/// What names become by rules. Contracts see the list of the rows, in order; of rows for the same name the first counts.
#[derive(Debug, Drop)]
pub struct RenameTable {
    rows: Vec<RenameRow>,
    index: Index,
}

impl Model for RenameTable {
    ghost use Rattle.std.specs.Prelude.{List};
    ghost use Rattle.std.specs.BTreeMap.{get_by_text};
    ghost use Rattle.diag.specs.declared.rename_row.RenameRow.{RenameRow};
    ghost use Rattle.diag.specs.RenameIndex.{IsIndex};

    ghost Value = { List RenameRow };

    ghost view = { λ table. table.rows.items };

    // a look-up need not go through the rows
    ghost invariant = { λ table. IsIndex (get_by_text table.index) table.rows.items };
}

impl RenameTable {
    /// The empty table. It takes no memory.
    pub fn new(alloc: Global) -> RenameTable
        ensures { result ≡ [] }
    {
        RenameTable {
            rows: Vec::new(alloc),
            index: BTreeMap::new(alloc),
        }
    }

    /// Adds the row at the end. A refused call changes nothing.
    pub fn push(&mut self, row: RenameRow) -> Result<(), AllocError>
        ensures ok { OnOk result (self.new ≡ self.old ++ row ∷ []) }
        ensures err { OnErr result (self.new ≡ self.old) }
    {
        let from = String::from_str(*self.rows.allocator(), row.from.as_str())?;
        let slots = slots_with(&self.index, &row, self.rows.len());
        self.rows.push(row)?;
        match self.index.insert(from, slots) {
            Ok(_) => Ok(()),
            Err(_) => {
                self.rows.pop();
                Err(AllocError)
            }
        }
    }

    /// What the first row says that is for the rule, the place and the text.
    fn look(&self, rule: RenameRule, place: RenamePlace, value: &str) -> Option<&str>
        ensures { option_map (λ to. to.now) result ≡ row_to rule place value.now self.now }
    {
        match place_of(&self.index, rule, place, value) {
            Some(at) => Some(self.rows[at].to.as_str()),
            None => None,
        }
    }
}

impl RenameRule {
    /// What the field's name becomes by the rule, which is `None` where no row says so. It takes no memory.
    pub fn rename<'t>(&self, table: &'t RenameTable, value: &str) -> Option<&'t str>
        ensures { option_map (λ to. to.now) result ≡ row_to self.now Field value.now table.now }
    {
        table.look(*self, RenamePlace::Field, value)
    }

    /// What the variant's name becomes by the rule, which is `None` where no row says so. It takes no memory.
    pub fn rename_variant<'t>(&self, table: &'t RenameTable, value: &str) -> Option<&'t str>
        ensures { option_map (λ to. to.now) result ≡ row_to self.now Variant value.now table.now }
    {
        table.look(*self, RenamePlace::Variant, value)
    }
}

/// The slot of the rule and the place.
fn slot(rule: RenameRule, place: RenamePlace) -> usize
    ensures slot { result ≡ slot_of rule place }
    ensures within { result < SLOTS }
{
    let number = match rule {
        RenameRule::Lower => 0,
        RenameRule::Upper => 1,
        RenameRule::Camel => 2,
        RenameRule::Snake => 3,
        RenameRule::ScreamingSnake => 4,
        RenameRule::Pascal => 5,
        RenameRule::Kebab => 6,
        RenameRule::ScreamingKebab => 7,
    };
    match place {
        RenamePlace::Field => number,
        RenamePlace::Variant => 8 + number,
    }
}

/// The place of the first row for the rule, the place and the text.
fn place_of(index: &Index, rule: RenameRule, place: RenamePlace, value: &str) -> Option<usize>
    ensures { result ≡ in_slot (slot_of rule place) (get_by_text index.now value.now) }
{
    match index.get(value) {
        Some(slots) => slots[slot(rule, place)],
        None => None,
    }
}

/// The slots of the text that the row is from, with the row's place in its slot where that is free.
fn slots_with(index: &Index, row: &RenameRow, at: usize) -> Slots
    ensures { let slots = slots_of (get_by_text index.now row.now.from) in let slot = slot_of
        row.now.rule row.now.place in result ≡ put_place (get_or slots slot None) slot at slots }
{
    let mut slots = match index.get(row.from.as_str()) {
        Some(slots) => *slots,
        None => [None; SLOTS],
    };
    let slot = slot(row.rule, row.place);
    if slots[slot].is_none() {
        slots[slot] = Some(at);
    }
    slots
}
