ghost use Rattle.std.specs.Cmp.{partial_equiv_from_equiv, partial_order_from_agreeing_total, eq_by_cmp_equiv};
ghost use Rattle.std.specs.Ordering.{as_partial_cmp, eq_by_cmp};
ghost use Rattle.std.specs.Prelude.{◌≡◌, refl};
ghost use Rattle.configuration.specs.Configuration.{place_name};
ghost use Rattle.renaming.specs.Rows.{key_cmp, key_cmp_total};

use diag::{RenamePlace, RenameRule};
use std::cmp::Ordering;
use texts::Text;

/// What a row is for. The order is that of the names of rules, then of places, then of the names that rows are for, each by
/// bytes.
#[derive(Debug, Drop)]
pub struct RowKey {
    pub rule: RenameRule,
    pub place: RenamePlace,
    /// The name as it is declared.
    pub from: Text,
}

/// The place's name, as it is written in a configuration.
pub(crate) fn place_name(place: RenamePlace) -> &'static str
    ensures { result.now ≡ place_name place }
{
    match place {
        RenamePlace::Field => "field",
        RenamePlace::Variant => "variant",
    }
}

impl PartialEq for RowKey {
    ghost eq = { eq_by_cmp key_cmp };

    ghost laws = { partial_equiv_from_equiv (eq_by_cmp_equiv key_cmp_total) };

    fn eq(&self, other: &RowKey) -> bool {
        self.cmp(other).is_eq()
    }
}

impl Eq for RowKey {
    ghost laws = { eq_by_cmp_equiv key_cmp_total };
}

impl Ord for RowKey {
    ghost cmp = { key_cmp };

    ghost total = { key_cmp_total };

    ghost matches_partial_cmp = { λ x y. refl };

    ghost matches_eq = { λ x y. refl };

    fn cmp(&self, other: &RowKey) -> Ordering {
        let rules = self.rule.name().cmp(other.rule.name());
        let places = place_name(self.place).cmp(place_name(other.place));
        let names = self.from.cmp(&other.from);
        rules.then(places.then(names))
    }
}

impl PartialOrd for RowKey {
    ghost partial_cmp = { as_partial_cmp key_cmp };

    ghost laws = { partial_order_from_agreeing_total key_cmp key_cmp_total (λ x y. refl) (λ x y. refl) };

    fn partial_cmp(&self, other: &RowKey) -> Option<Ordering> {
        Some(self.cmp(other))
    }
}
