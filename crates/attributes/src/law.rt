//! Laws of the definitions that contracts cite.

ghost use Rattle.std.specs.Prelude.{◌≡◌, ◌↔◌, List, [], Ok, All, true, false, codes};
ghost use Rattle.words.specs.Words.{Word};
ghost use Rattle.attributes.specs.declared.serde_item.SerdeItem.{SerdeItem};
ghost use Rattle.attributes.specs.Attributes.{AttributeItem, is_word};
ghost use Rattle.attributes.specs.AttributeGrammar.{IsSerdeList, IsAttributes};
ghost use Rattle.attributes.specs.AttributeReading.{begin_attributes, attributes_at};

/// What is read as attributes is of the grammar, and no less is read.
#[tactic(auto, using(crate::proofs::Whole::attributes_sound, crate::proofs::Whole::attributes_complete))]
pub fn attributes_are_read()
    ensures sound { (ws : List Word) (xs : List AttributeItem) (rest : List Word)
        → attributes_at ws ≡ Ok (xs, rest) → IsAttributes ws xs rest }
    ensures complete { (ws : List Word) (xs : List AttributeItem) (rest : List Word)
        → IsAttributes ws xs rest → begin_attributes rest ≡ false
        → attributes_at ws ≡ Ok (xs, rest) }
{}

/// An attribute of the path `serde` has the items of the list behind it, and no others; other attributes have none.
#[tactic(auto, using(crate::proofs::Listed::are_listed, crate::proofs::Listed::have_none))]
pub fn items_are_of_their_lists()
    ensures listed { (ws rest : List Word) (xs : List AttributeItem) → IsAttributes ws xs rest
        → All (λ a. is_word (codes "serde") a.path ≡ true → (items : List SerdeItem)
        → (a.items ≡ items) ↔ IsSerdeList a.meta items) xs }
    ensures others { (ws rest : List Word) (xs : List AttributeItem) → IsAttributes ws xs rest
        → All (λ a. is_word (codes "serde") a.path ≡ false → a.items ≡ []) xs }
{}
