//! Laws of the definitions that contracts cite.

ghost use Rattle.std.specs.Prelude.{◌≡◌, ◌⊎◌, ℕ, List, [], ◌∷◌, ◌++◌, Some};
ghost use Rattle.diag.specs.declared.error.DeriveError.{DeriveError};
ghost use Rattle.attributes.specs.Attributes.{AttributeItem, serde_items};
ghost use Rattle.attributes.specs.declared.serde_item.SerdeItem.{SerdeItem};
ghost use Rattle.diag.specs.RenameRules.{name_of};
ghost use Rattle.diag.specs.declared.rename_rule.RenameRule.{RenameRule};
ghost use Rattle.serde_rules.specs.Items.{text_for, last_text};
ghost use Rattle.serde_rules.specs.Container.{rule_named, IsContainerRefusal, AreContainerRules};
ghost use Rattle.serde_rules.specs.declared.container.SerdeContainer.{SerdeContainer};

/// The serde lists of one place are one list.
#[tactic(auto, using(crate::proofs::ItemLaws::items_joined))]
pub fn lists_are_one()
    ensures { (one other : List AttributeItem)
        → serde_items (one ++ other) ≡ serde_items one ++ serde_items other }
{}

/// Of texts under one name the last counts.
#[tactic(auto, using(crate::proofs::ItemLaws::last_counts))]
pub fn last_text_counts()
    ensures { (name text : List ℕ) (before : List SerdeItem) (item : SerdeItem)
        → text_for name item ≡ Some text → last_text name (before ++ item ∷ []) ≡ Some text }
{}

/// A rule is found by its name, and by no other text.
#[tactic(auto, using(crate::proofs::ContainerLaws::found_by_name, crate::proofs::ContainerLaws::found_has_name))]
pub fn rules_are_found_by_name()
    ensures found { (rule : RenameRule) → rule_named (name_of rule) ≡ Some rule }
    ensures named { (text : List ℕ) (rule : RenameRule) → rule_named text ≡ Some rule
        → name_of rule ≡ text }
{}

/// Items say one thing of a struct or an enum, or are refused for one: what says one is not refused, and what says none is.
#[tactic(auto, using(crate::proofs::ContainerLaws::rules_are_one))]
pub fn container_rules_are_one()
    ensures one { (items : List SerdeItem) (rules others : SerdeContainer)
        → AreContainerRules items rules → AreContainerRules items others → rules ≡ others }
    ensures allowed { (items : List SerdeItem) (rules : SerdeContainer) (e : DeriveError)
        → AreContainerRules items rules → ¬ IsContainerRefusal items e }
    ensures decided { (items : List SerdeItem)
        → ((rules : SerdeContainer) × AreContainerRules items rules)
        ⊎ ((e : DeriveError) × IsContainerRefusal items e) }
    ensures one_refusal { (items : List SerdeItem) (e other : DeriveError)
        → IsContainerRefusal items e → IsContainerRefusal items other → e ≡ other }
{}
