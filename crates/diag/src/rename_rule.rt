ghost use Rattle.std.specs.Prelude.{◌≡◌};
ghost use Rattle.diag.specs.RenameRules.{name_of};
ghost use Rattle.diag.specs.declared.rename_rule.RenameRule.{RenameRule as AnyRule};

use std::fmt;
use std::str::FromStr;
use thiserror::Error;

/// How the names of fields or variants are written in JSON.
#[derive(Clone, Copy, Debug, PartialEq, Eq)]
pub enum RenameRule {
    Lower,
    Upper,
    Camel,
    Snake,
    ScreamingSnake,
    Pascal,
    Kebab,
    ScreamingKebab,
}

/// A text that is the name of no rename rule.
#[derive(Clone, Copy, Debug, PartialEq, Eq, Error)]
#[error("unknown rename rule")]
pub struct UnknownRule;

impl RenameRule {
    /// The rule's name, as it is written in an attribute.
    pub fn name(&self) -> &'static str
        ensures { result.now ≡ name_of self.now }
    {
        match self {
            RenameRule::Lower => "lowercase",
            RenameRule::Upper => "UPPERCASE",
            RenameRule::Camel => "camelCase",
            RenameRule::Snake => "snake_case",
            RenameRule::ScreamingSnake => "SCREAMING_SNAKE_CASE",
            RenameRule::Pascal => "PascalCase",
            RenameRule::Kebab => "kebab-case",
            RenameRule::ScreamingKebab => "SCREAMING-KEBAB-CASE",
        }
    }
}

/// The rule of the name. Any other text is an `UnknownRule`.
impl FromStr for RenameRule {
    ghost use Rattle.diag.specs.RenameRules.{IsRuleNamed};

    type Err = UnknownRule;

    ghost from_str_gives = { IsRuleNamed };

    fn from_str(name: &str) -> Result<RenameRule, UnknownRule> {
        match name {
            "lowercase" => Ok(RenameRule::Lower),
            "UPPERCASE" => Ok(RenameRule::Upper),
            "camelCase" => Ok(RenameRule::Camel),
            "snake_case" => Ok(RenameRule::Snake),
            "SCREAMING_SNAKE_CASE" => Ok(RenameRule::ScreamingSnake),
            "PascalCase" => Ok(RenameRule::Pascal),
            "kebab-case" => Ok(RenameRule::Kebab),
            "SCREAMING-KEBAB-CASE" => Ok(RenameRule::ScreamingKebab),
            _ => Err(UnknownRule),
        }
    }
}

impl fmt::Display for RenameRule {
    ghost use Rattle.std.specs.Prelude.{Some};
    ghost use Rattle.diag.specs.RenameRules.{name_of};

    ghost output = { λ rule. Some (name_of rule) };

    fn fmt<W: fmt::Write>(&self, f: &mut fmt::Formatter<W>) -> fmt::Result {
        f.write_str(self.name())
    }
}

/// No two rules have the same name.
pub fn rules_have_own_names()
    ensures { (one other : AnyRule) → name_of one ≡ name_of other → one ≡ other }
{}
