ghost use Rattle.std.specs.Prelude.{◌≡◌, ◌≤◌, ◌↔◌, ℕ, List, length, IsTrue, position};
ghost use Rattle.std.specs.Cmp.{IsTotalOrder};
ghost use Rattle.std.specs.declared.cmp.Ordering.TheVariants.{Less, Equal};
ghost use Rattle.diag.specs.declared.suggestion.Suggestion.{Suggestion as AnySuggestion};
ghost use Rattle.diag.specs.declared.suggestion.Suggestion.TheVariants.{Help, Note};
ghost use Rattle.std.specs.Ordering.{is_lt};
ghost use Rattle.diag.specs.Suggestion.{suggestion_cmp, place_of};

use std::fmt;
use texts::Text;

/// What the reader of a diagnostic may do, or should know. Every help comes before every note, and texts go by bytes.
#[derive(Debug, Drop, PartialEq, Eq, PartialOrd, Ord)]
pub enum Suggestion {
    Help(Text),
    Note(Text),
}

impl Suggestion {
    /// Whether the suggestion comes before the other.
    fn is_before(&self, other: &Suggestion) -> bool
        ensures { result ≡ is_lt (suggestion_cmp self.now other.now) }
    {
        self < other
    }

    /// The place of the first of the others that comes after the suggestion.
    fn first_after(&self, others: &[Suggestion]) -> Option<usize>
        ensures { result ≡ position (λ other. is_lt (suggestion_cmp self.now other)) others.now }
    {
        others.iter().position(|other| self.is_before(other))
    }

    /// The place before the first of the others that comes after the suggestion, or the end.
    pub(crate) fn place_among(&self, others: &[Suggestion]) -> usize
        ensures place { result ≡ place_of self.now others.now }
        ensures within { result ≤ length others.now }
    {
        self.first_after(others).unwrap_or(others.len())
    }
}

impl fmt::Display for Suggestion {
    ghost use Rattle.std.specs.Prelude.{Some};
    ghost use Rattle.diag.specs.Suggestion.{line_of};

    ghost output = { λ suggestion. Some (line_of suggestion) };

    fn fmt<W: fmt::Write>(&self, f: &mut fmt::Formatter<W>) -> fmt::Result {
        match self {
            Suggestion::Help(text) => write!(f, "help = {}", text.as_str()),
            Suggestion::Note(text) => write!(f, "note = {}", text.as_str()),
        }
    }
}

/// The order of suggestions: it is total, ties only what is equal, puts every help before every note, and texts by
/// their bytes.
pub fn suggestions_are_ordered()
    ensures order { (one other : AnySuggestion) →
        ⟦<Suggestion as Ord>⟧.cmp one other ≡ suggestion_cmp one other }
    ensures total { IsTotalOrder suggestion_cmp }
    ensures ties { (one other : AnySuggestion) →
        (suggestion_cmp one other ≡ Equal) ↔ (one ≡ other) }
    ensures equality { (one other : AnySuggestion) →
        IsTrue (⟦<Suggestion as PartialEq>⟧.eq one other) ↔ (one ≡ other) }
    ensures help_first { (help note : List ℕ) → suggestion_cmp (Help help) (Note note) ≡ Less }
{}
