ghost use Rattle.std.specs.Prelude.{◌≡◌, [], ◌∷◌, ◌++◌, unwrap_or, IfOk, OnOk, IsSorted};
ghost use Rattle.diag.specs.Diagnostics.{diagnostic, with_suggestion, with_instance, text_of, located_of, entry_text, joined_of, HasFirst};
ghost use Rattle.texts.specs.Span.{no_span};
ghost use Rattle.diag.specs.Suggestion.{suggestion_cmp};
ghost use Rattle.diag.specs.declared.suggestion.Suggestion.TheVariants.{Help, Note};

use crate::kind::Kind;
use crate::suggestion::Suggestion;
use std::alloc::{AllocError, Global};
use std::error::Error;
use std::fmt;
use std::marker::Model;
use texts::{List, Span, Text};

/// One entry of a diagnostic.
#[derive(Debug, Drop)]
pub struct DiangosticsInner {
    pub span: Span,
    pub kind: Kind,
    pub message: Text,
    /// Sorted, every help first.
    pub suggestions: List<Suggestion>,
    /// The types that the entry speaks of, as texts.
    pub instances: List<Text>,
}

/// What is reported of a source: one entry or more, of which the first speaks for all.
#[derive(Debug, Drop)]
pub struct Diagnostics {
    first: DiangosticsInner,
    others: List<DiangosticsInner>,
}

impl Model for Diagnostics {
    ghost use Rattle.std.specs.Prelude.{List as Items, ◌∷◌, IsSorted};
    ghost use Rattle.diag.specs.Suggestion.{suggestion_cmp};
    ghost use Rattle.diag.specs.declared.diagnostics.DiangosticsInner.{DiangosticsInner};

    ghost Value = { Items DiangosticsInner };

    ghost view = { λ diagnostics. diagnostics.first ∷ diagnostics.others };

    // `help` and `note` keep the order of the suggestions
    ghost invariant = { λ diagnostics. IsSorted suggestion_cmp diagnostics.first.suggestions };
}

impl Diagnostics {
    /// One entry, with the span `0..0`.
    pub fn new(alloc: Global, kind: Kind, message: &str) -> Result<Diagnostics, AllocError>
        ensures { IfOk result (λ d. d ≡ diagnostic kind no_span message.now ∷ []) }
    {
        Diagnostics::with_span(alloc, kind, Span::nowhere(), message)
    }

    /// One entry, without suggestions and instances.
    pub fn with_span(
        alloc: Global,
        kind: Kind,
        span: Span,
        message: &str,
    ) -> Result<Diagnostics, AllocError>
        ensures { IfOk result (λ d. d ≡ diagnostic kind span message.now ∷ []) }
    {
        let first = DiangosticsInner {
            span,
            kind,
            message: Text::new(alloc, message)?,
            suggestions: List::new(alloc),
            instances: List::new(alloc),
        };
        Ok(Diagnostics {
            first,
            others: List::new(alloc),
        })
    }

    /// All entries of all diagnostics, in order, or none if there are no diagnostics.
    pub fn join(_alloc: Global, list: Vec<Diagnostics>) -> Result<Option<Diagnostics>, AllocError>
        ensures { IfOk result (λ joined. joined ≡ joined_of list.items) }
    {
        let mut joined = None;
        for part in list {
            joined = Some(appended(joined, part)?);
        }
        Ok(joined)
    }

    /// The first entry with a suggestion more, which tells what the reader may do.
    pub fn help(self, text: &str) -> Result<Diagnostics, AllocError>
        ensures { IfOk result (λ d. d ≡ with_suggestion (Help text.now) self) }
    {
        let text = Text::new(self.allocator(), text)?;
        self.suggest(Suggestion::Help(text))
    }

    /// The first entry with a suggestion more, which tells what the reader should know.
    pub fn note(self, text: &str) -> Result<Diagnostics, AllocError>
        ensures { IfOk result (λ d. d ≡ with_suggestion (Note text.now) self) }
    {
        let text = Text::new(self.allocator(), text)?;
        self.suggest(Suggestion::Note(text))
    }

    /// The first entry with an instance more, the last.
    pub fn instance(mut self, text: &str) -> Result<Diagnostics, AllocError>
        ensures { IfOk result (λ d. d ≡ with_instance text.now self) }
    {
        let text = Text::new(self.allocator(), text)?;
        self.first.instances.push(text)?;
        Ok(self)
    }

    fn suggest(mut self, suggestion: Suggestion) -> Result<Diagnostics, AllocError>
        ensures { IfOk result (λ d. d ≡ with_suggestion suggestion self) }
    {
        let place = suggestion.place_among(self.first.suggestions.as_slice());
        self.first.suggestions.insert(place, suggestion)?;
        Ok(self)
    }

    fn allocator(&self) -> Global {
        self.others.allocator()
    }

    /// What the first entry is about.
    pub fn kind(&self) -> Kind
        ensures { HasFirst self.now (λ entry. result ≡ entry.kind) }
    {
        self.first.kind
    }

    /// Where the first entry stands in the source.
    pub fn span(&self) -> Span
        ensures { HasFirst self.now (λ entry. result ≡ entry.span) }
    {
        self.first.span
    }

    /// The message of the first entry.
    pub fn message(&self) -> &str
        ensures { HasFirst self.now (λ entry. result.now ≡ entry.message) }
    {
        self.first.message.as_str()
    }

    /// The suggestions of the first entry, sorted.
    pub fn suggestions(&self) -> &[Suggestion]
        ensures first { HasFirst self.now (λ entry. result.now ≡ entry.suggestions) }
        ensures sorted { IsSorted suggestion_cmp result.now }
    {
        self.first.suggestions.as_slice()
    }

    /// The types that the first entry speaks of, as texts.
    pub fn instances(&self) -> &[Text]
        ensures { HasFirst self.now (λ entry. result.now ≡ entry.instances) }
    {
        self.first.instances.as_slice()
    }

    /// The entries as a report prints them: of each the message, and after an empty line its suggestions.
    pub fn text(&self, alloc: Global) -> Result<Text, AllocError>
        ensures { IfOk result (λ text. text ≡ text_of self.now) }
    {
        let mut text = Text::new(alloc, "")?;
        push_entry(alloc, &mut text, &self.first)?;
        for entry in self.others.as_slice() {
            text.push("\n")?;
            push_entry(alloc, &mut text, entry)?;
        }
        Ok(text)
    }

    /// `KIND START..END: ` and what `text` gives, with the kind and the span of the first entry. `START..END` is
    /// half-open and counts bytes of the source, in decimal; it is `0..0` of what stands nowhere in it.
    pub fn located(&self, alloc: Global) -> Result<Text, AllocError>
        ensures { IfOk result (λ text. text ≡ located_of self.now) }
    {
        let kind = self.kind();
        let span = self.span();
        let text = self.text(alloc)?;
        let located = format!(in alloc; "{kind} {}..{}: {}", span.start, span.end, text.as_str())?;
        Ok(Text::from(located))
    }
}

/// The entries so far, and those of the part.
fn appended(joined: Option<Diagnostics>, part: Diagnostics) -> Result<Diagnostics, AllocError>
    ensures { IfOk result (λ all. all ≡ unwrap_or joined [] ++ part) }
{
    let Some(mut all) = joined else {
        return Ok(part);
    };
    let Diagnostics { first, others } = part;
    all.others.push(first)?;
    all.others.append(others)?;
    Ok(all)
}

/// Adds an entry as a report prints it.
fn push_entry(alloc: Global, text: &mut Text, entry: &DiangosticsInner) -> Result<(), AllocError>
    ensures { OnOk result (text.new ≡ text.old ++ entry_text entry.now) }
{
    text.push(entry.message.as_str())?;
    if entry.suggestions.is_empty() {
        return Ok(());
    }
    text.push("\n")?;
    for suggestion in entry.suggestions.as_slice() {
        let line = format!(in alloc; "\n{suggestion}")?;
        text.push(line.as_str())?;
    }
    Ok(())
}

impl fmt::Display for Diagnostics {
    ghost use Rattle.std.specs.Prelude.{Some};
    ghost use Rattle.diag.specs.Diagnostics.{message_of};

    ghost output = { λ diagnostics. Some (message_of diagnostics) };

    fn fmt<W: fmt::Write>(&self, f: &mut fmt::Formatter<W>) -> fmt::Result {
        f.write_str(self.message())
    }
}

impl Error for Diagnostics {}
