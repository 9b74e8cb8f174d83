//! JSON values, and when a schema of a document accepts one.
#![tactic(auto)]

ghost use Rattle.acceptance.specs.Law.{AcceptsDeeper, ComponentsAlone};

/// What a schema accepts at a depth, it accepts at each greater depth.
pub fn accepts_deeper()
    ensures { AcceptsDeeper }
{}

/// Documents whose components of each name are the same accept the same, at each depth.
pub fn components_alone()
    ensures { ComponentsAlone }
{}
