//! Whole files, as a service has them.

use schema_gen::whole_files::{Outcome, Selection, Source, Told, derive_files};
use schema_gen::{Config, Derived, List};

/// Prints what is told, as a compiler would tell it.
fn print_told(rt: &HostRuntime, told: &[Told]) -> anyhow::Result<()> {
    for one in told {
        print!(rt; "{one}")?;
    }
    Ok(())
}

/// Prints the names of the components.
fn print_names(rt: &HostRuntime, derived: &Derived) -> anyhow::Result<()> {
    for (name, _schema) in derived.components.iter() {
        println!(rt; "component {name}")?;
    }
    Ok(())
}

/// Derives of a file of this text what derives serde's traits, with an alias of the caller, and prints what comes of it.
pub(crate) fn print_file(rt: &HostRuntime, text: &str) -> anyhow::Result<()> {
    let alloc = rt.alloc();
    let mut config = Config::new(alloc);
    config.set_limit(100)?;
    let _is_new = config.add_alias(alloc, "Tag", "String")?;
    let sources = [Source {
        name: "src/pets.rs",
        bytes: text.as_bytes(),
    }];
    let selection = Selection {
        serde: true,
        only: List::new(alloc),
        exclude: List::new(alloc),
        skip_refused: false,
        not_plain: false,
        own: 1,
    };
    match derive_files(alloc, &sources, &selection, config)? {
        Outcome::Derived(derived, warnings) => {
            print_told(rt, warnings.told.as_slice())?;
            print_names(rt, &derived)
        }
        Outcome::Refused(told) => print_told(rt, told.as_slice()),
    }
}
