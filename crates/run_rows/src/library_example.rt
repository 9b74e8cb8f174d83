//! The calls of the library: `derive_files`, `derive_components` with a configuration, and `run` over streams in memory.

use crate::pets::print_file;
use schema_gen::{
    Config, Derived, FromJson, HonestFiles, HonestSink, HonestSource, Status, Words,
    derive_components, run,
};

/// Prints the names of the components, and their document.
fn print_derived(rt: &HostRuntime, derived: &Derived) -> anyhow::Result<()> {
    for name in derived.components.names() {
        println!(rt; "component {}", name.as_str())?;
    }
    print!(rt; "{}", derived.components.to_text(rt.alloc())?.as_str())?;
    Ok(())
}

/// Prints how a run ended, and what it wrote.
fn print_outcome(rt: &HostRuntime, status: Status, out: &[u8], err: &[u8]) -> anyhow::Result<()> {
    println!(rt; "status {}", status.number())?;
    print!(rt; "{}", str::from_utf8(out)?)?;
    print!(rt; "{}", str::from_utf8(err)?)?;
    Ok(())
}

/// Runs the program on the source, and prints its status and what it wrote.
fn print_run(rt: &HostRuntime, source: &str) -> anyhow::Result<()> {
    let alloc = rt.alloc();
    let words = Words::new(vec![in alloc; "derive".to_string(alloc)?]?);
    let mut input = HonestSource::new(source.as_bytes().to_vec(alloc)?);
    let mut files = HonestFiles::new(Vec::new(alloc));
    let mut out = HonestSink::new(alloc, 1000)?;
    let mut err = HonestSink::new(alloc, 1000)?;
    let status = run(alloc, &words, &mut input, &mut files, &mut out, &mut err);
    print_outcome(rt, status, out.as_slice(), err.as_slice())
}

/// Makes each of the calls, and prints what comes of it.
pub(crate) fn print(rt: &HostRuntime) -> anyhow::Result<()> {
    print_file(
        rt,
        "type Id = u64;\n#[derive(Serialize)]\npub struct Pet { id: Id, tags: Vec<Tag> }\n",
    )?;
    print_file(
        rt,
        "#[derive(Serialize)]\npub struct Pet { owner: Owner }\n",
    )?;
    let source =
        r#"#[serde(rename_all = "camelCase")] struct Pet { full_name: Name } struct Name(String);"#;
    let renames =
        r#"{"renames":[{"rule":"camelCase","place":"field","from":"full_name","to":"fullName"}]}"#;
    let config = Config::from_slice(rt.alloc(), renames.as_bytes())?;
    print_derived(rt, &derive_components(rt.alloc(), source, &config)?)?;
    print_run(rt, "struct Pet { name: Option<String> }")?;
    print_run(rt, "struct Pet { owner: Owner }")
}
