/// Which instances get a component beside the roots.
#[derive(Clone, Copy, Debug, PartialEq, Eq)]
pub enum SchemaCollect {
    /// Those that references reach.
    NonInlined,
    /// Every instance that is reachable.
    All,
}
