/// One of serde's traits.
#[derive(Clone, Copy, Debug, PartialEq, Eq)]
pub enum SerdeTrait {
    Serialize,
    Deserialize,
}
