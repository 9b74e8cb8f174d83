/// Why a file could not be read, as far as that is known.
#[derive(Clone, Copy, Debug, PartialEq, Eq)]
pub enum Cause {
    /// There is no file at the path.
    Missing,
    /// The file may not be read.
    Denied,
    /// A folder is at the path.
    IsFolder,
    /// Any other cause, or none that is known.
    Unknown,
}
