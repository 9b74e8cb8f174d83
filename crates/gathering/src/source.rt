/// A file: its name, as it is told, and its bytes.
#[derive(Clone, Copy, Debug)]
pub struct Source<'s> {
    pub name: &'s str,
    pub bytes: &'s [u8],
}
