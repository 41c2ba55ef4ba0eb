// A disk with its name.
use crate::Name;

/// A name, and the disk that has it, unless it is taken.
#[derive(Drop)]
pub struct Named<D> {
    /// The name.
    pub name: Name,
    /// Its disk.
    pub disk: Option<D>,
}
