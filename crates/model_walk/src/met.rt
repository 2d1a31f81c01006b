// Sections as the walk met them, one in another.
use crate::read_section::ReadSection;

/// A section as the walk met it, and the components that stand in it; none in a group.
#[cycle(met)]
#[derive(Drop)]
pub struct MetSection<'b, 'a> {
    pub section: &'b ReadSection<'a>,
    pub components: Vec<MetComponent<'b, 'a>>,
}

/// A component as the walk met it.
#[cycle(met)]
#[derive(Drop)]
pub enum MetComponent<'b, 'a> {
    Atomic,
    Section(MetSection<'b, 'a>),
}
