// The lists that the API has.

/// A list of rows, as a path of the API names it.
#[derive(Clone, Copy, Debug, PartialEq, Eq)]
pub enum Listing {
    Secrets,
    Containers,
    /// of one container
    Consumers,
    Orders,
    /// of all projects
    Quotas,
}
