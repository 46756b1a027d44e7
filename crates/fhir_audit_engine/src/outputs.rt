//! To what an audit is written beside standard output.

/// A new folder or a new file, and its name.
#[derive(Drop)]
pub struct Named<'o, T> {
    /// Its name, as the user gave it.
    pub name: &'o str,
    /// What is written.
    pub output: T,
}

/// To what an audit is written beside standard output.
#[derive(Drop)]
pub struct Outputs<'o, N, G> {
    /// The new folder of the certificates, if they are written.
    pub certificates: Option<Named<'o, N>>,
    /// The file of the page, if it is written.
    pub page: Option<Named<'o, G>>,
}
