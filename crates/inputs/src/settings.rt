//! For which architecture texts are read, and which release is preferred.

/// What no text says: the architecture that packages are for, and the target release, if there is one.
#[derive(Clone, Copy)]
pub struct Settings<'a> {
    /// The architecture.
    pub arch: &'a [u8],
    /// The target release, as for `apt-get --target-release`.
    pub target: Option<&'a [u8]>,
}
