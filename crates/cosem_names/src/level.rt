//! The access levels of clients, public and management, and the rights to an attribute.

/// The access level of a client's association.
#[derive(Clone, Copy, Debug, PartialEq, Eq)]
pub enum Level {
    /// The public client (client port 16): may only read.
    Public,
    /// The management client (client port 1): may also write and execute.
    Management,
}

/// The rights of a client to an attribute.
#[derive(Clone, Copy, Debug, PartialEq, Eq)]
pub struct Rights {
    /// Whether it may read the attribute.
    pub read: bool,
    /// Whether it may write the attribute.
    pub write: bool,
}
