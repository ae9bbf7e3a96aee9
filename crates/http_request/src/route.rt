//! The routes of the store.

/// A route of the store (Riak KV, HTTP API; hooks are this store's).
#[derive(Clone, Copy, PartialEq, Eq)]
pub enum Route {
    /// `/`
    Root,
    /// `/ping`
    Ping,
    /// `/buckets/{bucket}/keys/{key}`
    Key,
    /// `/types/default/buckets/{bucket}/keys/{key}`: Riak's bucket type `default` is the one that there is.
    TypedKey,
    /// `/riak/{bucket}/{key}`, Riak's old route of a key.
    OldKey,
    /// `/hooks/{name}`
    Hook,
    /// `/buckets/{bucket}/props`
    Props,
    /// `/types/default/buckets/{bucket}/props`
    TypedProps,
}
