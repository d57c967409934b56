//! The roles of certificates in a chain.

ghost use Rattle.std.specs.Prelude.{◌≡◌, ◌<◌};
ghost use Rattle.cert_desk.specs.Roles.{place_above, role_at};

/// The role of a certificate in a chain.
#[derive(Clone, Copy)]
pub(crate) enum Role {
    /// A root CA, which signs its own certificate.
    Root,
    /// An intermediate CA, below another one.
    Subordinate,
    /// The subscriber, an end entity.
    Subscriber,
}

/// Returns the role at an index of a chain with `count` certificates: the first is a root, and the
/// last of two or more is a subscriber.
pub(crate) fn role_at(count: usize, place: usize) -> Role
    requires { place < count }
    ensures { result ≡ role_at count place }
{
    if place == 0 {
        return Role::Root;
    }
    if count == place + 1 {
        return Role::Subscriber;
    }
    Role::Subordinate
}

/// Returns the index of the order above: its subject is the issuer, and its key signs.
pub(crate) fn place_above(place: usize) -> usize
    ensures { result ≡ place_above place }
{
    if place == 0 {
        return 0;
    }
    place - 1
}
