//! What the bound of private buffers says of what others say.

ghost use Rattle.wc_irc.specs.PrivateLaws.{OpensNoneWhereFull, IsUnboundAtMost, IsMostByDefault};

/// What is said opens no buffer where so many private buffers of the server are there as messages
/// may open.
pub fn full_opens_none()
    ensures { OpensNoneWhereFull }
{}

/// Where 256 of them may be opened, as by default, what is said goes where it goes without a bound.
pub fn no_bound_by_default()
    ensures same { IsUnboundAtMost }
    ensures default { IsMostByDefault }
{}
