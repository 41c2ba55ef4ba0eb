// What serves connections.
ghost use Rattle.std.specs.Prelude.{◌≡◌, false};

/// Something that serves connections, one after another.
pub trait Host {
    /// A connection.
    type Link;

    /// Whether the host may serve a connection now.
    ghost ready: { Self → Type 0 };

    /// What serving a connection does: the host and the connection before, and both after.
    ghost serves: { Self → Self.Link → Self → Self.Link → Type 0 };

    /// Why the host is over: it is to serve no further connection.
    ghost over: { Self → Type 0 };

    /// Serves the connection to its end. Whether the host is to serve another; it may in any case.
    fn serve(&mut self, link: &mut Self::Link) -> bool
        requires ready { ready self.old }
        ensures ready { ready self.new }
        ensures served { serves self.old link.old self.new link.new }
        ensures over { result ≡ false → over self.new };
}
