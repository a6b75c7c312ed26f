ghost use Rattle.std.specs.Prelude.{◌≡◌, ◌<◌, Some, None};
ghost use Rattle.links.specs.Chain.{target};

/// The entry that a chain goes on with: its number and 1, or 0 for none. An `Option<u16>` would take twice the bytes.
#[derive(Clone, Copy)]
pub(crate) struct Link(u16);

impl Link {
    /// To no entry.
    pub(crate) fn none() -> Link
        ensures { target result ≡ None }
    {
        Link(0)
    }

    /// To the entry with a number.
    pub(crate) fn to(number: u16) -> Link
        requires { number < 65535 }
        ensures { target result ≡ Some number }
    {
        Link(number + 1)
    }

    /// The number of the entry.
    pub(crate) fn entry(self) -> Option<u16>
        ensures { result ≡ target self }
    {
        self.0.checked_sub(1)
    }
}
