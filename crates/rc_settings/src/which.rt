//! Which groups a regex keeps.
ghost use Rattle.std.specs.Prelude.{◌≡◌};
ghost use Rattle.rc_settings.specs.Which.{is_grouped as groups_are_kept};

/// Which groups a regex keeps: all of them, or only the whole matches.
#[derive(Clone, Copy, Debug, PartialEq, Eq)]
pub enum WhichCaptures {
    /// The whole matches and every explicit group.
    All,
    /// Only the whole matches.
    Implicit,
    /// The same as `Implicit`.
    None,
}

/// Whether the explicit groups are kept.
pub fn is_grouped(which: WhichCaptures) -> bool
    ensures { result ≡ groups_are_kept which }
{
    match which {
        WhichCaptures::All => true,
        WhichCaptures::Implicit | WhichCaptures::None => false,
    }
}
