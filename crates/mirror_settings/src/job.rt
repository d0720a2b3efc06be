//! What a run does.
ghost use Rattle.std.specs.Prelude.{◌≡◌};
ghost use Rattle.mirror_settings.specs.Settings.{is_mirror};

/// What a run does.
#[derive(Clone, Copy)]
pub enum Job {
    /// It serves.
    Serve,
    /// It synchronises with relays once, and may serve meanwhile.
    Sync,
    /// It keeps level with its relays, if it has any, and may serve meanwhile.
    Mirror,
}

impl Job {
    pub(crate) fn is_mirror(self) -> bool
        ensures { result ≡ is_mirror self }
    {
        match self {
            Job::Serve => false,
            Job::Sync => false,
            Job::Mirror => true,
        }
    }
}
